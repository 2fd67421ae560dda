// The rules that are decided place by place, in text order.

/// A rule on one function.
#[derive(Clone, Copy, Debug, PartialEq, Eq)]
pub enum FunctionRule {
    /// No parameter comes twice, and no result.
    Names,
    /// `init` and `loop` have neither parameters nor results.
    Entry,
    /// At most 8 parameters and 8 results.
    Counts,
    /// The frame is within its limit.
    FrameNeed,
}

/// A rule on one command, its parts aside.
#[derive(Clone, Copy, Debug, PartialEq, Eq)]
pub enum CommandRule {
    /// A block of memory is whole words, and one at least.
    BlockSize,
    /// A call is of a function of the program.
    Callee,
    /// A call has its function's numbers of arguments and targets.
    Arity,
    /// No target of a call comes twice.
    Targets,
    /// An access has its action's shape.
    Access,
}

/// A rule of the language.
#[derive(Clone, Copy, Debug, PartialEq, Eq)]
pub enum Rule {
    /// At most 256 functions.
    FunctionCount,
    /// No function has the name of an earlier one.
    FunctionNames,
    /// There is a function `init`.
    Init,
    /// There is a function `loop`.
    Again,
    /// The code is within its limit.
    CodeNeed,
    /// A rule on each function.
    OfFunction(FunctionRule),
    /// A rule on each command.
    OfCommand(CommandRule),
}
