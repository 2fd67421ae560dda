// What may be expected at a place of a text.

/// A part of the grammar that is still to come: a token, or what stands for several.
#[derive(Clone, Copy, Debug, PartialEq, Eq)]
pub enum Symbol {
    /// Any number of functions, up to the end of the text.
    Functions,
    /// Names in brackets, none or some, from behind the opening bracket to the closing one.
    Names,
    /// More names, each behind a comma, and the closing bracket.
    MoreNames,
    /// The results of a function, if any, and its block.
    Results,
    /// A block with its braces.
    Block,
    /// The commands of a block, and the brace that closes it.
    Commands,
    /// An `else` with its block, if any, and then what `Commands` is.
    AfterIf,
    /// A command from behind its first name, to its semicolon.
    AfterName,
    /// More targets of a call, each behind a comma, then `=` and the call, to its semicolon.
    MoreTargets,
    /// What stands behind `x =`: an expression or a call, to its semicolon.
    Source,
    /// What stands behind `x = y`: a semicolon, or the arguments of a call and a semicolon.
    AfterSource,
    /// A call from its callee on, to its semicolon.
    Callee,
    /// Arguments, none or some, from behind the opening bracket to the closing one.
    Arguments,
    /// More arguments, each behind a comma, and the closing bracket.
    MoreArguments,
    /// An expression.
    Expr,
    /// The sign of an operation.
    Sign,
    /// A name.
    Name,
    /// A number.
    Number,
    /// `(`.
    OpenParen,
    /// `)`.
    CloseParen,
    /// `,`.
    Comma,
    /// `;`.
    Semicolon,
    /// `as`.
    As,
}
