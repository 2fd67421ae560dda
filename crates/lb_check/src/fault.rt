// Why a program is refused.
use lb_syntax::Name;
use std::alloc::AllocError;
use thiserror::Error;

/// A rule that a program breaks, at the first place in text order where it breaks it.
/// A `function` is the one in which the place stands.
#[derive(Debug, PartialEq, Eq, Drop, Error)]
pub enum CheckFault {
    /// Over 256 functions.
    #[error("{count} functions, over 256")]
    TooManyFunctions { count: u64 },
    /// The function has the name of an earlier one.
    #[error("two functions have one name")]
    DuplicateFunction { function: Name },
    /// A parameter has the name of an earlier parameter, or a result that of an earlier result.
    #[error("two parameters or two results have one name")]
    DuplicateName { function: Name, name: Name },
    /// There is no function `init`.
    #[error("no function init")]
    NoInit,
    /// There is no function `loop`.
    #[error("no function loop")]
    NoLoop,
    /// The function, `init` or `loop`, has a parameter or a result.
    #[error("init or loop has a parameter or a result")]
    EntryShape { function: Name },
    /// Over 8 parameters, or else over 8 results.
    #[error("{count} parameters or results, over 8")]
    TooManyParams { function: Name, count: u64 },
    /// The size of a `stackalloc` is 0 or no multiple of 4.
    #[error("a block of {bytes} bytes")]
    BadAllocSize { function: Name, bytes: u32 },
    /// A call of a name that is no function.
    #[error("a call of a name that is no function")]
    UnknownFunction { function: Name, name: Name },
    /// A call whose numbers of arguments or targets aren't those of the function that it names.
    #[error("a call that doesn't fit its function")]
    WrongArity { function: Name, name: Name },
    /// A call's target has the name of an earlier target of the call.
    #[error("two targets of a call have one name")]
    DuplicateTarget { function: Name, name: Name },
    /// An `MMIOREAD` without exactly one target and one argument, or an `MMIOWRITE` without
    /// exactly no target and two arguments.
    #[error("an access that doesn't have its shape")]
    BadIo { function: Name },
    /// The first function from which a path of calls leads back to it.
    #[error("a path of calls leads from a function back to it")]
    Recursion { function: Name },
    /// The function's frame needs this many bytes, over 32,768.
    #[error("a frame of {bytes} bytes, over 32768")]
    FrameNeed { function: Name, bytes: u64 },
    /// The code needs this many words of 4 bytes, over 32,768.
    #[error("{words} words of code, over 32768")]
    CodeNeed { words: u64 },
    /// The stack needs this many bytes, over 65,536.
    #[error("{bytes} bytes of stack, over 65536")]
    StackNeed { bytes: u64 },
}

/// Why there is no checked program.
#[derive(Debug, PartialEq, Eq, Drop, Error)]
pub enum CheckError {
    /// The program breaks a rule.
    #[error("{0}")]
    Fault(CheckFault),
    /// No memory is left.
    #[error("no memory is left")]
    Memory,
}

impl From<AllocError> for CheckError {
    ghost use Rattle.std.specs.Prelude.{◌≡◌};
    ghost use Rattle.lb_check.specs.declared.fault.CheckError.TheVariants.{Memory};

    ghost from_gives = { λ _ e. e ≡ Memory };

    fn from(_: AllocError) -> Self {
        CheckError::Memory
    }
}
