// What the checker answers, as a line to compare: the needs of a program, or its fault with the fault's parts.
use lb_check::{CheckError, CheckFault, Needs, check};
use lb_handmade::has_few_parts;
use lb_syntax::Name;
use lb_text::{ReadError, read_program};
use std::alloc::{AllocError, Global};
use std::process::Abort;

/// Why there is no answer.
#[derive(Clone, Copy, Debug, PartialEq, Eq)]
pub enum NoAnswer {
    /// The text is no program's.
    Text,
    /// The text or its program is too large.
    Large,
    /// No memory is left.
    Memory,
}

impl From<AllocError> for NoAnswer {
    fn from(_: AllocError) -> Self {
        NoAnswer::Memory
    }
}

// The most bytes of a text.
const MOST_BYTES: usize = 1_048_576;

/// Asserts that the checker answers this for the text's program.
pub fn expect(rt: &impl Abort, alloc: Global, text: &str, want: &str) -> Result<(), NoAnswer> {
    let line = answer(alloc, text)?;
    assert_eq!(rt; line.as_str(), want, "of {text}");
    Ok(())
}

/// What the checker answers for the text's program.
pub fn answer(alloc: Global, text: &str) -> Result<String, NoAnswer> {
    let bytes = text.as_bytes();
    if bytes.len() > MOST_BYTES {
        return Err(NoAnswer::Large);
    }
    let program = match read_program(alloc, bytes) {
        Ok(program) => program,
        Err(ReadError::Text(_)) => return Err(NoAnswer::Text),
        Err(ReadError::Memory) => return Err(NoAnswer::Memory),
    };
    if !has_few_parts(&program) {
        return Err(NoAnswer::Large);
    }
    match check(alloc, program) {
        Ok(checked) => Ok(needs_line(alloc, checked.needs())?),
        Err(CheckError::Fault(fault)) => Ok(fault_line(alloc, &fault)?),
        Err(CheckError::Memory) => Err(NoAnswer::Memory),
    }
}

fn needs_line(alloc: Global, needs: Needs) -> Result<String, AllocError> {
    let words = needs.words;
    let stack = needs.stack;
    format!(in alloc; "ok words {words} stack {stack}")
}

fn fault_line(alloc: Global, fault: &CheckFault) -> Result<String, AllocError> {
    match fault {
        CheckFault::TooManyFunctions { count } => number(alloc, "too-many-functions", *count),
        CheckFault::DuplicateFunction { function } => of(alloc, "duplicate-function", function),
        CheckFault::DuplicateName { function, name } => {
            named(alloc, "duplicate-name", function, name)
        }
        CheckFault::NoInit => String::from_str(alloc, "no-init"),
        CheckFault::NoLoop => String::from_str(alloc, "no-loop"),
        CheckFault::EntryShape { function } => of(alloc, "entry-shape", function),
        CheckFault::TooManyParams { function, count } => {
            counted(alloc, "too-many-params", function, *count)
        }
        CheckFault::BadAllocSize { function, bytes } => {
            counted(alloc, "bad-alloc-size", function, u64::from(*bytes))
        }
        CheckFault::UnknownFunction { function, name } => {
            named(alloc, "unknown-function", function, name)
        }
        CheckFault::WrongArity { function, name } => named(alloc, "wrong-arity", function, name),
        CheckFault::DuplicateTarget { function, name } => {
            named(alloc, "duplicate-target", function, name)
        }
        CheckFault::BadIo { function } => of(alloc, "bad-io", function),
        CheckFault::Recursion { function } => of(alloc, "recursion", function),
        CheckFault::FrameNeed { function, bytes } => counted(alloc, "frame-need", function, *bytes),
        CheckFault::CodeNeed { words } => number(alloc, "code-need", *words),
        CheckFault::StackNeed { bytes } => number(alloc, "stack-need", *bytes),
    }
}

fn number(alloc: Global, fault: &str, n: u64) -> Result<String, AllocError> {
    format!(in alloc; "{fault} {n}")
}

fn of(alloc: Global, fault: &str, function: &Name) -> Result<String, AllocError> {
    let mut line = String::from_str(alloc, fault)?;
    push_name(&mut line, function)?;
    Ok(line)
}

fn named(alloc: Global, fault: &str, function: &Name, name: &Name) -> Result<String, AllocError> {
    let mut line = of(alloc, fault, function)?;
    push_name(&mut line, name)?;
    Ok(line)
}

fn counted(alloc: Global, fault: &str, function: &Name, n: u64) -> Result<String, AllocError> {
    let line = of(alloc, fault, function)?;
    format!(in alloc; "{line} {n}")
}

// Appends a blank and the name.
fn push_name(line: &mut String, name: &Name) -> Result<(), AllocError> {
    line.push(' ')?;
    for b in name.as_bytes() {
        line.push(char::from(*b))?;
    }
    Ok(())
}
