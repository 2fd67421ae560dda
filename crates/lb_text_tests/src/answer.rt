// What is told of a text: the canonical text of its program, or its fault.
use lb_text::{ReadError, TextFault, TextKind, print_program, read_program};
use std::alloc::{AllocError, Global};
use std::process::Abort;

/// Why there is no answer.
#[derive(Clone, Copy, Debug, PartialEq, Eq)]
pub enum NoAnswer {
    /// The text is too large.
    Large,
    /// No memory is left.
    Memory,
}

impl From<AllocError> for NoAnswer {
    fn from(_: AllocError) -> Self {
        NoAnswer::Memory
    }
}

/// The most bytes of a text.
pub const MOST_BYTES: usize = 1_048_576;

/// Asserts that this is told of the text.
pub fn expect(rt: &impl Abort, alloc: Global, text: &[u8], want: &[u8]) -> Result<(), NoAnswer> {
    let told = answer(alloc, text)?;
    assert_eq!(rt; told.as_slice(), want, "of {text:?}");
    Ok(())
}

/// What is told of the text.
pub fn answer(alloc: Global, text: &[u8]) -> Result<Vec<u8>, NoAnswer> {
    if text.len() > MOST_BYTES {
        return Err(NoAnswer::Large);
    }
    match read_program(alloc, text) {
        Ok(program) => Ok(print_program(alloc, &program)?),
        Err(ReadError::Text(fault)) => Ok(fault_line(alloc, fault)?.into_bytes()),
        Err(ReadError::Memory) => Err(NoAnswer::Memory),
    }
}

fn fault_line(alloc: Global, fault: TextFault) -> Result<String, AllocError> {
    let at = fault.at;
    let kind = kind_word(fault.kind);
    format!(in alloc; "text at {at} {kind}")
}

fn kind_word(kind: TextKind) -> &'static str {
    match kind {
        TextKind::Ended => "ended",
        TextKind::BadByte => "bad-byte",
        TextKind::TooDeep => "too-deep",
        TextKind::NumberTooWide => "number-too-wide",
        TextKind::NameTooLong => "name-too-long",
        TextKind::Unexpected => "unexpected",
    }
}
