// The form of a line, and the reader of all forms.
ghost use Rattle.std.specs.Prelude.{◌≡◌, ◌==◌, ◌+◌, ◌^◌, ◌<◌, List, [], ◌∷◌, length, IfOk, IfErr, IfSome, OnOk, position};
ghost use Rattle.std.specs.Option.{option_map_or};
ghost use Rattle.std.specs.Str.Lines.{strip_carriage_return};
ghost use Rattle.lb_lines.specs.declared.form.Refusal.TheVariants.{NoMemory};
ghost use Rattle.lb_lines.specs.Lines.{pieces_of, lines_of};
ghost use Rattle.lb_lines.specs.Form.{Form, Say, Explains};
ghost use Rattle.lb_lines.specs.InternalReading.{Takes, Refuses, Adds, RefusesAt};

use crate::fault::{LineError, LineFault, LineKind};
use std::alloc::{AllocError, AllocFailed, Global};

/// Why a line isn't taken.
#[derive(Clone, Copy, Debug, PartialEq, Eq)]
pub enum Refusal {
    /// It is outside its form.
    Outside(LineKind),
    /// No memory is left.
    NoMemory,
}

impl From<AllocError> for Refusal {
    ghost from_gives = { λ _ e. e ≡ NoMemory };

    fn from(_: AllocError) -> Self {
        Refusal::NoMemory
    }
}

impl<T: Drop> From<AllocFailed<T>> for Refusal {
    ghost from_gives = { λ _ e. e ≡ NoMemory };

    fn from(_: AllocFailed<T>) -> Self {
        Refusal::NoMemory
    }
}

/// A value that lines of one form say.
pub trait LineForm: Sized + Drop {
    /// The form.
    ghost form: { Form Self };

    /// Adds what a line says to the values of the lines before it.
    fn append(alloc: Global, line: &[u8], values: &mut Vec<Self>) -> Result<(), Refusal>
        ensures taken { OnOk result (Takes form line.now values.old.items values.new.items) }
        ensures refused { IfErr result (Refuses form line.now values.old.items) };

    ghost none_is_few: { form.IsFew 0 };
}

/// What the lines of a text say, if its first line has this number. Empty lines say nothing.
pub fn read_lines<T: LineForm>(
    alloc: Global,
    text: &[u8],
    first_line: u32,
) -> Result<Vec<T>, LineError>
    requires { first_line + length text.now < 2 ^ 32 }
    ensures read { IfOk result (λ values. Say T.form (lines_of first_line text.now) values.items) }
    ensures refused { IfErr result (Explains T.form (lines_of first_line text.now)) }
{
    let mut values = Vec::new(alloc);
    let mut rest = text;
    let mut number = first_line;
    'lines: loop {
        let (line, behind) = first_piece(rest);
        read_line(alloc, line, number, &mut values)?;
        let Some(behind) = behind else {
            return Ok(values);
        };
        rest = behind;
        number += 1;
    }
}

// Adds what the line of this number says, if it isn't empty.
fn read_line<T: LineForm>(
    alloc: Global,
    line: &[u8],
    number: u32,
    values: &mut Vec<T>,
) -> Result<(), LineError>
    ensures read { OnOk result (Adds T.form number line.now values.old.items values.new.items) }
    ensures refused { IfErr result (RefusesAt T.form number line.now values.old.items) }
{
    if line.is_empty() {
        return Ok(());
    }
    match T::append(alloc, line, values) {
        Ok(()) => Ok(()),
        Err(Refusal::Outside(kind)) => Err(LineError::Line(LineFault { line: number, kind })),
        Err(Refusal::NoMemory) => Err(LineError::Memory),
    }
}

// The first piece of a text, without the one carriage return at its end, and what follows its line feed.
fn first_piece(text: &[u8]) -> (&[u8], Option<&[u8]>)
    ensures cut { pieces_of text.now
        ≡ result.0.now ∷ option_map_or (λ behind. pieces_of behind.now) result.1 [] }
    ensures shorter { IfSome result.1 (λ behind. length behind.now < length text.now) }
{
    match first_line_feed(text) {
        Some(end) => (without_return(&text[..end]), Some(&text[end + 1..])),
        None => (without_return(text), None),
    }
}

// Where the first line feed stands.
fn first_line_feed(text: &[u8]) -> Option<usize>
    ensures { result ≡ position (λ b. b == 10) text.now }
{
    text.iter().position(|byte| *byte == b'\n')
}

// The line without the one carriage return at its end, if it has one.
fn without_return(line: &[u8]) -> &[u8]
    ensures { result.now ≡ strip_carriage_return line.now }
{
    line.strip_suffix(b"\r").unwrap_or(line)
}
