// The lines of faults.
ghost use Rattle.std.specs.Prelude.{◌≡◌, ◌++◌, ℕ, IfSome, IfNone, IfOk, OnOk, codes, decimal};
ghost use Rattle.lb_system.specs.Faults.{TakesMemory, fault_line, kind_text, line_text, image_text, form_text, rule_word, rule_place, rule_text, function_part, name_part, bytes_part, count_part, words_part};

use crate::fault::{Fault, FormFault};
use lb_check::CheckFault;
use lb_image::{ImageFault, ImageKind};
use lb_lines::{LineFault, LineKind};
use lb_syntax::Name;
use lb_text::{TextFault, TextKind};
use std::alloc::{AllocError, Global};

/// The line of a fault that tells no place.
pub fn fixed_line(fault: &Fault) -> Option<&'static [u8]>
    ensures found { IfSome result (λ line. line.now ≡ fault_line fault.now) }
    ensures none { IfNone result (TakesMemory fault.now) }
{
    match fault {
        Fault::Usage => Some(
            b"usage: bulb MODE [--events N] [--workers W] [--seed S] [--log] [--trace]\n",
        ),
        Fault::Text(_) | Fault::Check(_) | Fault::Limit(_) | Fault::Form(_) => None,
        Fault::Read => Some(b"read fault\n"),
        Fault::Write => Some(b""),
        Fault::TooLong => Some(b"input over 1048576 bytes\n"),
        Fault::Memory => Some(b"memory\n"),
    }
}

/// The line of a fault that tells a place.
pub fn told_line(alloc: Global, fault: &Fault) -> Result<Vec<u8>, AllocError>
    requires { TakesMemory fault.now }
    ensures { IfOk result (λ line. line.items ≡ fault_line fault.now) }
{
    match fault {
        Fault::Text(fault) => text_line(alloc, *fault),
        Fault::Check(fault) => rule_line(alloc, b"check ", fault),
        Fault::Limit(fault) => rule_line(alloc, b"limit ", fault),
        Fault::Form(fault) => form_line(alloc, *fault),
        _ => unreachable!(),
    }
}

// The line `text at A KIND`.
fn text_line(alloc: Global, fault: TextFault) -> Result<Vec<u8>, AllocError>
    ensures { IfOk result (λ line. line.items
        ≡ codes "text at " ++ (decimal fault.at ++ (codes " " ++ (kind_text fault.kind ++ codes "\n")))) }
{
    let place = fault.at;
    let first = format!(in alloc; "text at {place} ")?;
    let mut line = Vec::from_slice(alloc, first.as_bytes())?;
    line.extend_from_slice(kind_word(fault.kind))?;
    line.extend_from_slice(b"\n")?;
    Ok(line)
}

// The line of an input that isn't in form.
fn form_line(alloc: Global, fault: FormFault) -> Result<Vec<u8>, AllocError>
    ensures { IfOk result (λ line. line.items ≡ form_text fault ++ codes "\n") }
{
    let mut line = Vec::new(alloc);
    append_form(alloc, &mut line, fault)?;
    line.extend_from_slice(b"\n")?;
    Ok(line)
}

// Where an input isn't in form, and how.
fn append_form(alloc: Global, line: &mut Vec<u8>, fault: FormFault) -> Result<(), AllocError>
    ensures { OnOk result (line.new.items ≡ line.old.items ++ form_text fault) }
{
    match fault {
        FormFault::Section { line: at } => append_number(
            alloc,
            line,
            b"section line ",
            u64::from(at),
        ),
        FormFault::Line(LineFault { line: at, kind }) => {
            append_number(alloc, line, b"line ", u64::from(at))?;
            append_word(line, line_word(kind))
        }
        FormFault::Event { at } => {
            append_number(alloc, line, b"event ", u64::from(at))?;
            append_word(line, b"guard false")?;
            Ok(())
        }
        FormFault::Image(ImageFault { at, kind }) => {
            append_number(alloc, line, b"image at ", u64::from(at))?;
            append_word(line, image_word(kind))
        }
    }
}

// A word behind a blank.
fn append_word(line: &mut Vec<u8>, word: &[u8]) -> Result<(), AllocError>
    ensures { OnOk result (line.new.items ≡ line.old.items ++ (codes " " ++ word.now)) }
{
    line.extend_from_slice(b" ")?;
    line.extend_from_slice(word)?;
    Ok(())
}

// How a line leaves its form.
fn line_word(kind: LineKind) -> &'static [u8]
    ensures { result.now ≡ line_text kind }
{
    match kind {
        LineKind::Malformed => b"malformed",
        LineKind::TooLong => b"too-long",
        LineKind::TooMany => b"too-many",
    }
}

// What is wrong with an image.
fn image_word(kind: ImageKind) -> &'static [u8]
    ensures { result.now ≡ image_text kind }
{
    match kind {
        ImageKind::BadMagic => b"bad-magic",
        ImageKind::BadVersion => b"bad-version",
        ImageKind::BadCode => b"bad-code",
        ImageKind::BadLayout => b"bad-layout",
        ImageKind::Truncated => b"truncated",
        ImageKind::Extra => b"extra",
    }
}

// The line of a broken rule, which begins so.
fn rule_line(alloc: Global, first: &[u8], fault: &CheckFault) -> Result<Vec<u8>, AllocError>
    ensures { IfOk result (λ line. line.items ≡ first.now ++ (rule_text fault.now ++ codes "\n")) }
{
    let mut line = Vec::from_slice(alloc, first)?;
    line.extend_from_slice(rule_word(fault))?;
    append_place(alloc, &mut line, fault)?;
    line.extend_from_slice(b"\n")?;
    Ok(line)
}

// How a text leaves the grammar.
fn kind_word(kind: TextKind) -> &'static [u8]
    ensures { result.now ≡ kind_text kind }
{
    match kind {
        TextKind::Ended => b"ended",
        TextKind::BadByte => b"bad-byte",
        TextKind::TooDeep => b"too-deep",
        TextKind::NumberTooWide => b"number-too-wide",
        TextKind::NameTooLong => b"name-too-long",
        TextKind::Unexpected => b"unexpected",
    }
}

// The rule that is broken.
fn rule_word(fault: &CheckFault) -> &'static [u8]
    ensures { result.now ≡ rule_word fault.now }
{
    match fault {
        CheckFault::TooManyFunctions { .. } => b"too-many-functions",
        CheckFault::DuplicateFunction { .. } => b"duplicate-function",
        CheckFault::DuplicateName { .. } => b"duplicate-name",
        CheckFault::NoInit => b"no-init",
        CheckFault::NoLoop => b"no-loop",
        CheckFault::EntryShape { .. } => b"entry-shape",
        CheckFault::TooManyParams { .. } => b"too-many-params",
        CheckFault::BadAllocSize { .. } => b"bad-alloc-size",
        CheckFault::UnknownFunction { .. } => b"unknown-function",
        CheckFault::WrongArity { .. } => b"wrong-arity",
        CheckFault::DuplicateTarget { .. } => b"duplicate-target",
        CheckFault::BadIo { .. } => b"bad-io",
        CheckFault::Recursion { .. } => b"recursion",
        CheckFault::FrameNeed { .. } => b"frame-need",
        CheckFault::CodeNeed { .. } => b"code-need",
        CheckFault::StackNeed { .. } => b"stack-need",
    }
}

// Where a rule is broken, and by how much.
fn append_place(alloc: Global, line: &mut Vec<u8>, fault: &CheckFault) -> Result<(), AllocError>
    ensures { OnOk result (line.new.items ≡ line.old.items ++ rule_place fault.now) }
{
    match fault {
        CheckFault::NoInit | CheckFault::NoLoop => Ok(()),
        CheckFault::DuplicateFunction { function }
        | CheckFault::EntryShape { function }
        | CheckFault::BadIo { function }
        | CheckFault::Recursion { function } => append_function(line, function),
        CheckFault::DuplicateName { function, name }
        | CheckFault::UnknownFunction { function, name }
        | CheckFault::WrongArity { function, name }
        | CheckFault::DuplicateTarget { function, name } => append_names(line, function, name),
        CheckFault::TooManyParams { function, count } => {
            append_function(line, function)?;
            append_number(alloc, line, b" count ", *count)
        }
        CheckFault::BadAllocSize { function, bytes } => {
            append_function(line, function)?;
            append_number(alloc, line, b" bytes ", u64::from(*bytes))
        }
        CheckFault::FrameNeed { function, bytes } => {
            append_function(line, function)?;
            append_number(alloc, line, b" bytes ", *bytes)
        }
        CheckFault::TooManyFunctions { count } => append_number(alloc, line, b" count ", *count),
        CheckFault::CodeNeed { words } => append_number(alloc, line, b" words ", *words),
        CheckFault::StackNeed { bytes } => append_number(alloc, line, b" bytes ", *bytes),
    }
}

fn append_function(line: &mut Vec<u8>, function: &Name) -> Result<(), AllocError>
    ensures { OnOk result (line.new.items ≡ line.old.items ++ function_part function.now) }
{
    line.extend_from_slice(b" function ")?;
    line.extend_from_slice(function.as_bytes())?;
    Ok(())
}

fn append_names(line: &mut Vec<u8>, function: &Name, name: &Name) -> Result<(), AllocError>
    ensures { OnOk result (line.new.items
        ≡ line.old.items ++ (function_part function.now ++ name_part name.now)) }
{
    append_function(line, function)?;
    line.extend_from_slice(b" name ")?;
    line.extend_from_slice(name.as_bytes())?;
    Ok(())
}

fn append_number(
    alloc: Global,
    line: &mut Vec<u8>,
    label: &[u8],
    number: u64,
) -> Result<(), AllocError>
    ensures { OnOk result (line.new.items ≡ line.old.items ++ (label.now ++ decimal number)) }
{
    let digits = format!(in alloc; "{number}")?;
    line.extend_from_slice(label)?;
    line.extend_from_slice(digits.as_bytes())?;
    Ok(())
}
