// The lines of a log.
ghost use Rattle.std.specs.Prelude.{◌≡◌, ◌+◌, ◌++◌, ℕ, All, IfOk, IfSome, IfNone, OnOk};
ghost use Rattle.std.specs.List.{flat_map};
ghost use Rattle.lb_trace.specs.declared.Entry.{Entry};
ghost use Rattle.lb_trace.specs.declared.Kind.{Kind};
ghost use Rattle.lb_lines.specs.Log.{kind_letter, entry_text, HasDigit, log_line, IsLogText};
ghost use Rattle.lb_lines.specs.Forms.{log_form};
ghost use Rattle.lb_lines.specs.InternalReading.{IsEntry, kind_among};

use crate::fault::LineKind;
use crate::form::{LineForm, Refusal};
use lb_trace::{Entry, Kind};
use std::alloc::{AllocError, Global};

/// The most entries of a printed line.
const LINE_ENTRIES: usize = 32;

/// All kinds, each of which has a letter.
const KINDS: [Kind; 9] = [
    Kind::Fetch,
    Kind::Decode,
    Kind::Execute,
    Kind::Ram,
    Kind::Mmio,
    Kind::Writeback,
    Kind::Boot,
    Kind::Shift,
    Kind::Arrive,
];

impl LineForm for Entry {
    ghost form = { log_form };

    ghost none_is_few = { tt };

    fn append(_alloc: Global, line: &[u8], values: &mut Vec<Entry>) -> Result<(), Refusal> {
        if line.is_empty() {
            return Err(Refusal::Outside(LineKind::Malformed));
        }
        let mut rest = line;
        while let Some((pair, behind)) = rest.split_first_chunk::<2>() {
            let Some(entry) = entry(pair[0], pair[1]) else {
                return Err(Refusal::Outside(LineKind::Malformed));
            };
            values.push(entry)?;
            rest = behind;
        }
        if rest.is_empty() {
            Ok(())
        } else {
            Err(Refusal::Outside(LineKind::Malformed))
        }
    }
}

// The entry that two characters are.
fn entry(letter: u8, digit: u8) -> Option<Entry>
    ensures found { IfSome result (IsEntry letter digit) }
    ensures none { IfNone result ((e : Entry) → IsEntry letter digit e → ⊥) }
{
    let kind = kind(letter)?;
    match digit {
        b'0'..=b'7' => Some(Entry {
            worker: digit - b'0',
            kind,
        }),
        _ => None,
    }
}

// The kind that has this letter.
fn kind(letter: u8) -> Option<Kind>
    ensures found { IfSome result (λ kind. letter ≡ kind_letter kind) }
    ensures none { IfNone result ((kind : Kind) → letter ≡ kind_letter kind → ⊥) }
{
    kind_among(&KINDS, letter)
}

// The first of these kinds that has this letter.
fn kind_among(kinds: &[Kind], wanted: u8) -> Option<Kind>
    ensures { result ≡ kind_among wanted kinds.now }
{
    kinds.iter().copied().find(|kind| letter(*kind) == wanted)
}

// The letter of a kind.
fn letter(kind: Kind) -> u8
    ensures { result ≡ kind_letter kind }
{
    match kind {
        Kind::Fetch => b'F',
        Kind::Decode => b'D',
        Kind::Execute => b'X',
        Kind::Ram => b'R',
        Kind::Mmio => b'M',
        Kind::Writeback => b'W',
        Kind::Boot => b'B',
        Kind::Shift => b'S',
        Kind::Arrive => b'A',
    }
}

/// The text of a log, 32 entries to a line: each is its kind's letter and its worker's digit. Fails only for
/// want of memory.
pub fn print_log(alloc: Global, log: &[Entry]) -> Result<Vec<u8>, AllocError>
    requires { All HasDigit log.now }
    ensures { IfOk result (λ text. IsLogText log.now text.items) }
{
    let mut text = Vec::new(alloc);
    let mut rest = log;
    while rest.len() >= LINE_ENTRIES {
        let (line, behind) = rest.split_at(LINE_ENTRIES);
        push_line(&mut text, line)?;
        rest = behind;
    }
    if rest.is_empty() {
        return Ok(text);
    }
    push_line(&mut text, rest)?;
    Ok(text)
}

// Adds a line of entries.
fn push_line(text: &mut Vec<u8>, entries: &[Entry]) -> Result<(), AllocError>
    requires { All HasDigit entries.now }
    ensures { OnOk result (text.new.items ≡ text.old.items ++ log_line entries.now) }
{
    for entry in entries {
        text.push(letter(entry.kind))?;
        text.push(b'0' + entry.worker)?;
    }
    text.push(b'\n')?;
    Ok(())
}
