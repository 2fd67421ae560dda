// The lines of a network's script.
ghost use Rattle.std.specs.Prelude.{◌≡◌, ◌++◌, ℕ, List, true, false, IfOk, IfErr};
ghost use Rattle.std.proofs.Common.{lit≤};
ghost use Rattle.lb_lines.specs.Forms.{error_mark, SpellsFrame, frame_form};
ghost use Rattle.lb_lines.specs.InternalReading.{RefusesFrame};

use crate::digits::bytes;
use crate::fault::LineKind;
use crate::form::{LineForm, Refusal};
use crate::trace::after;
use lb_trace::Frame;
use std::alloc::Global;

/// The most bytes of a frame.
pub const MOST_BYTES: usize = 2_000;

/// The most frames of a script.
pub const MOST_FRAMES: usize = 64;

impl LineForm for Frame {
    ghost form = { frame_form };

    ghost none_is_few = { lit≤ tt };

    fn append(alloc: Global, line: &[u8], values: &mut Vec<Frame>) -> Result<(), Refusal> {
        let frame = frame(alloc, line)?;
        if frame.bytes().len() > MOST_BYTES {
            return Err(Refusal::Outside(LineKind::TooLong));
        }
        if values.len() >= MOST_FRAMES {
            return Err(Refusal::Outside(LineKind::TooMany));
        }
        values.push(frame)?;
        Ok(())
    }
}

// The frame of a line, of any length.
fn frame(alloc: Global, line: &[u8]) -> Result<Frame, Refusal>
    ensures read { IfOk result (SpellsFrame line.now) }
    ensures refused { IfErr result (RefusesFrame line.now) }
{
    let (error, digits) = marked(line);
    if digits.is_empty() {
        return Err(Refusal::Outside(LineKind::Malformed));
    }
    Ok(Frame::new(bytes(alloc, digits)?, error))
}

// Whether a line has the mark of a fault, and what follows the mark.
fn marked(line: &[u8]) -> (bool, &[u8])
    ensures whole { line.now ≡ error_mark result.0 ++ result.1.now }
    ensures bare { result.0 ≡ false → (rest : List ℕ) → line.now ≡ error_mark true ++ rest → ⊥ }
{
    match after(line, b"!") {
        Some(digits) => (true, digits),
        None => (false, line),
    }
}
