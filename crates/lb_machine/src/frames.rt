// Frames side by side.
ghost use Rattle.std.specs.Prelude.{◌≡◌, ◌↔◌, IfOk, IsTrue};

use lb_trace::Frame;
use std::alloc::{AllocError, Global};

// Whether the frames are the same.
pub(crate) fn same_frames(a: &[Frame], b: &[Frame]) -> bool
    ensures { IsTrue result ↔ (a.now ≡ b.now) }
{
    if a.len() != b.len() {
        return false;
    }
    for (n, frame) in a.iter().enumerate() {
        if !same_frame(frame, &b[n]) {
            return false;
        }
    }
    true
}

fn same_frame(a: &Frame, b: &Frame) -> bool
    ensures { IsTrue result ↔ (a.now ≡ b.now) }
{
    a.error() == b.error() && a.bytes() == b.bytes()
}

// The same frames. Fails only for want of memory.
pub(crate) fn copied(alloc: Global, frames: &[Frame]) -> Result<Vec<Frame>, AllocError>
    ensures { IfOk result (λ copies. copies.items ≡ frames.now) }
{
    let mut copies = Vec::with_capacity(alloc, frames.len())?;
    for frame in frames {
        let bytes = Vec::from_slice(alloc, frame.bytes())?;
        copies.push(Frame::new(bytes, frame.error()))?;
    }
    Ok(copies)
}
