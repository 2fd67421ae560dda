// The frames that are to arrive.
ghost use Rattle.std.specs.Prelude.{IfOk, OnOk};
ghost use Rattle.lb_board.specs.Script.{IsScript};

use hex::FromHexError;
use lb_trace::Frame;
use std::alloc::{AllocError, AllocFailed, Global};

/// Why a text tells no frames.
#[derive(Clone, Copy, Debug, PartialEq, Eq)]
pub enum ScriptFault {
    /// It isn't in form.
    Text,
    /// No memory is left.
    Memory,
}

impl From<AllocError> for ScriptFault {
    fn from(_: AllocError) -> Self {
        ScriptFault::Memory
    }
}

impl From<AllocFailed<Frame>> for ScriptFault {
    fn from(_: AllocFailed<Frame>) -> Self {
        ScriptFault::Memory
    }
}

impl From<FromHexError> for ScriptFault {
    fn from(fault: FromHexError) -> Self {
        match fault {
            FromHexError::OutOfMemory => ScriptFault::Memory,
            _ => ScriptFault::Text,
        }
    }
}

/// The frames of a text: the bytes of each in hexadecimal, with spaces between the frames. One of five bytes is faulty.
pub fn script(alloc: Global, text: &str) -> Result<Vec<Frame>, ScriptFault>
    ensures { IfOk result (λ frames. IsScript frames.items) }
{
    let mut frames = Vec::new(alloc);
    for word in text.split_whitespace() {
        add_frame(&mut frames, hex::decode(alloc, word)?)?;
    }
    Ok(frames)
}

// Adds a frame, where the frames still are a script then.
fn add_frame(frames: &mut Vec<Frame>, bytes: Vec<u8>) -> Result<(), ScriptFault>
    requires { IsScript frames.old.items }
    ensures { OnOk result (IsScript frames.new.items) }
{
    let length = bytes.len();
    if frames.len() >= 64 || length == 0 || length > 2000 {
        return Err(ScriptFault::Text);
    }
    frames.push(Frame::new(bytes, length == 5))?;
    Ok(())
}
