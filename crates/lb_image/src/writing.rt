// From an image to its bytes.
ghost use Rattle.std.specs.Prelude.{◌≡◌, ◌^◌, ◌<◌, ◌++◌, length, All, IfOk, OnOk};
ghost use Rattle.lb_image.specs.Images.{bytes_of_words, image_bytes, IsInRange};
ghost use Rattle.lb_image.specs.InternalWriting.{frame_bytes, layout_bytes};

use crate::field::{MAGIC, VERSION};
use crate::image::Image;
use lb_syntax::FrameLayout;
use lb_word::bytes_of;
use std::alloc::{AllocError, Global};

/// The bytes of an image whose fields are in their ranges: 1 to 32,768 words of code, an entry that is a multiple of 4
/// below the code's end, at most 256 functions; each frame of a multiple of 4 bytes and at most 65,536, with at most a
/// quarter as many sites, each at a multiple of 4 below the frame's size. Fails only for want of memory.
pub fn to_bytes(alloc: Global, image: &Image) -> Result<Vec<u8>, AllocError>
    requires { IsInRange image.now }
    ensures { IfOk result (λ bytes. bytes.items ≡ image_bytes image.now) }
{
    let code = image.code.as_slice();
    let frames = image.layout.frames.as_slice();
    let words = code.len() as u32;
    let functions = frames.len() as u32;
    let mut bytes = Vec::new(alloc);
    push_words(&mut bytes, &[MAGIC, VERSION, words, image.entry, functions])?;
    push_frames(&mut bytes, frames)?;
    push_words(&mut bytes, code)?;
    Ok(bytes)
}

// Adds the bytes of the frames.
fn push_frames(bytes: &mut Vec<u8>, frames: &[FrameLayout]) -> Result<(), AllocError>
    requires { All (λ frame. length frame.sites < 2 ^ 32) frames.now }
    ensures { OnOk result (bytes.new.items ≡ bytes.old.items ++ layout_bytes frames.now) }
{
    for frame in frames {
        push_frame(bytes, frame)?;
    }
    Ok(())
}

// Adds the bytes of a frame.
fn push_frame(bytes: &mut Vec<u8>, frame: &FrameLayout) -> Result<(), AllocError>
    requires { length frame.now.sites < 2 ^ 32 }
    ensures { OnOk result (bytes.new.items ≡ bytes.old.items ++ frame_bytes frame.now) }
{
    let sites = frame.sites.as_slice();
    push_words(bytes, &[frame.size, sites.len() as u32])?;
    push_words(bytes, sites)
}

// Adds the bytes of the words.
fn push_words(bytes: &mut Vec<u8>, words: &[u32]) -> Result<(), AllocError>
    ensures { OnOk result (bytes.new.items ≡ bytes.old.items ++ bytes_of_words words.now) }
{
    for word in words {
        bytes.extend_from_slice(&bytes_of(*word))?;
    }
    Ok(())
}
