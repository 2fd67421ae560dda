// From bytes to an image.
ghost use Rattle.std.specs.Prelude.{◌≡◌, ◌+◌, ◌*◌, ◌^◌, ◌<◌, ◌≤◌, true, length, IfOk, IfErr};
ghost use Rattle.lb_syntax.specs.declared.limits.TheConstants.{MOST_FUNCTIONS, MOST_WORDS};
ghost use Rattle.lb_image.specs.Images.{image_bytes, IsImage};
ghost use Rattle.lb_image.specs.Fields.{fault, is_in};
ghost use Rattle.lb_image.specs.Refusal.{IsOnlyImage, FaultOf};
ghost use Rattle.lb_image.specs.InternalReading.{Gives, field_at, fields_at, repeat_at, frame_at, header_at};
ghost use Rattle.lb_image.specs.InternalReading.{image_at, most_frame_bytes};

use crate::error::{ImageError, ImageFault, ImageKind};
use crate::field::{Field, MAGIC, VERSION};
use crate::image::{Code, Image};
use lb_memory::MOST_STACK;
use lb_syntax::{FrameLayout, Layout, MOST_FUNCTIONS, MOST_WORDS};
use lb_word::word_of;
use sqlite_items::Items;
use std::alloc::Global;

/// The image whose bytes these are, or the first field from the left that is wrong: it isn't wholly there, or is out of
/// its range; where no field is, it may be a byte behind the last. No other bytes give the same image.
pub fn from_bytes(alloc: Global, bytes: &[u8]) -> Result<Image, ImageError>
    // The bytes are the image's, and its fields are in their ranges.
    ensures found { IfOk result (λ image. IsImage image × (bytes.now ≡ image_bytes image)) }
    // The bytes of an image give that image, unless memory runs out.
    ensures only { IsOnlyImage bytes.now result }
    // Where they are refused, and why.
    ensures place { IfErr result (λ e. FaultOf e bytes.now) }
{
    read_image(alloc, bytes)
}

// The image, or the first fault.
#[tactic(auto, unfolding(crate::specs::InternalReading::image_at))]
fn read_image(alloc: Global, bytes: &[u8]) -> Result<Image, ImageError>
    ensures { Gives (λ image. image) result (image_at bytes.now) }
{
    let len = bytes.len();
    let (header, rest) = read_header(bytes)?;
    let (frames, rest) = read_frames(alloc, len, header.functions, rest)?;
    let any = Field::numbers(ImageKind::BadCode, 0, u32::MAX);
    let (words, rest) = read_fields(alloc, len, any, header.words, rest)?;
    if !rest.is_empty() {
        return Err(refuse(len - rest.len(), ImageKind::Extra));
    }
    Ok(Image {
        code: Code::from_vec(words),
        layout: Layout { frames },
        entry: header.entry,
    })
}

// The fields before the first function.
#[derive(Clone, Copy)]
struct Header {
    // How many words the code has.
    words: u32,
    entry: u32,
    // How many functions there are.
    functions: u32,
}

// The header, and what is left behind it.
#[tactic(auto, unfolding(crate::specs::InternalReading::header_at))]
fn read_header(bytes: &[u8]) -> Result<(Header, &[u8]), ImageError>
    ensures read { Gives (λ x. (x.0, x.1.now)) result (header_at (length bytes.now) bytes.now) }
    ensures left { IfOk result (λ x. length bytes.now ≡ length x.1.now + 20) }
    ensures functions { IfOk result (λ x. x.0.functions ≤ MOST_FUNCTIONS) }
    ensures words { IfOk result (λ x. x.0.words ≤ MOST_WORDS) }
{
    let len = bytes.len();
    let magic = Field::numbers(ImageKind::BadMagic, MAGIC, MAGIC);
    let (_, rest) = read_field(len, magic, bytes)?;
    let version = Field::numbers(ImageKind::BadVersion, VERSION, VERSION);
    let (_, rest) = read_field(len, version, rest)?;
    let count = Field::numbers(ImageKind::BadCode, 1, MOST_WORDS as u32);
    let (words, rest) = read_field(len, count, rest)?;
    let start = Field::multiples(ImageKind::BadCode, 4 * words);
    let (entry, rest) = read_field(len, start, rest)?;
    let count = Field::numbers(ImageKind::BadLayout, 0, MOST_FUNCTIONS as u32);
    let (functions, rest) = read_field(len, count, rest)?;
    let header = Header {
        words,
        entry,
        functions,
    };
    Ok((header, rest))
}

// This many frames, and what is left behind them. The input has `len` bytes.
fn read_frames(
    alloc: Global,
    len: usize,
    count: u32,
    bytes: &[u8],
) -> Result<(Items<FrameLayout>, &[u8]), ImageError>
    requires within { length bytes.now ≤ len }
    requires near { len + most_frame_bytes * count < length bytes.now + 2 ^ 32 }
    ensures read { Gives (λ x. (x.0, x.1.now)) result (repeat_at (frame_at len) count bytes.now) }
    ensures least { IfOk result (λ x. length x.1.now ≤ length bytes.now) }
    ensures most { IfOk result (λ x. length bytes.now ≤ length x.1.now + most_frame_bytes * count) }
{
    let mut frames = Items::new(alloc);
    let mut rest = bytes;
    for _ in 0..count {
        let (frame, after) = read_frame(alloc, len, rest)?;
        frames.push(frame)?;
        rest = after;
    }
    Ok((frames, rest))
}

// A frame, and what is left behind it. The input has `len` bytes.
#[tactic(auto, unfolding(crate::specs::InternalReading::frame_at))]
fn read_frame(alloc: Global, len: usize, bytes: &[u8]) -> Result<(FrameLayout, &[u8]), ImageError>
    requires within { length bytes.now ≤ len }
    requires near { len + most_frame_bytes < length bytes.now + 2 ^ 32 }
    ensures read { Gives (λ x. (x.0, x.1.now)) result (frame_at len bytes.now) }
    ensures least { IfOk result (λ x. length x.1.now ≤ length bytes.now) }
    ensures most { IfOk result (λ x. length bytes.now ≤ length x.1.now + most_frame_bytes) }
{
    let whole = Field::multiples(ImageKind::BadLayout, MOST_STACK as u32 + 1);
    let (size, rest) = read_field(len, whole, bytes)?;
    let few = Field::numbers(ImageKind::BadLayout, 0, size / 4);
    let (count, rest) = read_field(len, few, rest)?;
    let inside = Field::multiples(ImageKind::BadLayout, size);
    let (sites, rest) = read_fields(alloc, len, inside, count, rest)?;
    let frame = FrameLayout {
        size,
        sites: Items::from_vec(sites),
    };
    Ok((frame, rest))
}

// This many fields of one kind, and what is left behind them. The input has `len` bytes.
fn read_fields(
    alloc: Global,
    len: usize,
    field: Field,
    count: u32,
    bytes: &[u8],
) -> Result<(Vec<u32>, &[u8]), ImageError>
    requires within { length bytes.now ≤ len }
    requires near { len + 4 * count < length bytes.now + 2 ^ 32 }
    ensures read { Gives (λ x. (x.0.items, x.1.now)) result (fields_at len field count bytes.now) }
    ensures left { IfOk result (λ x. length bytes.now ≡ length x.1.now + 4 * count) }
{
    let mut words = Vec::new(alloc);
    let mut rest = bytes;
    for _ in 0..count {
        let (word, after) = read_field(len, field, rest)?;
        words.push(word)?;
        rest = after;
    }
    Ok((words, rest))
}

// A field, and what is left behind it. The input has `len` bytes.
fn read_field(len: usize, field: Field, bytes: &[u8]) -> Result<(u32, &[u8]), ImageError>
    requires within { length bytes.now ≤ len }
    requires near { len + 4 < length bytes.now + 2 ^ 32 }
    ensures read { Gives (λ x. (x.0, x.1.now)) result (field_at len field bytes.now) }
    ensures left { IfOk result (λ x. length bytes.now ≡ length x.1.now + 4) }
    ensures range { IfOk result (λ x. is_in field.range x.0 ≡ true) }
{
    if bytes.len() < 4 {
        return Err(refuse(len, ImageKind::Truncated));
    }
    let (front, rest) = bytes.split_at(4);
    let word = word_of([front[0], front[1], front[2], front[3]]);
    if !field.range.contains(word) {
        return Err(refuse(len - bytes.len(), field.kind));
    }
    Ok((word, rest))
}

// The fault at a place.
fn refuse(at: usize, kind: ImageKind) -> ImageError
    requires { at < 2 ^ 32 }
    ensures { result ≡ ImageError.Fault (fault at kind) }
{
    let at = at as u32;
    ImageError::Fault(ImageFault { at, kind })
}
