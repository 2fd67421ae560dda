// The reports of `check` and `list`.
ghost use Rattle.std.specs.Prelude.{◌≡◌, ◌≤◌, ◌<◌, ◌^◌, ◌++◌, ℕ, length, IfOk, OnOk};
ghost use Rattle.std.specs.List.{flat_map};
ghost use Rattle.lb_syntax.specs.Tree.{program_of};
ghost use Rattle.lb_system.specs.Answers.{IsCheckReport};
ghost use Rattle.lb_system.specs.Report.{list_report, frame_line, site_part, code_line, code_lines};

use lb_check::Checked;
use lb_image::Image;
use lb_rv::print_line;
use lb_syntax::FrameLayout;
use lb_trace::hex_digits;
use std::alloc::{AllocError, Global};

/// The line of a program that keeps the rules: how many functions it has, and what it asks for.
pub fn check_report(alloc: Global, checked: &Checked) -> Result<Vec<u8>, AllocError>
    ensures { IfOk result (λ text. IsCheckReport (program_of checked.now) text.items) }
{
    let functions = checked.program().functions.len();
    let needs = checked.needs();
    let words = needs.words;
    let stack = needs.stack;
    let line = format!(in alloc; "ok functions {functions} words {words} stack {stack}\n")?;
    Vec::from_slice(alloc, line.as_bytes())
}

/// The listing of an image: its entry, the size and the sites of each function's frame, and the
/// instruction of each word.
pub fn list_report(alloc: Global, image: &Image) -> Result<Vec<u8>, AllocError>
    requires { length image.now.code < 2 ^ 30 }
    ensures { IfOk result (λ text. text.items ≡ list_report image.now) }
{
    let mut text = Vec::from_slice(alloc, b"entry ")?;
    text.extend_from_slice(&hex_digits(image.entry))?;
    text.extend_from_slice(b"\n")?;
    append_frames(alloc, &mut text, image.layout.frames.as_slice())?;
    append_code(alloc, &mut text, image.code.as_slice())?;
    Ok(text)
}

// Adds the lines of the frames.
fn append_frames(
    alloc: Global,
    text: &mut Vec<u8>,
    frames: &[FrameLayout],
) -> Result<(), AllocError>
    ensures { OnOk result (text.new.items ≡ text.old.items ++ flat_map frame_line frames.now) }
{
    for frame in frames {
        append_frame(alloc, text, frame)?;
    }
    Ok(())
}

// Adds the line of a frame.
fn append_frame(alloc: Global, text: &mut Vec<u8>, frame: &FrameLayout) -> Result<(), AllocError>
    ensures { OnOk result (text.new.items ≡ text.old.items ++ frame_line frame.now) }
{
    let size = frame.size;
    let first = format!(in alloc; "frame {size}")?;
    text.extend_from_slice(first.as_bytes())?;
    append_sites(alloc, text, frame.sites.as_slice())?;
    text.extend_from_slice(b"\n")?;
    Ok(())
}

// Adds the offsets of a frame's sites.
fn append_sites(alloc: Global, text: &mut Vec<u8>, sites: &[u32]) -> Result<(), AllocError>
    ensures { OnOk result (text.new.items ≡ text.old.items ++ flat_map site_part sites.now) }
{
    for offset in sites {
        append_site(alloc, text, *offset)?;
    }
    Ok(())
}

// Adds the offset of a site behind a blank.
fn append_site(alloc: Global, text: &mut Vec<u8>, offset: u32) -> Result<(), AllocError>
    ensures { OnOk result (text.new.items ≡ text.old.items ++ site_part offset) }
{
    let digits = format!(in alloc; "{offset}")?;
    text.extend_from_slice(b" ")?;
    text.extend_from_slice(digits.as_bytes())?;
    Ok(())
}

// Adds a line for each word of code.
fn append_code(alloc: Global, text: &mut Vec<u8>, words: &[u32]) -> Result<(), AllocError>
    requires { length words.now < 2 ^ 30 }
    ensures { OnOk result (text.new.items ≡ text.old.items ++ code_lines words.now) }
{
    for place in 0..words.len() {
        append_line(alloc, text, place, words[place])?;
    }
    Ok(())
}

// Adds the line of a word, which has this number in the code.
fn append_line(alloc: Global, text: &mut Vec<u8>, place: usize, word: u32) -> Result<(), AllocError>
    requires { place < 2 ^ 30 }
    ensures { OnOk result (text.new.items ≡ text.old.items ++ code_line (place, word)) }
{
    let line = print_line(alloc, 4 * place as u32, word)?;
    text.extend_from_slice(&line)?;
    Ok(())
}
