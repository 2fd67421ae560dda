// The sections of an input.
ghost use Rattle.std.specs.Prelude.{◌≡◌, ◌≤◌, ◌<◌, ◌+◌, ◌^◌, ◌++◌, ◌∷◌, List, ℕ, length, take, drop, map, IfOk, IfErr};
ghost use Rattle.std.specs.Io.BufRead.{strip_last};
ghost use Rattle.lb_sections.specs.Sections.{Explains, is_mark, lines, part_at, sections, seen};

use std::alloc::{AllocError, Global};

/// A section of an input.
#[derive(Clone, Copy, Debug, PartialEq, Eq)]
pub struct Section<'a> {
    /// The number of its first line in the whole input, from 1.
    pub line: u32,
    /// Its lines with their ends.
    pub text: &'a [u8],
}

/// Why an input isn't cut.
#[derive(Clone, Copy, Debug, PartialEq, Eq)]
pub enum SectionsError {
    /// There are more sections than the most. The first mark too many is the line of this number, from 1.
    TooMany { line: u32 },
    /// Want of memory.
    Memory,
}

impl From<AllocError> for SectionsError {
    ghost use Rattle.std.specs.Prelude.{◌≡◌};
    ghost use Rattle.lb_sections.specs.declared.cut.SectionsError.TheVariants.{Memory};

    ghost from_gives = { λ _ e. e ≡ Memory };

    fn from(_: AllocError) -> Self {
        SectionsError::Memory
    }
}

/// The sections of the input, of which there are at most `most`.
///
/// # Errors
/// `TooMany` exactly where there are more; `Memory`.
pub fn sections_of<'a>(
    alloc: Global,
    input: &'a [u8],
    most: u32,
) -> Result<Vec<Section<'a>>, SectionsError>
    requires short { length input.now + 1 < 2 ^ 32 }
    requires some { 1 ≤ most }
    ensures sections { IfOk result (λ list. map seen list.items ≡ sections input.now) }
    ensures few { IfOk result (λ list. length list.items ≤ most) }
    ensures refused { IfErr result (Explains most input.now) }
{
    let mut list = Vec::new(alloc);
    let mut begun = Section {
        line: 1,
        text: input,
    };
    let mut rest = input;
    let mut line = 1;
    while !rest.is_empty() {
        let (first, behind) = rest.split_at(line_length(rest));
        if is_mark(first) {
            if list.len() + 1 >= most as usize {
                return Err(SectionsError::TooMany { line });
            }
            list.push(without(begun, rest)).map_err(AllocError::from)?;
            begun = Section {
                line: line + 1,
                text: behind,
            };
        }
        rest = behind;
        line += 1;
    }
    list.push(begun).map_err(AllocError::from)?;
    Ok(list)
}

/// The section at this place of a list, from 0; one that is missing is empty.
pub fn section_at<'a>(list: &[Section<'a>], place: usize) -> Section<'a>
    ensures { seen result ≡ part_at place (map seen list.now) }
{
    match list.get(place) {
        Some(section) => *section,
        None => Section { line: 1, text: &[] },
    }
}

// The section without what follows it in its text.
fn without<'a>(section: Section<'a>, rest: &[u8]) -> Section<'a>
    requires { length rest.now ≤ length section.text.now }
    ensures { (front : List ℕ) → section.entry.text.now ≡ front ++ rest.now
        → seen result ≡ record { line = section.entry.line; text = front } }
{
    Section {
        line: section.line,
        text: &section.text[..section.text.len() - rest.len()],
    }
}

// How many bytes the first line has, with its end.
fn line_length(rest: &[u8]) -> usize
    requires { 1 ≤ length rest.now }
    ensures some { 1 ≤ result }
    ensures within { result ≤ length rest.now }
    ensures line { lines rest.now ≡ take result rest.now ∷ lines (drop result rest.now) }
{
    for place in 0..rest.len() {
        if rest[place] == b'\n' {
            return place + 1;
        }
    }
    rest.len()
}

// Whether the line is a mark.
fn is_mark(line: &[u8]) -> bool
    ensures { result ≡ is_mark line.now }
{
    without_return(without_line_feed(line)) == b"%%".as_slice()
}

// The line without the line feed at its end, if it has one.
fn without_line_feed(line: &[u8]) -> &[u8]
    ensures { result.now ≡ strip_last 10 line.now }
{
    line.strip_suffix(b"\n").unwrap_or(line)
}

// The line without the carriage return at its end, if it has one.
fn without_return(line: &[u8]) -> &[u8]
    ensures { result.now ≡ strip_last 13 line.now }
{
    line.strip_suffix(b"\r").unwrap_or(line)
}
