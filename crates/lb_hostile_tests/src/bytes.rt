// Images and texts that are cut at each byte, and with each bit flipped.
use crate::answer::{Form, answer};
use crate::rows::{
    FRAMES, FRAMES_ANSWERS, IMAGE, IMAGE_ANSWERS, LOG, LOG_ANSWERS, REPLIES, REPLIES_ANSWERS,
    TRACE, TRACE_ANSWERS,
};
use std::alloc::{AllocError, Global};
use std::process::Abort;
use std::test::Fail;

// The answers to the beginnings of the bytes, in a line; and then for each byte a line with the answers to the bytes with
// one of its bits flipped, from the lowest on.
fn answers(alloc: Global, form: Form, bytes: &[u8]) -> Result<String, AllocError> {
    let mut told = answers_to_cuts(alloc, form, bytes)?;
    for place in 0..bytes.len() {
        told.push('\n')?;
        add_flips(alloc, &mut told, form, bytes, place)?;
    }
    Ok(told)
}

// The answers to the beginnings, from none of the bytes to all.
fn answers_to_cuts(alloc: Global, form: Form, bytes: &[u8]) -> Result<String, AllocError> {
    let mut told = String::new(alloc);
    for length in 0..bytes.len() + 1 {
        add(&mut told, &answer(alloc, form, &bytes[..length])?)?;
    }
    Ok(told)
}

// Adds the answers to the bytes with one bit of this byte flipped.
fn add_flips(
    alloc: Global,
    told: &mut String,
    form: Form,
    bytes: &[u8],
    place: usize,
) -> Result<(), AllocError> {
    for mask in [1u8, 2, 4, 8, 16, 32, 64, 128] {
        let changed = flipped(alloc, bytes, place, mask)?;
        add(told, &answer(alloc, form, &changed)?)?;
    }
    Ok(())
}

// Adds a word, with a blank behind the word before it.
fn add(told: &mut String, word: &str) -> Result<(), AllocError> {
    if !told.is_empty() && !told.ends_with('\n') {
        told.push(' ')?;
    }
    told.push_str(word)
}

// The bytes with these bits of one byte flipped.
fn flipped(alloc: Global, bytes: &[u8], place: usize, mask: u8) -> Result<Vec<u8>, AllocError> {
    let mut changed = Vec::from_slice(alloc, bytes)?;
    if let Some(byte) = changed.get_mut(place) {
        *byte ^= mask;
    }
    Ok(changed)
}

// Asserts what is answered, line by line.
fn expect(
    rt: &impl Abort,
    alloc: Global,
    form: Form,
    bytes: &[u8],
    want: &str,
) -> Result<(), AllocError> {
    let told = answers(alloc, form, bytes)?;
    for (number, (line, want)) in told.lines().zip(want.lines()).enumerate() {
        assert_eq!(rt; line, want, "line {number} of {form:?}");
    }
    assert_eq!(rt; told.len(), want.len(), "of {form:?}");
    Ok(())
}

#[test]
fn names_what_is_wrong_with_an_image(rt: HostRuntime) -> Result<(), Fail> {
    expect(&rt, rt.alloc(), Form::Image, IMAGE, IMAGE_ANSWERS)?;
    Ok(())
}

#[test]
fn names_the_line_that_is_wrong(rt: HostRuntime) -> Result<(), Fail> {
    for (form, text, want) in [
        (Form::Trace, TRACE, TRACE_ANSWERS),
        (Form::Replies, REPLIES, REPLIES_ANSWERS),
        (Form::Frames, FRAMES, FRAMES_ANSWERS),
        (Form::Log, LOG, LOG_ANSWERS),
    ] {
        expect(&rt, rt.alloc(), form, text.as_bytes(), want)?;
    }
    Ok(())
}
