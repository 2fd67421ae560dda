// Bytes that stand nowhere else than in comments.
use crate::answer::{NoAnswer, expect};
use std::alloc::{AllocError, Global};

// The text with one byte more.
fn with_byte(alloc: Global, front: &[u8], b: u8) -> Result<Vec<u8>, AllocError> {
    let mut text = Vec::from_slice(alloc, front)?;
    text.push(b)?;
    Ok(text)
}

// The answer where the byte stands behind `fn f(){x=(a =`, of which `==` alone can come.
fn behind_equals(b: u8) -> &'static [u8] {
    match b {
        b'=' => b"text at 14 ended",
        b'\t' | b'\n' | b'\r' | b' '..=b'~' => b"text at 13 unexpected",
        _ => b"text at 13 bad-byte",
    }
}

#[test]
fn goes_on_with_the_one_byte_that_fits(rt: HostRuntime) -> Result<(), NoAnswer> {
    for b in 0..=255u8 {
        let text = with_byte(rt.alloc(), b"fn f(){x=(a =", b)?;
        expect(&rt, rt.alloc(), text.as_slice(), behind_equals(b))?;
    }
    Ok(())
}

// Behind `//` any byte may stand.
#[test]
fn passes_every_byte_of_a_comment(rt: HostRuntime) -> Result<(), NoAnswer> {
    for b in 0..=255u8 {
        let text = with_byte(rt.alloc(), b"fn f(){}//", b)?;
        expect(&rt, rt.alloc(), text.as_slice(), b"fn f() {\n}\n")?;
    }
    Ok(())
}
