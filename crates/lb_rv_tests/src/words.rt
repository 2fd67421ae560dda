// What is told of words.
use crate::listing::{LISTING, WORDS};
use lb_rv::{decode, encode, print_line};
use std::alloc::{AllocError, Global};
use std::process::Abort;
use std::test::Fail;

// Adds the line of the word, and its instruction, whose word it is again.
fn tell(
    rt: &impl Abort,
    alloc: Global,
    told: &mut Vec<u8>,
    at: u32,
    word: u32,
) -> Result<(), AllocError> {
    let line = print_line(alloc, at, word)?;
    told.extend_from_slice(line.as_slice())?;
    if let Some(i) = decode(word) {
        assert_eq!(rt; encode(&i), word);
        let shown = format!(in alloc; "{i:?}\n")?;
        told.extend_from_slice(shown.as_bytes())?;
    }
    Ok(())
}

#[test]
fn tells_words(rt: HostRuntime) -> Result<(), Fail> {
    let mut told = Vec::new(rt.alloc());
    let mut at = 0u32;
    for word in &WORDS {
        tell(&rt, rt.alloc(), &mut told, at, *word)?;
        at = at.wrapping_add(4);
    }
    assert_eq!(rt; told.as_slice(), LISTING.as_bytes());
    let line = print_line(rt.alloc(), 0xFFFFFFFC, 0x04000033)?;
    assert_eq!(rt; line.as_slice(), b"fffffffc 04000033 word\n".as_slice());
    Ok(())
}
