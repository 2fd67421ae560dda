// Lines of a text, and numbers in hexadecimal.
use lb_trace::hex_digits;
use std::alloc::{AllocError, Global};

/// The first line of a text, and the rest.
pub fn first_line(text: &str) -> (&str, &str) {
    text.split_once('\n').unwrap_or((text, ""))
}

/// Lines with commas between them.
pub fn in_one_line(mut text: Vec<u8>) -> Vec<u8> {
    for b in &mut text {
        if *b == b'\n' {
            *b = b',';
        }
    }
    text
}

/// The numbers of a line, in hexadecimal digits in lower case. Fails only for want of memory.
pub fn numbers(alloc: Global, line: &str) -> Result<Vec<u32>, AllocError> {
    let mut found = Vec::new(alloc);
    for text in line.split_whitespace() {
        found.push(number(text))?;
    }
    Ok(found)
}

// The number of hexadecimal digits in lower case.
fn number(text: &str) -> u32 {
    let mut n = 0u32;
    for b in text.bytes() {
        let digit = if b.is_ascii_digit() {
            b.wrapping_sub(b'0')
        } else {
            b.wrapping_sub(b'a').wrapping_add(10)
        };
        n = n.wrapping_mul(16).wrapping_add(u32::from(digit));
    }
    n
}

/// Adds a word and the eight digits of a number. Fails only for want of memory.
pub fn add_number(told: &mut Vec<u8>, text: &[u8], n: u32) -> Result<(), AllocError> {
    told.extend_from_slice(text)?;
    told.extend_from_slice(&hex_digits(n))?;
    Ok(())
}
