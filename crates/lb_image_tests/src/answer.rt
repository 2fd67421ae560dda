// What is told of bytes: the image that they are, or their fault.
use lb_image::{ImageError, from_bytes};
use std::alloc::{AllocError, Global};
use std::process::Abort;
use std::test::Fail;

/// Asserts that this is told of the bytes.
pub fn expect(rt: &impl Abort, alloc: Global, bytes: &[u8], want: &str) -> Result<(), AllocError> {
    let told = answer(alloc, bytes)?;
    assert_eq!(rt; told.as_str(), want, "of {bytes:?}");
    Ok(())
}

// The image, or the place and the kind of the fault.
fn answer(alloc: Global, bytes: &[u8]) -> Result<String, AllocError> {
    match from_bytes(alloc, bytes) {
        Ok(image) => format!(in alloc; "{image:?}"),
        Err(ImageError::Fault(fault)) => {
            let at = fault.at;
            let kind = fault.kind;
            format!(in alloc; "{at} {kind:?}")
        }
        Err(ImageError::Memory) => Err(AllocError),
    }
}

/// The bytes `LBIM`, and behind them those of the words, in decimal with a blank between each two.
pub fn bytes_of_row(alloc: Global, row: &str) -> Result<Vec<u8>, Fail> {
    let mut bytes = Vec::from_slice(alloc, b"LBIM")?;
    for text in row.split(' ') {
        let word: u32 = text.parse()?;
        bytes.extend_from_slice(&word.to_le_bytes())?;
    }
    Ok(bytes)
}
