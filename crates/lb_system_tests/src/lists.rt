// What `list` tells of the bytes of an image, and of a source.
use lb_testkit::call::{told_by_plain, whole};
use std::alloc::{AllocError, Global};
use std::test::Fail;

const LIST: [&str; 2] = ["bulb", "list"];

// A jump to itself.
const JUMP: &[u8] =
    b"LBIM\x01\x00\x00\x00\x01\x00\x00\x00\x00\x00\x00\x00\x00\x00\x00\x00\x6f\x00\x00\x00";

// Two functions, the first with a site, and three words, of which the last is no instruction.
const FRAMES: &[u8] = b"LBIM\x01\x00\x00\x00\x03\x00\x00\x00\x04\x00\x00\x00\x02\x00\x00\x00\
\x10\x00\x00\x00\x02\x00\x00\x00\x04\x00\x00\x00\x0c\x00\x00\x00\x00\x00\x00\x00\x00\x00\x00\x00\
\x6f\x00\x00\x00\x93\x80\x10\x00\xff\xff\xff\xff";

// A word whose bytes are a line `%%`.
const MARK: &[u8] = b"LBIM\x01\x00\x00\x00\x01\x00\x00\x00\x00\x00\x00\x00\x00\x00\x00\x00\n%%\n";

// What `list` tells of an input.
fn told(alloc: Global, input: &[u8]) -> Result<String, AllocError> {
    told_by_plain(alloc, &whole(&LIST, input))
}

// An input, and what is told of it: the listing of an image, or why the input is none. One that doesn't begin as an image
// is a source.
const ROWS: [(&[u8], &str); 7] = [
    (JUMP, "0\nentry 00000000\n00000000 0000006f jal x0, 0\n"),
    (
        FRAMES,
        "0\nentry 00000004\nframe 16 4 12\nframe 0\n00000000 0000006f jal x0, 0\n00000004 00108093 addi x1, x1, 1\n00000008 ffffffff word\n",
    ),
    (MARK, "0\nentry 00000000\n00000000 0a25250a word\n"),
    (b"fn init() { }", "3\ncheck no-loop\n"),
    (b"LBI", "2\ntext at 0 unexpected\n"),
    (b"", "3\ncheck no-init\n"),
    (b"%%", "5\nsection line 1\n"),
];

#[test]
fn lists_images_and_refuses_sources(rt: HostRuntime) -> Result<(), Fail> {
    for (input, want) in ROWS {
        let got = told(rt.alloc(), input)?;
        assert_eq!(rt; got.as_str(), want);
    }
    Ok(())
}

// An image, how many of its bytes are kept, the byte that is put at a place then (behind the last one, or for another),
// and what is told of it.
const BROKEN: [(&[u8], usize, Option<(usize, u8)>, &str); 6] = [
    (JUMP, 23, None, "5\nimage at 23 truncated\n"),
    (JUMP, 4, None, "5\nimage at 4 truncated\n"),
    (JUMP, 24, Some((24, b'\n')), "5\nimage at 24 extra\n"),
    (JUMP, 24, Some((4, 9)), "5\nimage at 4 bad-version\n"),
    (JUMP, 24, Some((12, 4)), "5\nimage at 12 bad-code\n"),
    (FRAMES, 60, Some((20, 2)), "5\nimage at 20 bad-layout\n"),
];

// What `list` tells of an image that is cut, and has another byte at a place.
fn told_broken(
    alloc: Global,
    image: &[u8],
    length: usize,
    put: Option<(usize, u8)>,
) -> Result<String, AllocError> {
    let mut bytes = Vec::from_slice(alloc, &image[..length.min(image.len())])?;
    if let Some((place, byte)) = put {
        match bytes.get_mut(place) {
            Some(old) => *old = byte,
            None => bytes.push(byte)?,
        }
    }
    told(alloc, &bytes)
}

#[test]
fn tells_where_an_image_fails(rt: HostRuntime) -> Result<(), Fail> {
    for (image, length, put, want) in BROKEN {
        let got = told_broken(rt.alloc(), image, length, put)?;
        assert_eq!(rt; got.as_str(), want);
    }
    Ok(())
}
