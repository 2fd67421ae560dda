// Images and bytes that are none, by their words behind the first one.
use crate::answer::{bytes_of_row, expect};
use lb_image::{Code, Image, from_bytes, to_bytes};
use lb_syntax::Layout;
use sqlite_items::Items;
use std::alloc::Global;
use std::process::Abort;
use std::test::Fail;

// A jump to itself; no function.
static JUMP: &str = "1 1 0 0 111";

// Two functions, whose frames have two sites and one; two words of code.
static FRAMES: &str = "1 2 4 2 8 2 0 4 12 1 8 111 19";

// The words, and what is told of them.
static ROWS: &str = "\
1 1 0 0 111: Image { code: Code { words: [111] }, layout: Layout { frames: Items { items: [] } }, entry: 0 }
1 2 4 2 8 2 0 4 12 1 8 111 19: Image { code: Code { words: [111, 19] }, layout: Layout { frames: Items { items: [FrameLayout { size: 8, sites: Items { items: [0, 4] } }, FrameLayout { size: 12, sites: Items { items: [8] } }] } }, entry: 4 }
9 1 0 0 111: 4 BadVersion
1 0 0 0 111: 8 BadCode
1 32769 0 0 111: 8 BadCode
1 1 2 0 111: 12 BadCode
1 1 4 0 111: 12 BadCode
1 1 0 257 111: 16 BadLayout
1 1 0 1 2 0 111: 20 BadLayout
1 1 0 1 65540 0 111: 20 BadLayout
1 1 0 1 8 3 111: 24 BadLayout
1 1 0 1 8 1 2 111: 28 BadLayout
1 1 0 1 8 1 8 111: 28 BadLayout
1 1 0 2 8 1 4 6 111: 32 BadLayout
1 1 0 1 65536 16384: 28 Truncated
1 32768 131068 256: 20 Truncated
1 1 0 0 111 0: 24 Extra";

#[test]
fn tells_images_and_faults(rt: HostRuntime) -> Result<(), Fail> {
    for line in ROWS.split('\n') {
        let (row, want) = line.split_once(": ").ok_or("a row has two parts")?;
        let bytes = bytes_of_row(rt.alloc(), row)?;
        expect(&rt, rt.alloc(), bytes.as_slice(), want)?;
    }
    expect(&rt, rt.alloc(), &[0; 24], "0 BadMagic")?;
    Ok(())
}

#[test]
fn reads_and_writes_whole_images(rt: HostRuntime) -> Result<(), Fail> {
    let jump = b"LBIM\x01\0\0\0\x01\0\0\0\0\0\0\0\0\0\0\0\x6f\0\0\0";
    let row = bytes_of_row(rt.alloc(), JUMP)?;
    assert_eq!(rt; row.as_slice(), jump.as_slice());
    whole_alone(&rt, rt.alloc(), row.as_slice())?;
    let frames = bytes_of_row(rt.alloc(), FRAMES)?;
    whole_alone(&rt, rt.alloc(), frames.as_slice())
}

#[test]
fn writes_an_image_made_by_hand(rt: HostRuntime) -> Result<(), Fail> {
    let image = Image {
        code: Code::from_vec(vec![in rt.alloc(); 111]?),
        layout: Layout {
            frames: Items::new(rt.alloc()),
        },
        entry: 0,
    };
    let written = to_bytes(rt.alloc(), &image)?;
    let row = bytes_of_row(rt.alloc(), JUMP)?;
    assert_eq!(rt; written.as_slice(), row.as_slice());
    Ok(())
}

// The bytes are an image's; cut short or with a byte more they aren't.
fn whole_alone(rt: &impl Abort, alloc: Global, bytes: &[u8]) -> Result<(), Fail> {
    let image = from_bytes(alloc, bytes)?;
    let written = to_bytes(alloc, &image)?;
    assert_eq!(rt; written.as_slice(), bytes);
    for n in 0..bytes.len() {
        let want = format!(in alloc; "{n} Truncated")?;
        expect(rt, alloc, &bytes[..n], want.as_str())?;
    }
    let n = bytes.len();
    let want = format!(in alloc; "{n} Extra")?;
    let mut longer = written;
    longer.push(0)?;
    expect(rt, alloc, longer.as_slice(), want.as_str())?;
    Ok(())
}
