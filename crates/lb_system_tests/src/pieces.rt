// Reading and writing in pieces, and failing in the middle.
use lb_testkit::call::{Call, call_plain, told_by_plain, whole};
use std::alloc::{AllocError, Global};
use std::test::Fail;

const READS: &[u8] =
    b"fn init() {\n  x = MMIOREAD(268582984);\n}\nfn loop() {\n  x = MMIOREAD(268582984);\n}\n%%\n00000000";

const REPORT: &[u8] = b"mmio 1\nend starved\ntrace\nld 10024048 00000000\n";

const WORDS: [&str; 4] = ["bulb", "interp", "--events=1000", "--trace"];

// A call of the program on the text.
const AMPLE: Call<'static> = Call {
    words: &WORDS,
    input: READS,
    piece: 65_536,
    read_fails: &[],
    room: 65_536,
    write_fails: &[],
};

// Sources and sinks that go by pieces, fail or are cut, and what is told.
const ROWS: [(Call<'static>, &str); 6] = [
    (
        Call { piece: 1, ..AMPLE },
        "0 image\nmmio 1\nend starved\ntrace\nld 10024048 00000000\n",
    ),
    (
        Call {
            read_fails: &[0],
            ..AMPLE
        },
        "6\nread fault\n",
    ),
    (
        Call {
            read_fails: &[1],
            ..AMPLE
        },
        "6\nread fault\n",
    ),
    (
        Call {
            piece: 1,
            read_fails: &[40],
            ..AMPLE
        },
        "6\nread fault\n",
    ),
    // The status of a refusal stays where its line is cut.
    (
        Call {
            words: &["bulb"],
            room: 4,
            ..AMPLE
        },
        "1\nusag",
    ),
    (
        Call {
            piece: 10,
            write_fails: &[2],
            ..AMPLE
        },
        "7 image\nmmio 1\nend starved\nt",
    ),
];

#[test]
fn goes_by_pieces_and_tells_what_fails(rt: HostRuntime) -> Result<(), Fail> {
    for (call, want) in &ROWS {
        let got = told_by_plain(rt.alloc(), call)?;
        assert_eq!(rt; got.as_str(), *want);
    }
    Ok(())
}

// Nothing where a sink with so much room holds as much of the report, the status tells that it is cut, and the image is
// shown; else what was told.
fn told_otherwise(alloc: Global, room: usize) -> Result<String, AllocError> {
    let a = call_plain(alloc, &Call { room, ..AMPLE })?;
    let is_cut = a.status == 7
        && a.written.len() == room
        && REPORT.starts_with(a.written.as_slice())
        && a.has_image;
    a.told_unless(alloc, is_cut)
}

#[test]
fn tells_a_report_that_is_cut(rt: HostRuntime) -> Result<(), Fail> {
    for room in [0, 1, 20, 45] {
        let got = told_otherwise(rt.alloc(), room)?;
        assert_eq!(rt; got.as_str(), "", "room {room}");
    }
    Ok(())
}
