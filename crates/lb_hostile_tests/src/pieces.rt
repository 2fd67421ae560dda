// All bytes of a source, and all bytes into a sink, with ports that stop at each byte.
use crate::ports::{AtStop, NEVER, SlowSink, SlowSource, Stop};
use lb_ports::{ReadAllFault, WriteFault, read_all, write_all};
use std::alloc::Global;
use std::process::Abort;

static BYTES: &[u8] = b"fn init() { }\r\nfn loop() { }\n%%\n\0\xff";

// What was seen of a source: how many bytes were read and whether they are the first ones, or why none were; how often it
// failed, and how often it was asked from its stop on.
#[derive(Clone, Copy, Debug, PartialEq, Eq)]
struct Reading {
    answer: Result<usize, ReadAllFault>,
    is_front: bool,
    faults: u64,
    late: u64,
}

// Reads a source that stops so.
fn read(alloc: Global, stop: Stop) -> Reading {
    let mut source = SlowSource::new(BYTES, stop);
    let (answer, is_front) = match read_all(alloc, &mut source, 1000) {
        Ok(bytes) => (Ok(bytes.len()), BYTES.starts_with(&bytes)),
        Err(fault) => (Err(fault), false),
    };
    Reading {
        answer,
        is_front,
        faults: source.faults,
        late: source.late,
    }
}

// What was seen of a sink: what was answered, how many bytes it holds and whether they are the first ones, and how often
// it failed.
#[derive(Clone, Copy, Debug, PartialEq, Eq)]
struct Writing {
    answer: Result<(), WriteFault>,
    length: usize,
    is_front: bool,
    faults: u64,
}

// Writes to a sink that takes so many bytes at a time and stops so.
fn write(alloc: Global, piece: usize, stop: Stop) -> Writing {
    let mut sink = SlowSink::new(alloc, piece, stop);
    let answer = write_all(&mut sink, BYTES);
    Writing {
        answer,
        length: sink.held().len(),
        is_front: BYTES.starts_with(sink.held()),
        faults: sink.faults,
    }
}

#[test]
fn reads_up_to_a_stop(rt: HostRuntime) {
    let all = Reading {
        answer: Ok(BYTES.len()),
        is_front: true,
        faults: 0,
        late: 0,
    };
    assert_eq!(rt; read(rt.alloc(), NEVER), all);
    for place in 0..BYTES.len() + 1 {
        let failed = Reading {
            answer: Err(ReadAllFault::Read),
            is_front: false,
            faults: 1,
            late: 1,
        };
        let what = AtStop::Fails;
        assert_eq!(rt;
            read(rt.alloc(), Stop { place, what }),
            failed,
            "at {place}"
        );
        let front = Reading {
            answer: Ok(place),
            late: 1,
            ..all
        };
        let what = AtStop::Nothing;
        assert_eq!(rt; read(rt.alloc(), Stop { place, what }), front, "at {place}");
    }
}

// Asserts that a sink which stops at a byte holds what goes before, and was asked once at its stop.
fn writes_front(rt: &impl Abort, alloc: Global, piece: usize, what: AtStop) {
    for place in 0..BYTES.len() {
        let front = Writing {
            answer: Err(WriteFault),
            length: place,
            is_front: true,
            faults: 1,
        };
        let got = write(alloc, piece, Stop { place, what });
        assert_eq!(rt; got, front, "at {place} by {piece}");
    }
}

#[test]
fn writes_up_to_a_stop(rt: HostRuntime) {
    for piece in [1usize, 2, 3, 7, 1000] {
        let all = Writing {
            answer: Ok(()),
            length: BYTES.len(),
            is_front: true,
            faults: 0,
        };
        assert_eq!(rt; write(rt.alloc(), piece, NEVER), all, "by {piece}");
        for what in [AtStop::Fails, AtStop::Nothing] {
            writes_front(&rt, rt.alloc(), piece, what);
        }
    }
}
