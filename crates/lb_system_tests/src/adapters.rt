// std's readers and writers as sources and sinks, and the calls on names and traces.
use lb_ports::{
    Failed, MemorySource, ReadAllFault, Sink, Source, StdSink, StdSource, WriteFault, read_all,
    write_all,
};
use lb_syntax::{Name, NameFault};
use lb_trace::{Event, Trace, append_trace, hex_digits, is_prefix, print_trace, replies};
use std::alloc::{AllocError, Global};
use std::io::{self, ErrorKind, Read, Write};
use std::test::Fail;

// A reader and a writer whose calls all fail.
#[derive(Drop)]
struct Broken;

impl Read for Broken {
    fn read(&mut self, _buf: &mut [u8]) -> io::Result<usize> {
        Err(io::Error::from(ErrorKind::InvalidData))
    }
}

impl Write for Broken {
    fn write(&mut self, _buf: &[u8]) -> io::Result<usize> {
        Err(io::Error::from(ErrorKind::InvalidData))
    }

    fn flush(&mut self) -> io::Result<()> {
        Ok(())
    }
}

// A writer that takes nothing.
#[derive(Drop)]
struct Full;

impl Write for Full {
    fn write(&mut self, _buf: &[u8]) -> io::Result<usize> {
        Ok(0)
    }

    fn flush(&mut self) -> io::Result<()> {
        Ok(())
    }
}

// How many bytes `read_all` gives of a source whose bytes are these, up to a limit; none of another text.
fn count_read<S: Source>(
    alloc: Global,
    source: &mut S,
    bytes: &[u8],
    limit: u32,
) -> Result<usize, ReadAllFault> {
    let all = read_all(alloc, source, limit)?;
    Ok(if all.as_slice() == bytes {
        all.len()
    } else {
        0
    })
}

#[test]
fn adapts_readers(rt: HostRuntime) {
    let mut source = StdSource::new(b"lamp".as_slice());
    let count = count_read(rt.alloc(), &mut source, b"lamp", 4);
    assert_eq!(rt; count, Ok(4));
    let mut broken = StdSource::new(Broken);
    let mut buf = [0u8; 4];
    assert_eq!(rt; broken.read(&mut buf), Err(Failed));
    let count = count_read(rt.alloc(), &mut broken, b"", 4);
    assert_eq!(rt; count, Err(ReadAllFault::Read));
}

// How many bytes of a text are read up to the limit, and how many are left then.
fn count_up_to(
    alloc: Global,
    limit: u32,
) -> Result<(Result<usize, ReadAllFault>, usize), AllocError> {
    let bytes = Vec::from_slice(alloc, b"lamps")?;
    let mut source = MemorySource::new(bytes, 2, Vec::new(alloc));
    let read = count_read(alloc, &mut source, b"lamps", limit);
    Ok((read, source.left().len()))
}

#[test]
fn reads_up_to_the_limit(rt: HostRuntime) -> Result<(), Fail> {
    for limit in [5u32, 6, 4_294_967_295] {
        assert_eq!(rt; count_up_to(rt.alloc(), limit)?, (Ok(5), 0), "at {limit}");
    }
    for limit in [4u32, 0] {
        let (read, _) = count_up_to(rt.alloc(), limit)?;
        assert_eq!(rt; read, Err(ReadAllFault::TooLong), "at {limit}");
    }
    Ok(())
}

#[test]
fn adapts_writers(rt: HostRuntime) -> Result<(), Fail> {
    let mut sink = StdSink::new(Vec::new(rt.alloc()));
    let answer = write_all(&mut sink, b"lamp");
    drop(sink);
    assert_eq!(rt; answer, Ok(()));
    let mut broken = StdSink::new(Broken);
    assert_eq!(rt; broken.write(b"x"), Err(Failed));
    assert_eq!(rt; write_all(&mut broken, b"x"), Err(WriteFault));
    let mut full = StdSink::new(Full);
    assert_eq!(rt; full.write(b"x"), Ok(0));
    assert_eq!(rt; write_all(&mut full, b"x"), Err(WriteFault));
    assert_eq!(rt; write_all(&mut full, b""), Ok(()));
    Ok(())
}

// Whether a name of the text has its bytes, and a copy is the same; or why there is none.
fn make(alloc: Global, text: &str) -> Result<Result<bool, NameFault>, AllocError> {
    match Name::new(alloc, text.as_bytes()) {
        Ok(name) => Ok(Ok(name.as_bytes() == text.as_bytes() && name.copy(alloc)? == name)),
        Err(fault) => Ok(Err(fault)),
    }
}

#[test]
fn makes_names(rt: HostRuntime) -> Result<(), Fail> {
    for text in ["x", "_0", "init", "load3"] {
        assert_eq!(rt; make(rt.alloc(), text)?, Ok(true), "{text}");
    }
    for text in ["", "0x", "while", "MMIOWRITE", "a-b"] {
        assert_eq!(rt; make(rt.alloc(), text)?, Err(NameFault::NotAName), "{text}");
    }
    Ok(())
}

const LD: Event = Event::Ld {
    addr: 0x1002_4048,
    value: 0x0000_00AB,
};

const ST: Event = Event::St {
    addr: 0x1001_200C,
    value: 0xFFFF_FFF0,
};

const EVENTS: [Event; 3] = [LD, ST, LD];

// A text with the lines of the events behind it.
fn text_before(alloc: Global, text: &str, events: &[Event]) -> Result<String, AllocError> {
    let mut lines = Vec::from_slice(alloc, text.as_bytes())?;
    append_trace(&mut lines, events)?;
    String::from_utf8_lossy(alloc, &lines)
}

// The lines of the events.
fn printed(alloc: Global, events: &[Event]) -> Result<String, AllocError> {
    String::from_utf8_lossy(alloc, &print_trace(alloc, events)?)
}

#[test]
fn prints_traces(rt: HostRuntime) -> Result<(), Fail> {
    let text = printed(rt.alloc(), &EVENTS)?;
    let lines = "ld 10024048 000000ab\nst 1001200c fffffff0\nld 10024048 000000ab\n";
    assert_eq!(rt; text.as_str(), lines);
    let text = text_before(rt.alloc(), "trace\n", &[LD])?;
    assert_eq!(rt; text.as_str(), "trace\nld 10024048 000000ab\n");
    assert_eq!(rt; hex_digits(0x0123_CDEF).as_slice(), b"0123cdef".as_slice());
    Ok(())
}

#[test]
fn tells_replies(rt: HostRuntime) -> Result<(), Fail> {
    let nought = Event::Ld {
        addr: 0x1002_4048,
        value: 0,
    };
    for (events, want) in [
        (EVENTS.as_slice(), [0xABu32, 0xAB].as_slice()),
        (&[nought], &[0]),
    ] {
        let got = replies(rt.alloc(), events)?;
        assert_eq!(rt; got.as_slice(), want);
    }
    Ok(())
}

// How many events a trace of these has.
fn length_of_trace(alloc: Global, events: &[Event]) -> Result<usize, AllocError> {
    let trace = Trace::from_vec(Vec::from_slice(alloc, events)?);
    Ok(trace.as_slice().len())
}

#[test]
fn compares_traces(rt: HostRuntime) -> Result<(), Fail> {
    assert!(rt; is_prefix(&[LD, ST], &EVENTS));
    assert!(rt; is_prefix(&[], &EVENTS));
    assert!(rt; !is_prefix(&[ST], &EVENTS));
    assert!(rt; !is_prefix(&EVENTS, &[LD, ST]));
    assert_eq!(rt; length_of_trace(rt.alloc(), &EVENTS)?, 3);
    Ok(())
}
