// A source that gives its bytes one by one, and a sink that takes a few at a time; each stops at the byte that it is told.
// They tell nothing of their content.
ghost use Rattle.std.specs.Prelude.{◌≡◌, None};

use lb_ports::{Failed, Sink, Source};
use std::alloc::Global;

/// What comes at the stop of a port: a failure, or an answer of no bytes.
#[derive(Clone, Copy, Debug, PartialEq, Eq)]
pub enum AtStop {
    Fails,
    Nothing,
}

/// Where a port stops, and what comes there.
#[derive(Clone, Copy, Debug, PartialEq, Eq)]
pub struct Stop {
    /// How many bytes go before it.
    pub place: usize,
    pub what: AtStop,
}

/// A stop where no bytes come to.
pub const NEVER: Stop = Stop {
    place: usize::MAX,
    what: AtStop::Fails,
};

/// A source of single bytes. Behind its stop it would go on.
#[derive(Drop)]
pub struct SlowSource<'a> {
    rest: &'a [u8],
    given: usize,
    stop: Stop,
    /// How often it failed.
    pub faults: u64,
    /// How often it was asked from its stop on.
    pub late: u64,
}

impl<'a> SlowSource<'a> {
    /// A source of these bytes.
    pub fn new(bytes: &'a [u8], stop: Stop) -> SlowSource<'a> {
        SlowSource {
            rest: bytes,
            given: 0,
            stop,
            faults: 0,
            late: 0,
        }
    }

    // Whether it stops now: the first time that it is asked at its stop.
    fn stops(&mut self) -> bool
        ensures { self.new.faults ≡ self.old.faults }
    {
        if self.given < self.stop.place {
            return false;
        }
        self.late = self.late.saturating_add(1);
        self.late == 1
    }
}

impl<'a> Source for SlowSource<'a> {
    ghost left = { λ s. None };

    ghost faults = { λ s. s.faults };

    fn read(&mut self, buf: &mut [u8]) -> Result<usize, Failed> {
        if self.stops() {
            if self.stop.what == AtStop::Nothing {
                return Ok(0);
            }
            self.faults = self.faults.saturating_add(1);
            return Err(Failed);
        }
        let Some(room) = buf.first_mut() else {
            return Ok(0);
        };
        let Some((byte, behind)) = self.rest.split_first() else {
            return Ok(0);
        };
        *room = *byte;
        self.rest = behind;
        self.given = self.given.saturating_add(1);
        Ok(1)
    }
}

/// A sink that takes so many bytes at a time, and none from its stop on.
#[derive(Drop)]
pub struct SlowSink {
    held: Vec<u8>,
    piece: usize,
    stop: Stop,
    /// How often it failed, or took nothing.
    pub faults: u64,
}

impl SlowSink {
    /// A sink that holds nothing yet.
    pub fn new(alloc: Global, piece: usize, stop: Stop) -> SlowSink {
        SlowSink {
            held: Vec::new(alloc),
            piece,
            stop,
            faults: 0,
        }
    }

    /// What it holds.
    pub fn held(&self) -> &[u8] {
        &self.held
    }
}

impl Sink for SlowSink {
    ghost held = { λ s. None };

    ghost faults = { λ s. s.faults };

    fn write(&mut self, bytes: &[u8]) -> Result<usize, Failed> {
        let room = self.stop.place.saturating_sub(self.held.len());
        let count = self.piece.min(bytes.len()).min(room);
        let taken = self.held.extend_from_slice(&bytes[..count]);
        if bytes.is_empty() || (count > 0 && taken.is_ok()) {
            return Ok(count);
        }
        self.faults = self.faults.saturating_add(1);
        match self.stop.what {
            AtStop::Fails => Err(Failed),
            AtStop::Nothing => Ok(0),
        }
    }
}
