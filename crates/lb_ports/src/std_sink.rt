// std's writers as sinks.
ghost use Rattle.std.specs.Prelude.{◌≡◌, ◌≤◌};
ghost use Rattle.std.specs.Io.{WritesAtMost};
ghost use Rattle.std.specs.Io.KnownBytes.{WriteAppends};
ghost use Rattle.lb_ports.specs.Faults.{Rose, TakesNothing, next_count};
ghost use Rattle.lb_ports.specs.InternalAnswers.{IsWriteAnswer};

use crate::ports::{Failed, Sink};
use std::io::{self, Write};

/// A writer of std, with a count of its errors, and of its writes that took nothing of a piece that isn't empty.
#[derive(Drop)]
pub struct StdSink<W> {
    inner: W,
    faults: u64,
}

impl<W: Write> StdSink<W> {
    /// A sink that writes to `inner`, with no fault so far.
    pub fn new(inner: W) -> StdSink<W>
        ensures inner { result.inner ≡ inner }
        ensures unfailed { result.faults ≡ 0 }
    {
        StdSink { inner, faults: 0 }
    }
}

impl<W: Write> Sink for StdSink<W> {
    ghost held = { λ s. W.contents s.inner };

    ghost faults = { λ s. s.faults };

    fn write(&mut self, bytes: &[u8]) -> Result<usize, Failed>
        ensures bound { WritesAtMost result bytes.now }
        ensures bytes { WriteAppends (W.contents self.old.inner) (W.contents self.new.inner)
            result bytes.now }
        ensures later { self.old.faults ≤ self.new.faults }
        ensures cause { TakesNothing result bytes.now → Rose self.old.faults self.new.faults }
        ensures counted { TakesNothing result bytes.now →
            self.new.faults ≡ next_count self.old.faults }
        ensures steady { ¬ TakesNothing result bytes.now → self.new.faults ≡ self.old.faults }
    {
        let taken = self.inner.write(bytes);
        let (answer, faults) = write_answer(taken, bytes, self.faults);
        self.faults = faults;
        answer
    }
}

// What the sink answers to what its writer took of the piece, and its count of faults behind that.
fn write_answer(taken: io::Result<usize>, piece: &[u8], faults: u64) -> (Result<usize, Failed>, u64)
    ensures { IsWriteAnswer taken piece.now faults result.0 result.1 }
{
    match taken {
        Ok(0) if !piece.is_empty() => (Ok(0), faults.saturating_add(1)),
        Ok(count) => (Ok(count), faults),
        Err(_) => (Err(Failed), faults.saturating_add(1)),
    }
}
