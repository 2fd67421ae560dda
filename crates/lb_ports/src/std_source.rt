// std's readers as sources.
ghost use Rattle.std.specs.Prelude.{◌≡◌, ◌≤◌, OnErr, OnOk};
ghost use Rattle.std.specs.Io.{ReadsAtMost};
ghost use Rattle.std.specs.Io.KnownBytes.{ReadConsumes};
ghost use Rattle.lb_ports.specs.Faults.{Rose, next_count};
ghost use Rattle.lb_ports.specs.InternalAnswers.{IsReadAnswer};

use crate::ports::{Failed, Source};
use std::io::{self, Read};

/// A reader of std, with a count of its errors.
#[derive(Drop)]
pub struct StdSource<R> {
    inner: R,
    faults: u64,
}

impl<R: Read> StdSource<R> {
    /// A source that reads from `inner`, with no fault so far.
    pub fn new(inner: R) -> StdSource<R>
        ensures inner { result.inner ≡ inner }
        ensures unfailed { result.faults ≡ 0 }
    {
        StdSource { inner, faults: 0 }
    }
}

impl<R: Read> Source for StdSource<R> {
    ghost left = { λ s. R.remaining s.inner };

    ghost faults = { λ s. s.faults };

    fn read(&mut self, buf: &mut [u8]) -> Result<usize, Failed>
        ensures bound { ReadsAtMost result buf.new }
        ensures bytes { ReadConsumes (R.remaining self.old.inner) (R.remaining self.new.inner)
            result buf.new }
        ensures later { self.old.faults ≤ self.new.faults }
        ensures cause { OnErr result (Rose self.old.faults self.new.faults) }
        ensures steady { OnOk result (self.new.faults ≡ self.old.faults) }
        ensures counted { OnErr result (self.new.faults ≡ next_count self.old.faults) }
    {
        let given = self.inner.read(buf);
        let (answer, faults) = read_answer(given, self.faults);
        self.faults = faults;
        answer
    }
}

// What the source answers to what its reader gave, and its count of faults behind that.
fn read_answer(given: io::Result<usize>, faults: u64) -> (Result<usize, Failed>, u64)
    ensures { IsReadAnswer given faults result.0 result.1 }
{
    match given {
        Ok(count) => (Ok(count), faults),
        Err(_) => (Err(Failed), faults.saturating_add(1)),
    }
}
