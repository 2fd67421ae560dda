// The traits of the outside.
ghost use Rattle.std.specs.Prelude.{◌≡◌, ℕ, ◌≤◌, List, OnErr, OnOk};
ghost use Rattle.std.specs.declared.option.Option.{Option};
ghost use Rattle.std.specs.Io.{ReadsAtMost, WritesAtMost};
ghost use Rattle.std.specs.Io.KnownBytes.{ReadConsumes, WriteAppends};
ghost use Rattle.lb_ports.specs.Faults.{Rose, TakesNothing};

/// A read or a write that failed.
#[derive(Clone, Copy, Debug, PartialEq, Eq)]
pub struct Failed;

/// Where bytes come from.
pub trait Source {
    /// The bytes that are left, where the source tells them.
    ghost left: { Self → Option (List ℕ) };

    /// How often it has failed: a count that stands still at 2^64 - 1.
    ghost faults: { Self → ℕ };

    /// Gives some of the bytes left: at `Ok(n)` the first n of them stand at the front of `buf`, and the rest of
    /// `buf` may hold anything. `Ok(0)` for a buffer that isn't empty is the end of the input.
    ///
    /// # Errors
    /// `Failed` only where the count of faults rose in this call. Nothing is taken then. With any other answer the
    /// count is as it was.
    fn read(&mut self, buf: &mut [u8]) -> Result<usize, Failed>
        ensures bound { ReadsAtMost result buf.new }
        ensures bytes { ReadConsumes (left self.old) (left self.new) result buf.new }
        ensures later { faults self.old ≤ faults self.new }
        ensures cause { OnErr result (Rose (faults self.old) (faults self.new)) }
        ensures steady { OnOk result (faults self.new ≡ faults self.old) };
}

/// Where bytes go.
pub trait Sink {
    /// The bytes that it holds, where the sink tells them.
    ghost held: { Self → Option (List ℕ) };

    /// How often it has failed: a count that stands still at 2^64 - 1.
    ghost faults: { Self → ℕ };

    /// Takes some of the bytes: at `Ok(n)` the first n of `bytes` are appended.
    ///
    /// # Errors
    /// `Failed`, and `Ok(0)` for bytes that aren't empty, only where the count of faults rose in this call.
    /// Nothing is appended then. With any other answer the count is as it was.
    fn write(&mut self, bytes: &[u8]) -> Result<usize, Failed>
        ensures bound { WritesAtMost result bytes.now }
        ensures bytes { WriteAppends (held self.old) (held self.new) result bytes.now }
        ensures later { faults self.old ≤ faults self.new }
        ensures cause { TakesNothing result bytes.now → Rose (faults self.old) (faults self.new) }
        ensures steady { ¬ TakesNothing result bytes.now → faults self.new ≡ faults self.old };
}
