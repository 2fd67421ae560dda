// What is acted on.
ghost use Rattle.std.specs.Prelude.{◌≡◌, ◌≤◌, List, length, IfOk, IfErr};
ghost use Rattle.lb_trace.specs.declared.Entry.{Entry};
ghost use Rattle.lb_trace.specs.declared.Kind.{Kind};
ghost use Rattle.lb_turn.specs.Entries.{added};

use lb_trace::Kind;

/// A value with a list of entries that grows by acts, and a part that never changes.
pub trait Acts: Drop {
    /// The part that never changes. No value of it is made.
    type Fixed;

    /// Why an act was refused.
    type Why: Drop;

    // The part that never changes.
    ghost fixed: { Self → Self.Fixed };

    // The entries so far.
    ghost entries: { Self → List Entry };

    // Of the fixed part, the entries so far and a kind: the reason holds.
    ghost why: { Self.Fixed → List Entry → Kind → Self.Why → Type 0 };

    /// Acts for a worker, of number 0 to 7. Ok adds the one entry at the end of the list, and is its
    /// place; Err leaves the list, and gives a reason that holds. It takes no memory.
    fn act(&mut self, worker: u8, kind: Kind) -> Result<u64, Self::Why>
        requires { worker ≤ 7 }
        ensures same { fixed self.new ≡ fixed self.old }
        ensures place { IfOk result (λ n. n ≡ length (entries self.old)) }
        ensures ok { IfOk result (λ n. entries self.new ≡ added (entries self.old) worker kind) }
        ensures err { IfErr result (λ w. entries self.new ≡ entries self.old) }
        ensures reason { IfErr result (λ w. why (fixed self.old) (entries self.old) kind w) };

    /// How many entries there are: fewer than 2^64.
    fn count(&self) -> u64
        ensures { result ≡ length (entries self.now) };
}
