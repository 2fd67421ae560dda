// The whole grammar: boot, and then rounds.
ghost use Rattle.std.specs.Prelude.{◌≡◌, ◌+◌, ◌^◌, ◌<◌, ◌≤◌, IfSome};
ghost use Rattle.lb_grammar.specs.declared.judging.Judging.TheVariants.{Boot};
ghost use Rattle.lb_grammar.specs.InternalMachine.{inside};
ghost use Rattle.lb_grammar.specs.InternalBooting.{boot_step};
ghost use Rattle.lb_grammar.specs.InternalJudging.{after_boot, judge_step, progress_of, rounds_of};

use crate::boot::Booting;
use crate::progress::{Ending, Progress};
use crate::round::Rounding;
use lb_trace::Event;

/// Where a trace stands, and how many whole rounds it has so far.
#[derive(Clone, Copy)]
pub enum Judging {
    Boot { at: Booting },
    /// All that was begun is whole.
    Between { rounds: u64 },
    Round { rounds: u64, at: Rounding },
    /// After a wait in vain.
    Still { rounds: u64 },
}

impl Judging {
    /// Before all events.
    pub const START: Judging = Judging::Boot {
        at: Booting::FirstPin,
    };

    /// Reads the next event; `None` where the trace leaves the grammar with it.
    pub fn after(self, event: Event) -> Option<Judging>
        requires few { rounds_of self + 1 < 2 ^ 64 }
        ensures step { progress_of result ≡ judge_step self event }
        ensures few { IfSome result (λ s. rounds_of s ≤ rounds_of self + 1) }
    {
        // one call alone, which is compiled in place
        let (rounds, at) = match self {
            Judging::Boot { at } => return boot_after(at, event),
            Judging::Between { rounds } => (rounds, Rounding::START),
            Judging::Round { rounds, at } => (rounds, at),
            Judging::Still { .. } => return None,
        };
        match at.after(event) {
            Progress::Within(at) => Some(Judging::Round { rounds, at }),
            Progress::Done(Ending::Whole) => Some(Judging::Between { rounds: rounds + 1 }),
            Progress::Done(Ending::GivenUp) => Some(Judging::Still { rounds }),
            Progress::Off => None,
        }
    }

    /// The number of whole rounds.
    pub fn rounds(self) -> u64
        ensures { result ≡ rounds_of self }
    {
        match self {
            Judging::Boot { .. } => 0,
            Judging::Between { rounds }
            | Judging::Round { rounds, .. }
            | Judging::Still { rounds } => rounds,
        }
    }
}

// Reads the next event of boot.
fn boot_after(at: Booting, event: Event) -> Option<Judging>
    ensures step { progress_of result ≡ inside Boot after_boot (boot_step at event) }
    ensures zero { IfSome result (λ s. rounds_of s ≡ 0) }
{
    match at.after(event) {
        Progress::Within(at) => Some(Judging::Boot { at }),
        Progress::Done(Ending::Whole) => Some(Judging::Between { rounds: 0 }),
        Progress::Done(Ending::GivenUp) => Some(Judging::Still { rounds: 0 }),
        Progress::Off => None,
    }
}
