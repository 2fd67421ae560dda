//! The grammar of the lamp: what the appliance may do at its devices, and an exact judge of traces.
#![tactic(auto)]

ghost use Rattle.std.specs.Prelude.{◌↔◌};
ghost use Rattle.lb_grammar.specs.Forms.{Begins};
ghost use Rattle.lb_grammar.specs.Grammar.{good};
ghost use Rattle.lb_grammar.specs.Rounds.{SaysPrefix, TellsPlace, TellsRounds};

mod boot;
mod exchange;
mod judging;
mod laws;
mod packet;
mod progress;
mod round;
mod transfer;

use judging::Judging;
pub use laws::{prefix_law, rounds_law};
use lb_trace::Event;
pub use packet::command_of_packet;

/// What `judge` says of a trace.
#[derive(Clone, Copy, Debug, PartialEq, Eq)]
pub enum Verdict {
    /// It is a prefix of a trace of the grammar, and has this many whole rounds.
    Prefix { rounds: u64 },
    /// Its first `at` events are such a prefix, and its first `at + 1` aren't.
    Leaves { at: u64 },
}

/// Whether the trace is a prefix of a trace of the grammar: boot and any number of rounds, or one of both that ended
/// with a wait of 1,000 tries in vain, after which nothing follows. It reads each event once and takes no memory.
pub fn judge(trace: &[Event]) -> Verdict
    ensures prefix { SaysPrefix result ↔ Begins good trace.now }
    ensures rounds { TellsRounds trace.now result }
    ensures place { TellsPlace trace.now result }
{
    let mut state = Judging::START;
    for (i, event) in trace.iter().enumerate() {
        match state.after(*event) {
            Some(next) => state = next,
            None => return Verdict::Leaves { at: i as u64 },
        }
    }
    Verdict::Prefix {
        rounds: state.rounds(),
    }
}
