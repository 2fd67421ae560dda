// A run of a code from boot.
ghost use Rattle.std.specs.Prelude.{◌≡◌, ◌≤◌, drop, length, IfOk};
ghost use Rattle.lb_isa.specs.Runs.{IsBootable, commits, isa, isa_ending};

use crate::processor::{Isa, Stepped};
use lb_rv::Cause;
use lb_trace::{Event, Trace};
use std::alloc::{AllocError, Global};
use std::marker::Model;

/// How a run ends.
#[derive(Clone, Copy, Debug, PartialEq, Eq)]
pub enum Ending {
    /// It committed as many instructions as it was to, whatever the next one is.
    Running,
    /// The next instruction loads a device's word, and no reply is left.
    WantsReply,
    /// A cause holds before the next instruction.
    Halted { cause: Cause },
}

/// What a run did.
#[derive(Debug, Drop)]
pub struct IsaRun {
    /// The accesses of devices, in order.
    pub trace: Trace,
    /// How many instructions were committed.
    pub committed: u32,
    pub ending: Ending,
}

/// A run so far.
#[derive(Drop)]
struct Runner<'a> {
    isa: Isa,
    /// The replies that are left.
    replies: &'a [u32],
    trace: Vec<Event>,
    /// How many instructions were done.
    committed: u32,
}

impl<'a> Model for Runner<'a> {
    ghost use Rattle.lb_isa.specs.InternalSteps.{RunnerContent};

    ghost Value = { RunnerContent };

    ghost view = { λ r. record {
      isa = r.isa;
      replies = r.replies.now;
      trace = r.trace.items;
      committed = r.committed;
    } };
}

impl<'a> Runner<'a> {
    ghost use Rattle.std.specs.Prelude.{◌≡◌, ◌<◌, ◌≤◌, length, IfOk};
    ghost use Rattle.lb_isa.specs.Runs.{IsBootable, start};
    ghost use Rattle.lb_isa.specs.InternalSteps.{Advances, ended_run, run_of};

    // A run before its first instruction. Fails only for want of memory.
    fn boot(
        alloc: Global,
        code: &[u32],
        entry: u32,
        replies: &'a [u32],
    ) -> Result<Runner<'a>, AllocError>
        requires { IsBootable code.now entry }
        ensures run { IfOk result (λ r. run_of r ≡ start code.now entry replies.entry.now) }
        ensures code { IfOk result (λ r. r.isa.code ≡ code.now) }
    {
        let isa = Isa::boot(alloc, code, entry)?;
        Ok(Runner {
            isa,
            replies,
            trace: Vec::new(alloc),
            committed: 0,
        })
    }

    // Does one more instruction, or tells how the run ends. Fails only for want of memory.
    fn advance(&mut self) -> Result<Option<Ending>, AllocError>
        requires { self.old.committed < u32.MAX }
        ensures run { IfOk result (Advances self.old.isa.code (run_of self.old) (run_of self.new)) }
        ensures code { IfOk result (λ ending. self.new.isa.code ≡ self.old.isa.code) }
    {
        let reply = self.replies.first().copied();
        match self.isa.step(reply) {
            Stepped::Committed { event: None } => {
                self.committed += 1;
                Ok(None)
            }
            Stepped::Committed {
                event: Some(Event::Ld { addr, value }),
            } => {
                self.trace.push(Event::Ld { addr, value })?;
                self.replies = without_first(self.replies);
                self.committed += 1;
                Ok(None)
            }
            Stepped::Committed { event: Some(event) } => {
                self.trace.push(event)?;
                self.committed += 1;
                Ok(None)
            }
            Stepped::WantsReply => Ok(Some(Ending::WantsReply)),
            Stepped::Halted { cause } => Ok(Some(Ending::Halted { cause })),
        }
    }

    // What the run did.
    fn into_run(self, ending: Ending) -> IsaRun
        ensures { result ≡ ended_run self.entry ending }
    {
        let Runner {
            trace,
            committed,
            ..
        } = self;
        IsaRun {
            trace: Trace::from_vec(trace),
            committed,
            ending,
        }
    }
}

// The replies behind the first one.
fn without_first(replies: &[u32]) -> &[u32]
    ensures { result.now ≡ drop 1 replies.now }
{
    match replies {
        [] => replies,
        [_, rest @ ..] => rest,
    }
}

/// Runs the code from `entry` for at most `limit` instructions. Each load of a device's word takes the next reply. Fails
/// only for want of memory.
pub fn run(
    alloc: Global,
    code: &[u32],
    entry: u32,
    replies: &[u32],
    limit: u32,
) -> Result<IsaRun, AllocError>
    requires { IsBootable code.now entry }
    ensures trace { IfOk result (λ run. run.trace ≡ (isa code.now entry replies.now limit).trace) }
    ensures committed { IfOk result (λ run.
        run.committed ≡ commits code.now entry replies.now limit) }
    ensures ending { IfOk result (λ run. run.ending ≡ isa_ending code.now entry replies.now limit) }
{
    let mut runner = Runner::boot(alloc, code, entry, replies)?;
    while runner.committed < limit {
        if let Some(ending) = runner.advance()? {
            return Ok(runner.into_run(ending));
        }
    }
    Ok(runner.into_run(Ending::Running))
}
