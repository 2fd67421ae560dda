// The machine that a log leads to.
ghost use Rattle.std.specs.Prelude.{◌≡◌, ◌≤◌, IfOk, IfErr, length};
ghost use Rattle.lb_isa.specs.Runs.{IsBootable};
ghost use Rattle.lb_board.specs.Script.{IsScript};
ghost use Rattle.lb_machine.specs.Logs.{HaveWorkers, IsLegal, most_entries};
ghost use Rattle.lb_machine.specs.Machines.{IsReplayOf};
ghost use Rattle.lb_machine.specs.Replays.{IsRightFault};
ghost use Rattle.lb_machine.specs.State.{job_of};

use crate::fault::ReplayFault;
use crate::machine::Machine;
use lb_trace::{Entry, Frame};
use std::alloc::Global;

/// The machine that was booted with this job and made these entries, with `max_events` as many as
/// there are. The conditions are those of `Machine::boot`, and each entry is of a worker 0 to 7.
/// BadEvent tells the first entry that can't be fired: the core is halted before it, or its guard
/// is false.
pub fn replay(
    alloc: Global,
    code: &[u32],
    entry: u32,
    frames: Vec<Frame>,
    log: &[Entry],
) -> Result<Machine, ReplayFault>
    requires code { IsBootable code.now entry }
    requires frames { IsScript frames.items }
    requires most { length log.now ≤ most_entries }
    requires workers { HaveWorkers log.now }
    ensures ok { IfOk result (IsReplayOf (job_of code.now entry frames.items) log.now) }
    ensures legal { IfOk result (λ m. IsLegal (job_of code.now entry frames.items) log.now) }
    ensures bad { IfErr result (IsRightFault (job_of code.now entry frames.items) log.now) }
{
    let mut machine = Machine::boot(alloc, code, entry, frames, log.len() as u32)?;
    machine.fire_all(log)?;
    Ok(machine)
}
