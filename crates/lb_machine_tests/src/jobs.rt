// Machines of jobs that are written as text: words and frames in hexadecimal.
ghost use Rattle.std.specs.Prelude.{◌≤◌, IfOk, length};
ghost use Rattle.lb_isa.specs.Runs.{IsBootable};
ghost use Rattle.lb_machine.specs.Logs.{HaveWorkers, most_entries};

use crate::stop::Stop;
use lb_board_testkit::script;
use lb_machine::{MOST_ENTRIES, Machine, replay};
use lb_trace::Entry;
use std::alloc::Global;

/// A job as text.
#[derive(Clone, Copy)]
pub struct Job {
    pub words: &'static str,
    pub frames: &'static str,
}

/// A machine of the job before its first step.
pub fn boot(alloc: Global, job: Job, max_events: u32) -> Result<Machine, Stop> {
    if max_events > MOST_ENTRIES {
        return Err(Stop::Text);
    }
    let code = code(alloc, job.words)?;
    let frames = script(alloc, job.frames)?;
    Ok(Machine::boot(alloc, &code, 0, frames, max_events)?)
}

/// The replay of a log.
pub fn replayed(alloc: Global, job: Job, log: &[Entry]) -> Result<Machine, Stop>
    requires most { length log.now ≤ most_entries }
    requires workers { HaveWorkers log.now }
{
    let code = code(alloc, job.words)?;
    let frames = script(alloc, job.frames)?;
    Ok(replay(alloc, &code, 0, frames, log)?)
}

// The code of the words.
fn code(alloc: Global, words: &str) -> Result<Vec<u32>, Stop>
    ensures { IfOk result (λ code. IsBootable code.items 0) }
{
    let mut code = Vec::new(alloc);
    for word in words.split_whitespace() {
        let word = u32::from_str_radix(word, 16).map_err(|_| Stop::Text)?;
        code.push(word)?;
    }
    if code.is_empty() || code.len() > 32_768 {
        return Err(Stop::Text);
    }
    Ok(code)
}
