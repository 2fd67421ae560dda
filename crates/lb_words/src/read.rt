// The words of a command line, and the job that they ask for.
ghost use Rattle.std.specs.Prelude.{IfOk, IfSome, IfNone, IsErrOf, map, string_bytes};
ghost use Rattle.clap.specs.Words.{found_of, rows_of};
ghost use Rattle.lb_words.specs.declared.job.Job.{Job};
ghost use Rattle.lb_words.specs.Words.{Asks, AreInForm, Finds};

use crate::command::matches_of;
use crate::found::{is_used, mode_in, number_of};
use crate::job::{Job, Mode};
use clap::ArgMatches;
use std::alloc::{AllocError, Global};

/// Why the words ask for nothing.
#[derive(Clone, Copy, Debug, PartialEq, Eq)]
pub enum JobError {
    /// The words aren't in form.
    Usage,
    /// Want of memory.
    Memory,
}

impl From<AllocError> for JobError {
    ghost use Rattle.std.specs.Prelude.{◌≡◌};
    ghost use Rattle.lb_words.specs.declared.read.JobError.TheVariants.{Memory};

    ghost from_gives = { λ _ e. e ≡ Memory };

    fn from(_: AllocError) -> Self {
        JobError::Memory
    }
}

/// The job that the words ask for, the program's name being the first of them, where its mode is one of `modes`.
///
/// # Errors
/// `Usage` exactly where the words aren't in form; `Memory`.
pub fn job_of(alloc: Global, words: &[String], modes: &[Mode]) -> Result<Job, JobError>
    ensures asked { IfOk result (Asks modes.now (map string_bytes words.now)) }
    ensures usage { IsErrOf result JobError.Usage
        → ¬ (AreInForm modes.now (map string_bytes words.now)) }
{
    let matches = matches_of(alloc, words)?;
    match job_in(&matches, modes) {
        Some(job) => Ok(job),
        None => Err(JobError::Usage),
    }
}

// The job that is found.
fn job_in(matches: &ArgMatches, modes: &[Mode]) -> Option<Job>
    ensures found { IfSome result (Finds modes.now (rows_of (found_of matches.now))) }
    ensures none { IfNone result ((job : Job)
        → ¬ (Finds modes.now (rows_of (found_of matches.now)) job)) }
{
    let mode = mode_in(matches, modes)?;
    let events = number_of(matches, "events", 1, 4_000_000, 400_000)?;
    let workers = number_of(matches, "workers", 1, 8, 4)?;
    let seed = number_of(matches, "seed", 0, 4_294_967_295, 0)?;
    Some(Job {
        mode,
        events,
        workers: workers as u8,
        seed,
        log: is_used(matches, "log"),
        trace: is_used(matches, "trace"),
    })
}
