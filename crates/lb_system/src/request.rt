// The words of a command line, and what they ask for.
ghost use Rattle.std.specs.Prelude.{◌≡◌, IfOk, IfErr, map, string_bytes};
ghost use Rattle.lb_system.specs.Request.{IsRequest, modes};
ghost use Rattle.lb_system.specs.Questions.{reads};
ghost use Rattle.lb_system.specs.InternalAnswers.{AsksNothing, IsInRange};

use crate::fault::Fault;
use lb_words::{Job, Mode, job_of};
use std::alloc::Global;

/// The modes.
const MODES: [Mode; 11] = [
    Mode::Check,
    Mode::Print,
    Mode::Compile,
    Mode::List,
    Mode::Interp,
    Mode::Isa,
    Mode::Run,
    Mode::Lamp,
    Mode::Replay,
    Mode::Judge,
    Mode::Gen,
];

/// What the words ask for, the program's name being the first of them.
pub fn request_of(alloc: Global, words: &[String]) -> Result<Job, Fault>
    ensures asked { IfOk result (IsRequest (map string_bytes words.now)) }
    ensures range { IfOk result IsInRange }
    ensures refused { IfErr result (AsksNothing (map string_bytes words.now)) }
{
    Ok(job_of(alloc, words, &MODES)?)
}

/// Whether a job has an input.
pub fn has_input(job: &Job) -> bool
    ensures { result ≡ reads job.now }
{
    !matches!(job.mode, Mode::Gen)
}
