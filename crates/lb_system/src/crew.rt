// Who fires a machine's kinds.
ghost use Rattle.std.specs.Prelude.{◌≡◌};
ghost use Rattle.lb_system.specs.Answers.{workers_of as told_workers};

use lb_words::Job;

/// How many workers fire a machine's kinds.
#[derive(Clone, Copy)]
pub enum Workers {
    /// Worker 0 alone, whatever the job says.
    Alone,
    /// As many as the job says.
    AsAsked,
}

/// Who fires a machine's kinds.
#[derive(Drop)]
pub struct Crew<F> {
    /// Goes on with a machine, by a number of workers and a seed, until its log is full or its core is
    /// halted.
    pub finish: F,
    pub workers: Workers,
}

/// How many workers fire.
pub fn workers_of(workers: Workers, job: &Job) -> u8
    ensures { result ≡ told_workers workers job.now }
{
    match workers {
        Workers::Alone => 1,
        Workers::AsAsked => job.workers,
    }
}
