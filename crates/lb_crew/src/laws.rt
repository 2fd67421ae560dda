// The law of all runs of worker 0 alone: no function here computes anything.
ghost use Rattle.lb_crew.specs.Laws.{SeedDecides};

/// Two runs of worker 0 alone by one seed, on machines of one job, one limit and one log, end with one log and one
/// trace.
pub fn seed_decides()
    ensures { SeedDecides }
{}
