// The law of all draws: no function here computes anything.
ghost use Rattle.lb_draws.specs.Laws.{DrawsAreWords};

/// Each draw of a seed that is a word is a word.
pub fn draws_are_words()
    ensures { DrawsAreWords }
{}
