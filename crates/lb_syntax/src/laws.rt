// Laws of the definitions on trees.
ghost use Rattle.lb_syntax.specs.Laws.{DistinctIsSetSize, Limits, OneStackNeed};

/// A function has as many variables as its set of names has members.
pub fn distinct_is_set_size()
    ensures { DistinctIsSetSize }
{}

/// A program has one stack need at most.
pub fn one_stack_need()
    ensures { OneStackNeed }
{}

/// The limits on programs are these numbers.
pub fn limits_are()
    ensures { Limits }
{}
