// The laws of what a program is refused for: no function here computes anything.
ghost use Rattle.lb_check.specs.Laws.{OneFault, NotBoth};

/// A program has one first fault at most.
pub fn one_fault()
    ensures { OneFault }
{}

/// No program has a first fault and keeps the rules.
pub fn not_both()
    ensures { NotBoth }
{}
