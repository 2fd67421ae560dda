// The laws of a program's run: no function here computes anything.
ghost use Rattle.lb_source.specs.Laws.{AnyBoundServes, MoreFuelGoesOn};
ghost use Rattle.lb_source.specs.Stack.{StackStaysAbove};

/// With more fuel a run goes on where it was spent, and is the same where it ended otherwise.
pub fn more_fuel_goes_on()
    ensures { MoreFuelGoesOn }
{}

/// A run is the same under every bound, on the nesting of calls and the turns of loops, that is as great as its fuel.
pub fn any_bound_serves()
    ensures { AnyBoundServes }
{}

/// In a run of a program that keeps the rules, under a valid layout, no call's frame reaches below the lowest address that the
/// stack may use.
pub fn stack_stays_above()
    ensures { StackStaysAbove }
{}
