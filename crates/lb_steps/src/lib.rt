//! The laws of a machine that moves from state to state, whatever its states are: no function here
//! computes anything, and what each promises holds for every machine.
#![tactic(auto)]

ghost use Rattle.lb_steps.specs.Laws.{RunsCompose, StandsStill, StandsStillAfter, LongerRunExtends};

/// A run of m + n moves is a run of m moves and then one of n.
pub fn runs_compose<S>()
    ensures { RunsCompose S }
{}

/// Where there is no move, a run changes nothing.
pub fn stands_still<S>()
    ensures { StandsStill S }
{}

/// Where there is no move after m moves, every longer run ends there too.
pub fn stands_still_after<S>()
    ensures { StandsStillAfter S }
{}

/// Where every move only adds to the end of a trace, a longer run's trace begins with the shorter's.
pub fn longer_run_extends<S, E>()
    ensures { LongerRunExtends S E }
{}
