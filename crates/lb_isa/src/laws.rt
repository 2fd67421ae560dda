// The laws of runs: no function here computes anything.
ghost use Rattle.lb_isa.specs.Laws.{CommitsAtMost, FewerStandsStill, HaltedStandsStill, LongerRunsExtend, MoreRepliesKeep, RepliesAreRead, RunsGoOn, ZeroRegisterStays};

/// A run of at most m + n instructions is one of at most m and then one of at most n.
pub fn runs_go_on()
    ensures { RunsGoOn }
{}

/// A longer run's trace begins with the shorter's.
pub fn longer_runs_extend()
    ensures { LongerRunsExtend }
{}

/// No more instructions are committed than were asked for.
pub fn commits_at_most()
    ensures { CommitsAtMost }
{}

/// Where fewer were committed, the run stands still.
pub fn fewer_stands_still()
    ensures { FewerStandsStill }
{}

/// Where a cause holds before the next instruction, every longer run is the same.
pub fn halted_stands_still()
    ensures { HaltedStandsStill }
{}

/// With more replies, a run that committed as many instructions as it was to commits the same ones.
pub fn more_replies_keep()
    ensures { MoreRepliesKeep }
{}

/// The values that were read are the first replies, and the others are left.
pub fn replies_are_read()
    ensures { RepliesAreRead }
{}

/// x0 is always 0.
pub fn zero_register_stays()
    ensures { ZeroRegisterStays }
{}
