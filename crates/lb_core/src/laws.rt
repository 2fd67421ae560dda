// The laws of the core's rows: no function here computes anything.
ghost use Rattle.lb_core.specs.Laws.{BootedFits, BootedStands, EveryOrderStands, NeverStuck, PotentialIsBounded, PotentialRises, RowsFit, RowsStand, StepsAreBounded};

/// A booted core stands for the empty trace.
pub fn booted_stands()
    ensures { BootedStands }
{}

/// Where a kind is enabled, firing it with any reply keeps what the core stands for.
pub fn rows_stand()
    ensures { RowsStand }
{}

/// In whatever order its rows are fired, a booted core stands for the events that came: they are the trace of the
/// instruction-set machine that reads the same replies.
pub fn every_order_stands()
    ensures { EveryOrderStands }
{}

/// A core that isn't halted has a kind that is enabled.
pub fn never_stuck()
    ensures { NeverStuck }
{}

/// No queue of a booted core holds more than its capacity.
pub fn booted_fits()
    ensures { BootedFits }
{}

/// Firing a kind that is enabled keeps every queue within its capacity.
pub fn rows_fit()
    ensures { RowsFit }
{}

/// Each step raises the potential by one at the least, and an access of a device by two.
pub fn potential_rises()
    ensures { PotentialRises }
{}

/// The potential is bounded by the number of instructions that are done.
pub fn potential_is_bounded()
    ensures { PotentialIsBounded }
{}

/// From boot on there are at most 15 steps for each instruction that is done, and 33.
pub fn steps_are_bounded()
    ensures { StepsAreBounded }
{}
