// The laws of all legal logs: no function here computes anything.
ghost use Rattle.lb_machine.specs.Laws.{EntriesAreBounded, EventsAreFew, LogsFit, LogsGoOn, LogsStand, MostEntries};

/// After a legal log the core stands for the trace.
pub fn logs_stand()
    ensures { LogsStand }
{}

/// After a legal log no queue of the core holds more than its capacity.
pub fn logs_fit()
    ensures { LogsFit }
{}

/// Where the core isn't halted, one of its kinds may be fired.
pub fn logs_go_on()
    ensures { LogsGoOn }
{}

/// A legal log has at least four entries for each access of a device.
pub fn events_are_few()
    ensures { EventsAreFew }
{}

/// A legal log has at most 20 entries for each instruction that is done, and 60, and one for each
/// frame of the job.
pub fn entries_are_bounded()
    ensures { EntriesAreBounded }
{}

/// The most entries of a log are `MOST_ENTRIES`.
pub fn most_entries_are()
    ensures { MostEntries }
{}
