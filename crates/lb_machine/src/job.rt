// What of a machine never changes.
use lb_trace::Frame;
use std::marker::Model;

/// What of a machine never changes. Contracts see its lists and numbers.
#[derive(Debug, Drop)]
pub struct FixedJob {
    /// The code's words.
    pub code: Vec<u32>,
    /// The byte address at which the code is entered.
    pub entry: u32,
    /// The frames that are to arrive.
    pub frames: Vec<Frame>,
    /// The most entries of the log.
    pub max_events: u32,
}

impl Model for FixedJob {
    ghost use Rattle.lb_machine.specs.Refusals.{FixedContent};

    ghost Value = { FixedContent };

    ghost view = { λ f. record {
      job = record { code = f.code.items; entry = f.entry; frames = f.frames.items };
      max_events = f.max_events;
    } };
}
