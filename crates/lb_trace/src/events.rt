// The events of a run as one value.
ghost use Rattle.std.specs.Prelude.{◌≡◌};

use crate::Event;
use std::marker::Model;

/// The events of a run, in order. Contracts see the list of them.
#[derive(Debug, Drop)]
pub struct Trace {
    events: Vec<Event>,
}

impl Model for Trace {
    ghost use Rattle.std.specs.Prelude.{List};
    ghost use Rattle.lb_trace.specs.declared.Event.{Event};

    ghost Value = { List Event };

    ghost view = { λ t. t.events.items };
}

impl Trace {
    /// These events; it takes no memory.
    pub fn from_vec(events: Vec<Event>) -> Trace
        ensures { result ≡ events.items }
    {
        Trace { events }
    }

    /// The events.
    pub fn as_slice(&self) -> &[Event]
        ensures { result.now ≡ self.now }
    {
        &self.events
    }
}
