// How a worker passes the gate.
ghost use Rattle.std.specs.Prelude.{◌≡◌, ◌+◌, ◌-◌, ◌^◌, min};

use lb_ports::Gate;

// A worker before the gate: its number, and how often it has passed.
#[derive(Drop)]
pub(crate) struct Passes<'a, G> {
    gate: &'a G,
    worker: u8,
    count: u64,
}

impl<'a, G: Gate> Passes<'a, G> {
    // A worker that hasn't passed yet.
    pub(crate) fn new(gate: &'a G, worker: u8) -> Passes<'a, G>
        ensures gate { result.gate ≡ gate.entry }
        ensures worker { result.worker ≡ worker }
        ensures count { result.count ≡ 0 }
    {
        Passes {
            gate,
            worker,
            count: 0,
        }
    }

    // Passes the gate: tells it the worker and the number of its passes before this one.
    pub(crate) fn pass(&mut self)
        ensures gate { self.new.gate ≡ self.old.gate }
        ensures worker { self.new.worker ≡ self.old.worker }
        ensures count { self.new.count ≡ min (self.old.count + 1) (2 ^ 64 - 1) }
    {
        self.gate.pass(self.worker, self.count);
        self.count = self.count.saturating_add(1);
    }
}
