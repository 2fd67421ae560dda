// A small machine.
ghost use Rattle.std.specs.Prelude.{◌≡◌, [], length, IfOk};

use crate::gate::Gate;
use lb_trace::{Entry, Kind};
use lb_turn::Acts;
use std::alloc::{AllocError, Global};
use std::marker::Model;
use std::sync::Arc;

/// Why the machine didn't act.
#[derive(Clone, Copy, PartialEq, Eq, Drop)]
pub enum NotFired {
    /// It has as many entries as it may have.
    Full,
    /// There is no access to be done.
    GuardFalse,
}

/// A machine that keeps its entries, up to a most, and never has an access to do. Each act passes a
/// gate.
#[derive(Drop)]
pub struct Tape {
    log: Vec<Entry>,
    most: u32,
    gate: Arc<Gate, Global>,
}

impl Model for Tape {
    ghost use Rattle.std.specs.Prelude.{◌≤◌, vec_capacity, vec_len};
    ghost use Rattle.lb_turn_tests.specs.Tapes.{TapeView};

    ghost Value = { TapeView };

    ghost view = { λ t. record { log = t.log.items; most = t.most } };

    ghost invariant = { λ t. (vec_len t.log ≤ t.most) × (t.most ≤ vec_capacity t.log) };
}

impl Tape {
    /// A machine without entries. Fails only for want of memory.
    pub fn new(alloc: Global, most: u32, gate: Arc<Gate, Global>) -> Result<Tape, AllocError>
        ensures { IfOk result (λ t. (t.log ≡ []) × (t.most ≡ most)) }
    {
        let log = Vec::with_capacity(alloc, most as usize)?;
        Ok(Tape { log, most, gate })
    }

    /// Its entries.
    pub fn log(&self) -> &[Entry]
        ensures { result.now ≡ self.now.log }
    {
        self.log.as_slice()
    }
}

impl Acts for Tape {
    ghost use Rattle.lb_turn_tests.specs.Tapes.{Refuses};

    type Fixed = u32;

    type Why = NotFired;

    ghost fixed = { λ t. t.most };

    ghost entries = { λ t. t.log };

    ghost why = { Refuses };

    fn act(&mut self, worker: u8, kind: Kind) -> Result<u64, NotFired> {
        self.gate.pass();
        let place = self.log.len();
        if place == self.most as usize {
            return Err(NotFired::Full);
        }
        if kind == Kind::Mmio {
            return Err(NotFired::GuardFalse);
        }
        self.log.push_reserved(Entry { worker, kind });
        Ok(place as u64)
    }

    fn count(&self) -> u64 {
        self.log.len() as u64
    }
}
