// A sink in memory, which fails at the calls that it is told.
ghost use Rattle.std.specs.Prelude.{◌≡◌, ◌≤◌, ◌-◌, ◌↔◌, [], length, min, vec_len, vec_capacity, IfOk, IsErr, OnErr, Some};
ghost use Rattle.std.specs.Io.{WritesAtMost};
ghost use Rattle.std.specs.Io.KnownBytes.{WriteAppends};
ghost use Rattle.lb_ports.specs.Faults.{Rose, TakesNothing};
ghost use Rattle.lb_ports.specs.Memory.{SinkState, Refuses, sink_after_write, sink_after_fault};

use crate::ports::{Failed, Sink};
use std::alloc::{AllocError, Global};
use std::marker::Model;

/// Room for bytes in memory, filled piece by piece.
#[derive(Drop)]
pub struct MemorySink {
    held: Vec<u8>,
    room: usize,
    piece: usize,
    fails: Vec<u64>,
    calls: u64,
    faults: u64,
}

impl Model for MemorySink {
    ghost Value = { SinkState };

    ghost view = { λ s. record {
      held = s.held.items;
      room = s.room - vec_len s.held;
      piece = s.piece;
      fails = s.fails.items;
      calls = s.calls;
      faults = s.faults;
    } };

    ghost invariant = { λ s. (vec_len s.held ≤ s.room) × (s.room ≤ vec_capacity s.held)
        × (1 ≤ s.piece) };
}

impl MemorySink {
    /// A sink with room for `room` bytes, which are reserved here. It takes at most `piece` of them a call, and fails
    /// at the calls whose numbers, from 0, `fails` lists, and where no room is left.
    ///
    /// # Errors
    /// Want of memory.
    pub fn new(
        alloc: Global,
        room: usize,
        piece: usize,
        fails: Vec<u64>,
    ) -> Result<MemorySink, AllocError>
        requires { 1 ≤ piece }
        ensures { IfOk result (λ sink. sink ≡ record {
          held = [];
          room = room;
          piece = piece;
          fails = fails.items;
          calls = 0;
          faults = 0;
        }) }
    {
        let held = Vec::with_capacity(alloc, room)?;
        Ok(MemorySink {
            held,
            room,
            piece,
            fails,
            calls: 0,
            faults: 0,
        })
    }

    /// The bytes that it holds.
    pub fn held(&self) -> &[u8]
        ensures { result.now ≡ self.now.held }
    {
        &self.held
    }
}

impl Sink for MemorySink {
    ghost held = { λ s. Some s.held };

    ghost faults = { λ s. s.faults };

    fn write(&mut self, bytes: &[u8]) -> Result<usize, Failed>
        ensures bound { WritesAtMost result bytes.now }
        ensures bytes { WriteAppends (Some self.old.held) (Some self.new.held) result bytes.now }
        ensures later { self.old.faults ≤ self.new.faults }
        ensures cause { TakesNothing result bytes.now → Rose self.old.faults self.new.faults }
        ensures steady { ¬ TakesNothing result bytes.now → self.new.faults ≡ self.old.faults }
        ensures fails { IsErr result ↔ (Refuses self.old bytes.now) }
        ensures taken { IfOk result (λ n.
            n ≡ min self.old.piece (min (length bytes.now) self.old.room)) }
        ensures written { IfOk result (λ n. self.new ≡ sink_after_write self.old bytes.now n) }
        ensures failed { OnErr result (self.new ≡ sink_after_fault self.old) }
    {
        let call = self.calls;
        self.calls = call.saturating_add(1);
        let room = self.room - self.held.len();
        if self.fails.contains(&call) || (room == 0 && !bytes.is_empty()) {
            self.faults = self.faults.saturating_add(1);
            return Err(Failed);
        }
        let count = self.piece.min(bytes.len()).min(room);
        // The room was reserved, so no memory is asked for.
        if self.held.extend_from_slice(&bytes[..count]).is_err() {
            unreachable!()
        }
        Ok(count)
    }
}
