// The core and the board, joined.
ghost use Rattle.std.specs.Prelude.{◌≡◌, ◌<◌, ◌^◌, ◌-◌, IfOk, [], length, true};
ghost use Rattle.lb_trace.specs.declared.Kind.TheVariants.{Mmio};
ghost use Rattle.lb_isa.specs.Runs.{IsBootable};
ghost use Rattle.lb_core.specs.Rows.{is_enabled as is_enabled_in_core};
ghost use Rattle.lb_core.specs.State.{state_of};
ghost use Rattle.lb_board.specs.Rows.{by_phase};
ghost use Rattle.lb_board.specs.Script.{IsScript};
ghost use Rattle.lb_machine.specs.InternalSteps.{booted_view, system_state, with_access};
ghost use Rattle.lb_machine.specs.Rows.{accessed, after, core_fired, is_enabled, reply_to};
ghost use Rattle.lb_machine.specs.State.{job_of};

use lb_board::Board;
use lb_core::{Core, Demand};
use lb_trace::{Event, Frame, Kind};
use std::alloc::{AllocError, Global};
use std::marker::Model;

/// A core, its board, and the accesses of devices so far. Contracts see also for how many accesses
/// room is reserved.
#[derive(Drop)]
pub(crate) struct System {
    pub(crate) core: Core,
    pub(crate) board: Board,
    pub(crate) trace: Vec<Event>,
}

impl Model for System {
    ghost use Rattle.std.specs.Prelude.{vec_capacity};
    ghost use Rattle.lb_machine.specs.InternalSteps.{SystemContent};

    ghost Value = { SystemContent };

    ghost view = { λ s. record {
      core = s.core;
      board = s.board;
      trace = s.trace.items;
      room = vec_capacity s.trace;
    } };
}

impl System {
    // A system before its first step, with room for so many accesses. Fails only for want of
    // memory.
    pub(crate) fn boot(
        alloc: Global,
        code: &[u32],
        entry: u32,
        frames: Vec<Frame>,
        room: usize,
    ) -> Result<System, AllocError>
        requires code { IsBootable code.now entry }
        requires frames { IsScript frames.items }
        ensures state { IfOk result
            (λ s. system_state s ≡ booted_view (job_of code.now entry frames.items)) }
        ensures room { IfOk result (λ s. s.room ≡ room) }
    {
        let core = Core::boot(alloc, code, entry)?;
        let board = Board::boot(alloc, frames)?;
        let trace = Vec::with_capacity(alloc, room)?;
        Ok(System { core, board, trace })
    }

    // Whether this kind may be fired now.
    pub(crate) fn enabled(&self, kind: Kind) -> bool
        ensures { result ≡ is_enabled by_phase (system_state self.now) kind }
    {
        match kind {
            Kind::Boot | Kind::Shift | Kind::Arrive => {
                self.core.halted().is_none() && self.board.enabled(kind)
            }
            Kind::Fetch | Kind::Decode | Kind::Execute | Kind::Ram | Kind::Mmio | Kind::Writeback =>
                self.core.enabled(kind),
        }
    }

    // The row of a kind.
    pub(crate) fn fire(&mut self, kind: Kind)
        requires enabled { is_enabled by_phase (system_state self.old) kind ≡ true }
        requires retired { self.old.core.retired < 2 ^ 64 - 2 }
        requires room { length self.old.trace < self.old.room }
        ensures row { system_state self.new ≡ after by_phase (system_state self.old) kind }
        ensures room { self.new.room ≡ self.old.room }
    {
        match kind {
            Kind::Boot | Kind::Shift | Kind::Arrive => self.board.act(kind),
            Kind::Mmio => self.access_device(),
            Kind::Fetch | Kind::Decode | Kind::Execute | Kind::Ram | Kind::Writeback => {
                self.fire_core(kind, 0)
            }
        }
    }

    // The board does the access of the core, and answers it.
    fn access_device(&mut self)
        requires enabled { is_enabled_in_core (state_of self.old.core) Mmio ≡ true }
        requires retired { self.old.core.retired < 2 ^ 64 - 2 }
        requires room { length self.old.trace < self.old.room }
        ensures row { system_state self.new ≡ with_access (system_state self.old) }
        ensures room { self.new.room ≡ self.old.room }
    {
        let demand = self.core.demand();
        let reply = access(&mut self.board, demand);
        self.fire_core(Kind::Mmio, reply);
    }

    // The core's row of a kind.
    fn fire_core(&mut self, kind: Kind, reply: u32)
        requires enabled { is_enabled_in_core (state_of self.old.core) kind ≡ true }
        requires retired { self.old.core.retired < 2 ^ 64 - 2 }
        requires room { length self.old.trace < self.old.room }
        ensures row { system_state self.new ≡ core_fired kind reply (system_state self.old) }
        ensures room { self.new.room ≡ self.old.room }
    {
        if let Some(event) = self.core.fire(kind, reply) {
            self.trace.push_reserved(event);
        }
    }
}

// Does an access of the board, if there is one, and gives its answer.
fn access(board: &mut Board, demand: Option<Demand>) -> u32
    ensures reply { result ≡ reply_to demand board.old }
    ensures board { board.new ≡ accessed by_phase demand board.old }
{
    match demand {
        Some(Demand::Read { addr }) => board.read(addr),
        Some(Demand::Write { addr, value }) => {
            board.write(addr, value);
            0
        }
        None => 0,
    }
}
