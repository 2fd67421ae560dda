// The machine.
ghost use Rattle.std.specs.Prelude.{◌≡◌, ◌≤◌, ◌↔◌, ◌*◌, ◌∷◌, ◌++◌, IfErr, IfNone, IfOk, IfSome, IsTrue, OnOk, [], length, true};
ghost use Rattle.lb_isa.specs.Runs.{IsBootable};
ghost use Rattle.lb_core.specs.Stands.{Stands};
ghost use Rattle.lb_core.specs.State.{state_of};
ghost use Rattle.lb_board.specs.Rows.{by_phase};
ghost use Rattle.lb_board.specs.Script.{IsScript};
ghost use Rattle.lb_turn.specs.Entries.{added};
ghost use Rattle.lb_machine.specs.Logs.{HaveWorkers, IsFirstRefused, may_fire, most_entries};
ghost use Rattle.lb_machine.specs.Machines.{IsAfter, IsBooted, IsReplay, state_in};
ghost use Rattle.lb_machine.specs.Refusals.{Fires, Refuses};
ghost use Rattle.lb_machine.specs.Rows.{is_enabled};
ghost use Rattle.lb_machine.specs.State.{job_of};

use crate::fault::{BadEntry, NotFired};
use crate::frames::{copied, same_frames};
use crate::job::FixedJob;
use crate::system::System;
use lb_board::Board;
use lb_core::Core;
use lb_trace::{Entry, Event, Frame, Kind};
use lb_turn::Acts;
use std::alloc::{AllocError, Global};
use std::marker::Model;

/// The most entries of a log.
pub const MOST_ENTRIES: u32 = 4_000_000;

/// A core with its board, and the log of all steps since boot. Contracts see what never changes,
/// the log, and the state: core, board and the accesses of devices so far. It is always the replay
/// of the log.
#[derive(Drop)]
pub struct Machine {
    system: System,
    entry: u32,
    max_events: u32,
    log: Vec<Entry>,
}

impl Model for Machine {
    ghost use Rattle.std.specs.Prelude.{vec_capacity};
    ghost use Rattle.lb_machine.specs.InternalSteps.{IsKept, content_of};
    ghost use Rattle.lb_machine.specs.Machines.{MachineContent};

    ghost Value = { MachineContent };

    ghost view = { λ m. content_of m.system m.entry m.max_events m.log.items };

    ghost invariant = { λ m.
        IsKept m.system m.entry m.max_events m.log.items (vec_capacity m.log) };
}

/// What a machine is made of.
#[derive(Drop)]
pub struct Parts {
    /// All steps since boot.
    pub log: Vec<Entry>,
    /// All accesses of devices since boot.
    pub trace: Vec<Event>,
    pub core: Core,
    pub board: Board,
}

impl Machine {
    /// A machine before its first step, with the code's words in RAM from address 0 on, entered at
    /// `entry`, a byte address; with the frames that are to arrive; and with room for a log of
    /// `max_events` entries. The code has 1 to 32,768 words, the entry is a multiple of 4 below its
    /// end, there are at most 64 frames of 1 to 2,000 bytes, and `max_events` is at most
    /// `MOST_ENTRIES`. Fails only for want of memory; of the other calls `copy` alone takes memory.
    pub fn boot(
        alloc: Global,
        code: &[u32],
        entry: u32,
        frames: Vec<Frame>,
        max_events: u32,
    ) -> Result<Machine, AllocError>
        requires code { IsBootable code.now entry }
        requires frames { IsScript frames.items }
        requires most { max_events ≤ most_entries }
        ensures { IfOk result (IsBooted (job_of code.now entry frames.items) max_events) }
    {
        let room = max_events as usize / 4 + 1;
        let system = System::boot(alloc, code, entry, frames, room)?;
        let log = Vec::with_capacity(alloc, max_events as usize)?;
        Ok(Machine {
            system,
            entry,
            max_events,
            log,
        })
    }

    /// Whether this kind may be fired now: the core isn't halted, and the guard of the kind's row
    /// holds.
    pub fn enabled(&self, kind: Kind) -> bool
        ensures row { result ≡ is_enabled by_phase (state_in self.now) kind }
        ensures log { result ≡ may_fire self.now.fixed.job self.now.log kind }
    {
        self.system.enabled(kind)
    }

    /// Fires a kind for a worker, of number 0 to 7. Ok adds the one entry at the end of the log,
    /// and is its place; Err leaves the machine as it is, and tells the first of its reasons that
    /// is so.
    pub fn fire(&mut self, worker: u8, kind: Kind) -> Result<u64, NotFired>
        requires { worker ≤ 7 }
        ensures same { self.new.fixed ≡ self.old.fixed }
        ensures place { IfOk result (λ n. n ≡ length self.old.log) }
        ensures ok { IfOk result (λ n. self.new.log ≡ added self.old.log worker kind) }
        ensures row { IfOk result (λ n. IsAfter kind self.old self.new) }
        ensures fires { IfOk result (λ n. Fires self.old.fixed self.old.log kind) }
        ensures err { IfErr result (λ why. self.new ≡ self.old) }
        ensures reason { IfErr result (λ why. Refuses self.old.fixed self.old.log kind why) }
    {
        if let Some(why) = self.refusal(kind) {
            return Err(why);
        }
        let place = self.log.len() as u64;
        self.add(Entry { worker, kind });
        Ok(place)
    }

    /// All steps since boot, in order. The log is legal for the job, and the machine is what it
    /// replays to.
    pub fn log(&self) -> &[Entry]
        ensures value { result.now ≡ self.now.log }
        ensures replay { IsReplay self.now }
    {
        &self.log
    }

    /// All accesses of devices since boot, in order: the core stands for them, and there are at
    /// least four steps for each.
    pub fn trace(&self) -> &[Event]
        ensures value { result.now ≡ self.now.trace }
        ensures stands { Stands (state_of self.now.core) self.now.trace }
        ensures few { 4 * length self.now.trace ≤ length self.now.log }
    {
        &self.system.trace
    }

    /// The core.
    pub fn core(&self) -> &Core
        ensures { result.now ≡ self.now.core }
    {
        &self.system.core
    }

    /// The board.
    pub fn board(&self) -> &Board
        ensures { result.now ≡ self.now.board }
    {
        &self.system.board
    }

    /// The frames of the job.
    pub fn frames(&self) -> &[Frame]
        ensures { result.now ≡ self.now.fixed.job.frames }
    {
        self.system.board.frames()
    }

    /// The most entries of the log.
    pub fn max_events(&self) -> u32
        ensures value { result ≡ self.now.fixed.max_events }
        ensures fits { length self.now.log ≤ result }
        ensures most { result ≤ most_entries }
    {
        self.max_events
    }

    /// Whether the other machine has the same job and the same `max_events`.
    pub fn same_job(&self, other: &Machine) -> bool
        ensures { IsTrue result ↔ (self.now.fixed ≡ other.now.fixed) }
    {
        self.entry == other.entry
            && self.max_events == other.max_events
            && self.system.core.code() == other.system.core.code()
            && same_frames(self.frames(), other.frames())
    }

    /// A machine with the same job, `max_events`, log and state. Fails only for want of memory.
    pub fn copy(&self, alloc: Global) -> Result<Machine, AllocError>
        ensures fixed { IfOk result (λ m. m.fixed ≡ self.now.fixed) }
        ensures log { IfOk result (λ m. m.log ≡ self.now.log) }
        ensures state { IfOk result (λ m. state_in m ≡ state_in self.now) }
    {
        let entries = self.log();
        let mut machine = self.booted_anew(alloc)?;
        match machine.fire_all(entries) {
            Ok(()) => Ok(machine),
            Err(_) => unreachable!(),
        }
    }

    /// What it is made of.
    pub fn into_parts(self) -> Parts
        ensures log { result.log.items ≡ self.log }
        ensures trace { result.trace.items ≡ self.trace }
        ensures core { result.core ≡ self.core }
        ensures board { result.board ≡ self.board }
        ensures replay { IsReplay self }
    {
        let Machine { system, log, .. } = self;
        let System { core, board, trace } = system;
        Parts {
            log,
            trace,
            core,
            board,
        }
    }

    // A machine with the same job and `max_events`, before its first step. Fails only for want of
    // memory.
    fn booted_anew(&self, alloc: Global) -> Result<Machine, AllocError>
        ensures { IfOk result (IsBooted self.now.fixed.job self.now.fixed.max_events) }
    {
        let frames = copied(alloc, self.frames())?;
        let code = self.system.core.code();
        Machine::boot(alloc, code, self.entry, frames, self.max_events)
    }

    // Fires the entries in order, up to the first that can't be fired.
    pub(crate) fn fire_all(&mut self, entries: &[Entry]) -> Result<(), BadEntry>
        requires workers { HaveWorkers entries.now }
        requires empty { self.old.log ≡ [] }
        requires room { length entries.now ≤ self.old.fixed.max_events }
        ensures same { self.new.fixed ≡ self.old.fixed }
        ensures all { OnOk result (self.new.log ≡ entries.now) }
        ensures refused { IfErr result
            (λ bad. IsFirstRefused self.old.fixed.job entries.now bad.at) }
        ensures replay { IsReplay self.new }
    {
        for entry in entries {
            if let Err(_) = self.fire(entry.worker, entry.kind) {
                let at = self.log().len() as u32;
                return Err(BadEntry { at });
            }
        }
        // Names the machine as it is, so that what its type keeps is known of it.
        let _ = &self.system;
        Ok(())
    }

    // Why this kind can't be fired, if it can't.
    fn refusal(&self, kind: Kind) -> Option<NotFired>
        ensures why { IfSome result (Refuses self.now.fixed self.now.log kind) }
        ensures none { IfNone result (Fires self.now.fixed self.now.log kind) }
    {
        let count = self.log().len();
        match self.core().halted() {
            Some(cause) => Some(NotFired::Halted { cause }),
            None => {
                if count == self.max_events() as usize {
                    Some(NotFired::Full)
                } else if self.enabled(kind) {
                    None
                } else {
                    Some(NotFired::GuardFalse)
                }
            }
        }
    }

    // Fires an entry that can be fired.
    fn add(&mut self, entry: Entry)
        requires fires { Fires self.old.fixed self.old.log entry.kind }
        requires worker { entry.worker ≤ 7 }
        ensures same { self.new.fixed ≡ self.old.fixed }
        ensures log { self.new.log ≡ self.old.log ++ entry ∷ [] }
        ensures row { IsAfter entry.kind self.old self.new }
    {
        self.system.fire(entry.kind);
        self.log.push_reserved(entry);
    }
}

impl Acts for Machine {
    ghost use Rattle.lb_machine.specs.Refusals.{Refuses};

    type Fixed = FixedJob;

    type Why = NotFired;

    ghost fixed = { λ m. m.fixed };

    ghost entries = { λ m. m.log };

    ghost why = { Refuses };

    fn act(&mut self, worker: u8, kind: Kind) -> Result<u64, NotFired> {
        self.fire(worker, kind)
    }

    fn count(&self) -> u64 {
        self.log.len() as u64
    }
}
