// The core: its state and its rows.
ghost use Rattle.std.specs.Prelude.{◌≡◌, ◌<◌, ◌^◌, ◌-◌, length, slice_index, true, [], is_none, not, IfOk};
ghost use Rattle.lb_outcome.specs.Fetching.{instruction_in, word_at};
ghost use Rattle.lb_trace.specs.declared.Kind.TheVariants.{Mmio};
ghost use Rattle.lb_isa.specs.Runs.{IsBootable};
ghost use Rattle.lb_core.specs.State.{has_room, state_of};
ghost use Rattle.lb_core.specs.Rows.{after_decode, after_device, after_end, after_execute, after_fetch, after_ram, answered, booted_core, can_decode, can_end, can_execute, demanded, device_demand, done_of, event_of, fired, is_enabled, is_front_served, waits_for_ram};
ghost use Rattle.lb_core.specs.Rows.{is_halt as is_halt_of};
ghost use Rattle.lb_core.specs.InternalSteps.{front_loaded, front_retired};
ghost use Rattle.lb_core.specs.Stands.{Stands, StandsAfter};

use crate::demand::Demand;
use crate::scoreboard::{clear_of_items, clear_of_outcomes, sources_of};
use lb_exec::{DecodeItem, Executed, Outcome, execute, writes};
use lb_fifo::Fifo;
use lb_front::{FetchItem, Front};
use lb_outcome::{Ram, Registers, at_address, decode_all};
use lb_rv::{Cause, Instr};
use lb_trace::{Event, Kind};
use std::alloc::{AllocError, Global};
use std::marker::Model;

/// A pipelined core with its code and its RAM. Contracts see its whole state.
#[derive(Drop)]
pub struct Core {
    code: Vec<u32>,
    /// The instruction of each word.
    instructions: Vec<Option<Instr>>,
    /// The byte address at which it was booted, for contracts to see.
    entry: u32,
    front: Front,
    fetched: Fifo<FetchItem, 2>,
    decoded: Fifo<DecodeItem, 2>,
    outcomes: Fifo<Outcome, 2>,
    registers: Registers,
    ram: Ram,
    retired: u64,
    halted: Option<Cause>,
}

impl Model for Core {
    ghost use Rattle.lb_core.specs.InternalSteps.{IsKept};
    ghost use Rattle.lb_core.specs.State.{CoreContent};

    ghost Value = { CoreContent };

    ghost view = { λ c. record {
      code = c.code.items;
      entry = c.entry;
      front = c.front;
      fetched = c.fetched;
      decoded = c.decoded;
      outcomes = c.outcomes;
      registers = c.registers;
      ram = c.ram;
      retired = c.retired;
      halted = c.halted;
    } };

    // By the bound on `retired`, `done` never overflows. A fetched item has the code's word, so its instruction is found
    // by its address.
    ghost invariant = { λ c. IsKept c.code.items c.instructions.items c.fetched c.retired };
}

impl Core {
    /// A core at `entry`, a byte address, with the code's words in RAM from address 0 on; all else is 0. The code has 1 to
    /// 32,768 words, and the entry is a multiple of 4 below its end. Fails only for want of memory.
    pub fn boot(alloc: Global, code: &[u32], entry: u32) -> Result<Core, AllocError>
        requires { IsBootable code.now entry }
        ensures row { IfOk result (λ c. state_of c ≡ booted_core code.now entry) }
        ensures stands { IfOk result (λ c. Stands (state_of c) []) }
    {
        let ram = Ram::boot(alloc, code)?;
        let instructions = decode_all(alloc, code)?;
        Ok(Core {
            code: Vec::from_slice(alloc, code)?,
            instructions,
            entry,
            front: Front::boot(entry),
            fetched: Fifo::new(),
            decoded: Fifo::new(),
            outcomes: Fifo::new(),
            registers: Registers::boot(),
            ram,
            retired: 0,
            halted: None,
        })
    }

    /// Whether this kind may be fired now. The kinds of the board never may.
    pub fn enabled(&self, kind: Kind) -> bool
        ensures { result ≡ is_enabled (state_of self.now) kind }
    {
        self.halted.is_none()
            && match kind {
                Kind::Fetch => self.fetched.len() < 2,
                Kind::Decode => self.may_decode(),
                Kind::Execute => self.may_execute(),
                Kind::Ram => self.waits_for_ram(),
                Kind::Mmio => self.device_demand().is_some(),
                Kind::Writeback => self.may_end(),
                Kind::Boot | Kind::Shift | Kind::Arrive => false,
            }
    }

    /// The access of a device that waits: there is one exactly where `Kind::Mmio` is enabled.
    pub fn demand(&self) -> Option<Demand>
        ensures demand { result ≡ demanded (state_of self.now) }
        ensures exactly { is_none result ≡ not (is_enabled (state_of self.now) Mmio) }
    {
        match self.halted {
            None => self.device_demand(),
            Some(_) => None,
        }
    }

    /// Fires a kind that is enabled, and answers the access of a device that this did. The reply is what the device
    /// answers to a read; it counts for nothing else. Fewer than 2^64 - 2 instructions were retired.
    pub fn fire(&mut self, kind: Kind, reply: u32) -> Option<Event>
        requires enabled { is_enabled (state_of self.old) kind ≡ true }
        requires room { self.old.retired < 2 ^ 64 - 2 }
        ensures row { state_of self.new ≡ fired (state_of self.old) kind reply }
        ensures event { result ≡ answered (state_of self.old) kind reply }
        // For whatever trace the core stood, it stands for it with the event behind.
        ensures stands { StandsAfter (state_of self.old) (state_of self.new) result }
        ensures code { self.new.code ≡ self.old.code }
        ensures entry { self.new.entry ≡ self.old.entry }
    {
        self.step(kind, reply)
    }

    /// How many instructions had their effect: those that were retired, and one more where the oldest access is done.
    pub fn done(&self) -> u64
        ensures { result ≡ done_of (state_of self.now) }
    {
        if self.is_front_served() {
            self.retired + 1
        } else {
            self.retired
        }
    }

    /// How many instructions were written back.
    pub fn retired(&self) -> u64
        ensures { result ≡ self.now.retired }
    {
        self.retired
    }

    /// Why the core is halted, if it is.
    pub fn halted(&self) -> Option<Cause>
        ensures { result ≡ self.now.halted }
    {
        self.halted
    }

    /// What a register holds; `n` is below 32.
    pub fn register(&self, n: u8) -> u32
        requires { n < 32 }
        ensures { result ≡ slice_index self.now.registers n }
    {
        self.registers.get(n)
    }

    /// The byte address that is fetched from next.
    pub fn fetch_pc(&self) -> u32
        ensures { result ≡ self.now.front.pc }
    {
        self.front.pc()
    }

    /// The code that it was booted with.
    pub fn code(&self) -> &[u32]
        ensures { result.now ≡ self.now.code }
    {
        &self.code
    }

    // Whether the oldest fetched item may be decoded.
    #[tactic(auto, using(crate::proofs::ScoreboardLemmas::uses_none_append))]
    fn may_decode(&self) -> bool
        ensures { result ≡ can_decode self.now.fetched (state_of self.now) }
    {
        let Some(item) = self.fetched.front() else {
            return false;
        };
        let instruction = self.instruction_at(item.pc);
        self.decoded.len() < 2
            && clear_of_outcomes(instruction, self.outcomes.as_slice())
            && clear_of_items(instruction, self.decoded.as_slice())
    }

    // The instruction at a byte address, if a word that has one stands there.
    fn instruction_at(&self, pc: u32) -> Option<Instr>
        ensures { result ≡ instruction_in (word_at self.now.code pc) }
    {
        match at_address(&self.instructions, pc) {
            Some(instruction) => instruction,
            None => None,
        }
    }

    // Whether the oldest decoded item may be executed or dropped.
    fn may_execute(&self) -> bool
        ensures { result ≡ can_execute self.now.decoded (state_of self.now) }
    {
        let Some(item) = self.decoded.front() else {
            return false;
        };
        item.epoch != self.front.epoch() || self.outcomes.len() < 2
    }

    // Whether the oldest outcome is an access of RAM that isn't done.
    fn waits_for_ram(&self) -> bool
        ensures { result ≡ waits_for_ram self.now.outcomes }
    {
        match self.outcomes.front().copied() {
            Some(Outcome::Load { mmio, served, .. }) => !mmio && served.is_none(),
            Some(Outcome::Store { mmio, served, .. }) => !mmio && !served,
            _ => false,
        }
    }

    // The access of a device that the oldest outcome waits for.
    fn device_demand(&self) -> Option<Demand>
        ensures { result ≡ device_demand self.now.outcomes }
    {
        match self.outcomes.front().copied() {
            Some(
                Outcome::Load {
                    address,
                    mmio: true,
                    served: None,
                    ..
                },
            ) => Some(Demand::Read { addr: address }),
            Some(
                Outcome::Store {
                    address,
                    value,
                    mmio: true,
                    served: false,
                    ..
                },
            ) => Some(Demand::Write {
                addr: address,
                value,
            }),
            _ => None,
        }
    }

    // Whether the oldest outcome can be written back.
    fn may_end(&self) -> bool
        ensures { result ≡ can_end self.now.outcomes }
    {
        match self.outcomes.front().copied() {
            None => false,
            Some(Outcome::Load { served, .. }) => served.is_some(),
            Some(Outcome::Store { served, .. }) => served,
            Some(Outcome::Plain { .. }) => true,
            Some(Outcome::Halt { .. }) => true,
        }
    }

    // Whether the oldest outcome is an access that is done.
    fn is_front_served(&self) -> bool
        ensures { result ≡ is_front_served self.now.outcomes }
    {
        match self.outcomes.front().copied() {
            Some(Outcome::Load { served, .. }) => served.is_some(),
            Some(Outcome::Store { served, .. }) => served,
            _ => false,
        }
    }

    // The row of a kind.
    fn step(&mut self, kind: Kind, reply: u32) -> Option<Event>
        requires enabled { is_enabled (state_of self.old) kind ≡ true }
        requires room { self.old.retired < 2 ^ 64 - 2 }
        ensures row { state_of self.new ≡ fired (state_of self.old) kind reply }
        ensures event { result ≡ answered (state_of self.old) kind reply }
    {
        match kind {
            Kind::Mmio => return self.access_device(reply),
            Kind::Fetch => self.fetch(),
            Kind::Decode => self.decode(),
            Kind::Execute => self.execute(),
            Kind::Ram => self.access_ram(),
            Kind::Writeback => self.write_back(),
            Kind::Boot | Kind::Shift | Kind::Arrive => {}
        }
        None
    }

    fn fetch(&mut self)
        requires { has_room self.old.fetched ≡ true }
        ensures { state_of self.new ≡ after_fetch (state_of self.old) }
    {
        self.fetched.put(self.front.item(&self.code));
        self.front.advance();
    }

    fn decode(&mut self)
        requires { can_decode self.old.fetched (state_of self.old) ≡ true }
        ensures { state_of self.new ≡ after_decode self.old.fetched (state_of self.old) }
    {
        if self.fetched.len() == 0 {
            return;
        }
        let item = self.fetched.take();
        let instruction = self.instruction_at(item.pc);
        let (left, right) = sources_of(instruction);
        self.decoded.put(DecodeItem {
            pc: item.pc,
            word: item.word,
            predicted: item.predicted,
            epoch: item.epoch,
            instruction,
            left: self.registers.get(left),
            right: self.registers.get(right),
        });
    }

    // An item of the other epoch was fetched on a wrong path, and is dropped.
    fn execute(&mut self)
        requires { can_execute self.old.decoded (state_of self.old) ≡ true }
        ensures { state_of self.new ≡ after_execute self.old.decoded (state_of self.old) }
    {
        if self.decoded.len() == 0 {
            return;
        }
        let item = self.decoded.take();
        if item.epoch != self.front.epoch() {
            return;
        }
        let Executed { outcome, next } = execute(&item, 4 * self.code.len() as u32);
        self.outcomes.put(outcome);
        if !is_halt(&outcome) && next != item.predicted {
            self.front.redirect(item.pc, next);
        }
    }

    fn access_ram(&mut self)
        ensures { state_of self.new ≡ after_ram self.old.outcomes (state_of self.old) }
    {
        match self.outcomes.front().copied() {
            Some(
                Outcome::Load {
                    instruction,
                    address,
                    mmio: false,
                    served: None,
                },
            ) => self.load(instruction, address),
            Some(
                Outcome::Store {
                    instruction,
                    address,
                    value,
                    mmio: false,
                    served: false,
                },
            ) => {
                self.ram.store(instruction, address, value);
                self.outcomes.set_front(Outcome::Store {
                    instruction,
                    address,
                    value,
                    mmio: false,
                    served: true,
                });
            }
            _ => {}
        }
    }

    // The oldest outcome is a load that is done in RAM.
    fn load(&mut self, instruction: Instr, address: u32)
        requires { 0 < length self.old.outcomes }
        ensures { state_of self.new ≡ front_loaded instruction address (state_of self.old) }
    {
        let value = self.ram.load(instruction, address);
        self.outcomes.set_front(Outcome::Load {
            instruction,
            address,
            mmio: false,
            served: Some(value),
        });
    }

    fn access_device(&mut self, reply: u32) -> Option<Event>
        ensures row { state_of self.new ≡ after_device self.old.outcomes reply (state_of self.old) }
        ensures event { result ≡ event_of (device_demand self.old.outcomes) reply }
    {
        match self.outcomes.front().copied() {
            Some(
                Outcome::Load {
                    instruction,
                    address,
                    mmio: true,
                    served: None,
                },
            ) => {
                let served = Some(reply);
                self.outcomes.set_front(Outcome::Load {
                    instruction,
                    address,
                    mmio: true,
                    served,
                });
                Some(Event::Ld {
                    addr: address,
                    value: reply,
                })
            }
            Some(
                Outcome::Store {
                    instruction,
                    address,
                    value,
                    mmio: true,
                    served: false,
                },
            ) => {
                self.outcomes.set_front(Outcome::Store {
                    instruction,
                    address,
                    value,
                    mmio: true,
                    served: true,
                });
                Some(Event::St {
                    addr: address,
                    value,
                })
            }
            _ => None,
        }
    }

    fn write_back(&mut self)
        requires { self.old.retired < 2 ^ 64 - 2 }
        ensures { state_of self.new ≡ after_end self.old.outcomes (state_of self.old) }
    {
        let Some(outcome) = self.outcomes.front().copied() else {
            return;
        };
        match outcome {
            Outcome::Plain { rd, value } => {
                self.registers.set(rd, value);
                self.retire();
            }
            Outcome::Load {
                instruction,
                served: Some(value),
                ..
            } => {
                self.registers.set(writes(&instruction), value);
                self.retire();
            }
            Outcome::Store { served: true, .. } => self.retire(),
            Outcome::Halt { cause } => self.halted = Some(cause),
            _ => {}
        }
    }

    // The oldest outcome is written back.
    fn retire(&mut self)
        requires room { self.old.retired < 2 ^ 64 - 2 }
        requires item { 0 < length self.old.outcomes }
        ensures { state_of self.new ≡ front_retired (state_of self.old) }
    {
        self.outcomes.take();
        self.retired += 1;
    }
}

// Whether an outcome is a halt.
fn is_halt(outcome: &Outcome) -> bool
    ensures { result ≡ is_halt_of outcome.now }
{
    matches!(*outcome, Outcome::Halt { .. })
}
