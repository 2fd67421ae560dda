// The code of a function's commands.
use crate::buffer::CodeBuffer;
use crate::frame::Frame;
use crate::instructions::{load, store, words_over};
use crate::registers::{FIRST_PASSED, LINK, SECOND_PASSED, ZERO, value_register};
use lb_flat::{Place, PlacedBlock, PlacedCmd, PlacedFunction};
use lb_syntax::{Action, Width};
use std::alloc::AllocError;
use std::marker::Model;

/// The code of a program so far, while that of a function's body is added.
#[derive(Drop)]
pub struct Output {
    pub code: CodeBuffer,
    /// The number of the function's next block of memory.
    pub next_block: usize,
}

/// What the code of a function is written by: its frame, and the number of the instruction at which
/// each function of the program begins.
#[derive(Drop)]
pub struct Emitter<'a> {
    frame: &'a Frame,
    entries: &'a [u32],
}

impl<'a> Model for Emitter<'a> {
    ghost use Rattle.lb_emit.specs.InternalEmit.{AreEntries, HasNumberedSlots, Setting, setting_of};
    ghost use Rattle.lb_emit.specs.InternalFrame.{frame_in, framed_in};

    ghost Value = { Setting };

    ghost view = { λ e. setting_of (framed_in e.frame.now) e.entries.now };

    ghost invariant = { λ e. HasNumberedSlots (frame_in e.frame.now) × AreEntries e.entries.now };
}

impl<'a> Emitter<'a> {
    ghost use Rattle.std.specs.Prelude.{◌≡◌, ◌<◌, ◌≤◌, ◌*◌, ◌+◌, ◌^◌, [], ◌∷◌, ◌++◌, length, drop, slice_index, OnOk};
    ghost use Rattle.lb_syntax.specs.declared.limits.TheConstants.{MOST_WORDS};
    ghost use Rattle.lb_syntax.specs.declared.tree.Action.TheVariants.{Read, Write};
    ghost use Rattle.lb_flat.specs.Code.{Access, Branch, Call, Loop, Plain, Reserve, sites};
    ghost use Rattle.lb_flat.specs.declared.places.Place.TheVariants as place;
    ghost use Rattle.lb_flat.specs.Placed.{placed_block, placed_command, placed_routine};
    ghost use Rattle.lb_flat.specs.declared.registers.TheConstants.{MOST_SAVED};
    ghost use Rattle.lb_emit_laws.specs.Code.{access_code, code_words, fetch_code, fetch_words, get_place, gets_code, keep_code, over_words, place_words, places_words, plain_words, put_place, puts_code, routine_words};
    ghost use Rattle.lb_emit.specs.InternalEmit.{AreEntries, CallsFunctions, CanPass, HasNumberedSlots, HaveSlots, IsFunctionPart, IsSimple, NamesSlots, with_command, with_function};
    ghost use Rattle.lb_emit.specs.InternalFrame.{frame_in};

    /// What a function in this frame is written by.
    pub fn new(frame: &'a Frame, entries: &'a [u32]) -> Emitter<'a>
        requires numbered { HasNumberedSlots (frame_in frame.now) }
        requires entries { AreEntries entries.now }
        ensures frame { result.frame ≡ frame_in frame.entry.now }
        ensures offsets { result.offsets ≡ frame.entry.now.layout.sites }
        ensures entries { result.entries ≡ entries.entry.now }
    {
        Emitter { frame, entries }
    }

    /// The code of a function. Fails only for want of memory, as all that add code do.
    pub fn add_function(&self, out: &mut Output, f: &PlacedFunction) -> Result<(), AllocError>
        requires part { IsFunctionPart self.now.frame.slots (placed_routine f.now) }
        requires functions { CallsFunctions (length self.now.entries) (placed_block f.now.body) }
        requires saved { length self.now.frame.saved ≤ MOST_SAVED }
        requires room { length out.old.code + routine_words self.now.frame (placed_routine f.now)
            ≤ MOST_WORDS }
        requires blocks { length (sites (placed_block f.now.body)) ≤ length self.now.offsets }
        ensures code { OnOk result (out.new.code
            ≡ with_function self.now out.old.code (placed_routine f.now)) }
        ensures long { OnOk result (length out.new.code
            ≡ length out.old.code + routine_words self.now.frame (placed_routine f.now)) }
    {
        let saved = self.frame.saved.as_slice();
        let size = self.frame.layout.size;
        out.code.stack_down(size)?;
        out.code.save(saved)?;
        self.put_places(&mut out.code, f.params.as_slice())?;
        out.next_block = 0;
        self.add_block(out, &f.body)?;
        self.get_places(&mut out.code, f.results.as_slice())?;
        out.code.restore(saved)?;
        out.code.stack_up(size)?;
        out.code.back()?;
        Ok(())
    }

    // The code of a block.
    #[cycle(add)]
    fn add_block(&self, out: &mut Output, block: &PlacedBlock) -> Result<(), AllocError>
        requires slots { NamesSlots self.now.frame.slots (placed_block block.now) }
        requires functions { CallsFunctions (length self.now.entries) (placed_block block.now) }
        requires room { length out.old.code + code_words self.now.frame (placed_block block.now)
            ≤ MOST_WORDS }
        requires blocks { out.old.next_block + length (sites (placed_block block.now))
            ≤ length self.now.offsets }
        ensures code { OnOk result (out.new.code
            ≡ with_command self.now out.old.code out.old.next_block (placed_block block.now)) }
        ensures long { OnOk result (length out.new.code
            ≡ length out.old.code + code_words self.now.frame (placed_block block.now)) }
        ensures next { OnOk result (out.new.next_block
            ≡ out.old.next_block + length (sites (placed_block block.now))) }
    {
        for c in block.commands.as_slice() {
            self.add_command(out, c)?;
        }
        Ok(())
    }

    // The code of a command.
    #[cycle(add)]
    #[tactic(auto, using(crate::proofs::Rest::length_both))]
    fn add_command(&self, out: &mut Output, c: &PlacedCmd) -> Result<(), AllocError>
        requires slots { NamesSlots self.now.frame.slots (placed_command c.now) }
        requires functions { CallsFunctions (length self.now.entries) (placed_command c.now) }
        requires room { length out.old.code + code_words self.now.frame (placed_command c.now)
            ≤ MOST_WORDS }
        requires blocks { out.old.next_block + length (sites (placed_command c.now))
            ≤ length self.now.offsets }
        ensures code { OnOk result (out.new.code
            ≡ with_command self.now out.old.code out.old.next_block (placed_command c.now)) }
        ensures long { OnOk result (length out.new.code
            ≡ length out.old.code + code_words self.now.frame (placed_command c.now)) }
        ensures next { OnOk result (out.new.next_block
            ≡ out.old.next_block + length (sites (placed_command c.now))) }
    {
        match c {
            PlacedCmd::StackAlloc {
                bytes,
                target,
                body,
            } => self.add_stack_block(out, *bytes, *target, body),
            PlacedCmd::If { condition, yes, no } => self.add_choice(out, *condition, yes, no),
            PlacedCmd::While {
                before,
                condition,
                body,
            } => self.add_loop(out, before, *condition, body),
            PlacedCmd::Call {
                targets,
                function,
                arguments,
            } => {
                let targets = targets.as_slice();
                self.add_call(&mut out.code, targets, *function, arguments.as_slice())
            }
            PlacedCmd::Interact {
                targets,
                action,
                arguments,
            } => {
                let targets = targets.as_slice();
                self.add_access(&mut out.code, targets, *action, arguments.as_slice())
            }
            _ => self.add_simple(&mut out.code, c),
        }
    }

    // One block or the other: a condition that isn't 0 goes over the jump to the second. A second block
    // without code needs no jump over it.
    #[cycle(add)]
    fn add_choice(
        &self,
        out: &mut Output,
        condition: u8,
        yes: &PlacedBlock,
        no: &PlacedBlock,
    ) -> Result<(), AllocError>
        requires yes_slots { NamesSlots self.now.frame.slots (placed_block yes.now) }
        requires no_slots { NamesSlots self.now.frame.slots (placed_block no.now) }
        requires yes_functions { CallsFunctions (length self.now.entries) (placed_block yes.now) }
        requires no_functions { CallsFunctions (length self.now.entries) (placed_block no.now) }
        requires room { length out.old.code + 2 + code_words self.now.frame (placed_block yes.now)
            + over_words (code_words self.now.frame (placed_block no.now))
            + code_words self.now.frame (placed_block no.now) ≤ MOST_WORDS }
        requires blocks { out.old.next_block + length (sites (placed_block yes.now))
            + length (sites (placed_block no.now)) ≤ length self.now.offsets }
        ensures code { OnOk result (out.new.code
            ≡ with_command self.now out.old.code out.old.next_block
            (Branch (place.Register condition) (placed_block yes.now) (placed_block no.now))) }
        ensures long { OnOk result (length out.new.code
            ≡ length out.old.code + 2 + code_words self.now.frame (placed_block yes.now)
            + over_words (code_words self.now.frame (placed_block no.now))
            + code_words self.now.frame (placed_block no.now)) }
        ensures next { OnOk result (out.new.next_block ≡ out.old.next_block
            + length (sites (placed_block yes.now)) + length (sites (placed_block no.now))) }
    {
        let words = self.frame.words_of_block(no);
        let second = out.code.place() + 2 + self.frame.words_of_block(yes) + words_over(words);
        out.code.skip_unless_zero(condition)?;
        out.code.jump_to(ZERO, second)?;
        self.add_block(out, yes)?;
        out.code.jump_over(words)?;
        self.add_block(out, no)
    }

    // A loop: a condition that isn't 0 goes over the jump behind it, and its last instruction leads back
    // to its head.
    #[cycle(add)]
    fn add_loop(
        &self,
        out: &mut Output,
        before: &PlacedBlock,
        condition: u8,
        body: &PlacedBlock,
    ) -> Result<(), AllocError>
        requires before_slots { NamesSlots self.now.frame.slots (placed_block before.now) }
        requires body_slots { NamesSlots self.now.frame.slots (placed_block body.now) }
        requires before_functions { CallsFunctions (length self.now.entries)
            (placed_block before.now) }
        requires body_functions { CallsFunctions (length self.now.entries) (placed_block body.now) }
        requires room { length out.old.code + 3
            + code_words self.now.frame (placed_block before.now)
            + code_words self.now.frame (placed_block body.now) ≤ MOST_WORDS }
        requires blocks { out.old.next_block + length (sites (placed_block before.now))
            + length (sites (placed_block body.now)) ≤ length self.now.offsets }
        ensures code { OnOk result (out.new.code
            ≡ with_command self.now out.old.code out.old.next_block
            (Loop (placed_block before.now) (place.Register condition) (placed_block body.now))) }
        ensures long { OnOk result (length out.new.code
            ≡ length out.old.code + 3 + code_words self.now.frame (placed_block before.now)
            + code_words self.now.frame (placed_block body.now)) }
        ensures next { OnOk result (out.new.next_block ≡ out.old.next_block
            + length (sites (placed_block before.now)) + length (sites (placed_block body.now))) }
    {
        let head = out.code.place();
        self.add_block(out, before)?;
        let end = out.code.place() + 2 + self.frame.words_of_block(body) + 1;
        out.code.skip_unless_zero(condition)?;
        out.code.jump_to(ZERO, end)?;
        self.add_block(out, body)?;
        out.code.jump_to(ZERO, head)
    }

    // A block of memory, and the commands that have it. Its size is in the frame already: only the
    // contract names it.
    #[cycle(add)]
    fn add_stack_block(
        &self,
        out: &mut Output,
        bytes: u32,
        target: u8,
        body: &PlacedBlock,
    ) -> Result<(), AllocError>
        requires slots { NamesSlots self.now.frame.slots (placed_block body.now) }
        requires functions { CallsFunctions (length self.now.entries) (placed_block body.now) }
        requires room { length out.old.code + 3 + code_words self.now.frame (placed_block body.now)
            ≤ MOST_WORDS }
        requires blocks { out.old.next_block + 1 + length (sites (placed_block body.now))
            ≤ length self.now.offsets }
        ensures code { OnOk result (out.new.code ≡ with_command self.now out.old.code
            out.old.next_block (Reserve bytes (place.Register target) (placed_block body.now))) }
        ensures long { OnOk result (length out.new.code
            ≡ length out.old.code + 3 + code_words self.now.frame (placed_block body.now)) }
        ensures next { OnOk result (out.new.next_block
            ≡ out.old.next_block + 1 + length (sites (placed_block body.now))) }
    {
        let offset = self.frame.layout.sites.as_slice()[out.next_block];
        out.code.address(target, offset)?;
        out.next_block += 1;
        self.add_block(out, body)
    }

    // A call: the arguments, the jump and the targets.
    #[tactic(auto, using(crate::proofs::EntryLemmas::entry_within))]
    fn add_call(
        &self,
        code: &mut CodeBuffer,
        targets: &[Place],
        function: u32,
        arguments: &[Place],
    ) -> Result<(), AllocError>
        requires there { function < length self.now.entries }
        requires targets { CanPass self.now.frame.slots targets.now }
        requires arguments { CanPass self.now.frame.slots arguments.now }
        requires room { length code.old
            + plain_words self.now.frame (Call function) arguments.now targets.now ≤ MOST_WORDS }
        ensures code { OnOk result (code.new ≡ with_command self.now code.old 0
            (Plain (Call function) arguments.now targets.now)) }
        ensures long { OnOk result (length code.new
            ≡ length code.old
            + plain_words self.now.frame (Call function) arguments.now targets.now) }
    {
        self.get_places(code, arguments)?;
        code.jump_to(LINK, self.entries[function as usize])?;
        self.put_places(code, targets)
    }

    // An access of a device. With other arguments or targets than it has there is nothing to do.
    fn add_access(
        &self,
        code: &mut CodeBuffer,
        targets: &[Place],
        action: Action,
        arguments: &[Place],
    ) -> Result<(), AllocError>
        requires targets { CanPass self.now.frame.slots targets.now }
        requires arguments { CanPass self.now.frame.slots arguments.now }
        ensures code { OnOk result (code.new ≡ with_command self.now code.old 0
            (Plain (Access action) arguments.now targets.now)) }
        ensures long { OnOk result (length code.new
            ≡ length code.old
            + plain_words self.now.frame (Access action) arguments.now targets.now) }
    {
        match action {
            Action::Read => match arguments {
                [address] => match targets {
                    [target] => self.add_read(code, *address, *target),
                    _ => Ok(()),
                },
                _ => Ok(()),
            },
            Action::Write => match arguments {
                [address, value] => match targets {
                    [] => self.add_write(code, *address, *value),
                    _ => Ok(()),
                },
                _ => Ok(()),
            },
        }
    }

    // A device is read: the address, the load and the target.
    fn add_read(
        &self,
        code: &mut CodeBuffer,
        address: Place,
        target: Place,
    ) -> Result<(), AllocError>
        requires address { HaveSlots self.now.frame.slots (address ∷ []) }
        requires target { HaveSlots self.now.frame.slots (target ∷ []) }
        ensures code { OnOk result (code.new
            ≡ code.old ++ access_code self.now.frame Read (address ∷ []) (target ∷ [])) }
        ensures long { OnOk result (length code.new ≡ length code.old
            + (fetch_words self.now.frame address + (1 + fetch_words self.now.frame target))) }
    {
        self.fetch(code, FIRST_PASSED, address)?;
        let from = value_register(FIRST_PASSED, address);
        code.put(load(Width::Four, value_register(FIRST_PASSED, target), from))?;
        self.keep(code, target, FIRST_PASSED)
    }

    // A device is written: the address, the value and the store.
    fn add_write(
        &self,
        code: &mut CodeBuffer,
        address: Place,
        value: Place,
    ) -> Result<(), AllocError>
        requires address { HaveSlots self.now.frame.slots (address ∷ []) }
        requires value { HaveSlots self.now.frame.slots (value ∷ []) }
        ensures code { OnOk result (code.new
            ≡ code.old ++ access_code self.now.frame Write (address ∷ value ∷ []) []) }
        ensures long { OnOk result (length code.new ≡ length code.old
            + (fetch_words self.now.frame address + fetch_words self.now.frame value + 1)) }
    {
        self.fetch(code, FIRST_PASSED, address)?;
        self.fetch(code, SECOND_PASSED, value)?;
        let to = value_register(FIRST_PASSED, address);
        code.put(store(Width::Four, to, value_register(SECOND_PASSED, value)))
    }

    // The code of any other command.
    fn add_simple(&self, code: &mut CodeBuffer, c: &PlacedCmd) -> Result<(), AllocError>
        requires simple { IsSimple (placed_command c.now) }
        requires slots { NamesSlots self.now.frame.slots (placed_command c.now) }
        ensures code { OnOk result (code.new
            ≡ with_command self.now code.old 0 (placed_command c.now)) }
        ensures long { OnOk result (length code.new
            ≡ length code.old + code_words self.now.frame (placed_command c.now)) }
    {
        match c {
            PlacedCmd::Literal { target, value } => code.literal(*target, *value),
            PlacedCmd::Assign { target, source } => code.copy(*target, *source),
            PlacedCmd::Binary {
                op,
                target,
                left,
                right,
            } => code.operation(*op, *target, *left, *right),
            PlacedCmd::Load {
                width,
                target,
                address,
            } => code.put(load(*width, *target, *address)),
            PlacedCmd::Store {
                width,
                address,
                value,
            } => code.put(store(*width, *address, *value)),
            PlacedCmd::GetSlot { register, slot } => {
                code.get_word(*register, self.frame.offset_of(*slot))
            }
            PlacedCmd::PutSlot { slot, register } => {
                code.put_word(self.frame.offset_of(*slot), *register)
            }
            _ => unreachable!(),
        }
    }

    // The register becomes the value of a place.
    fn get_place(&self, code: &mut CodeBuffer, rd: u8, place: Place) -> Result<(), AllocError>
        requires { HaveSlots self.now.frame.slots (place ∷ []) }
        ensures code { OnOk result (code.new ≡ code.old ++ get_place self.now.frame rd place) }
        ensures long { OnOk result (length code.new
            ≡ length code.old + place_words self.now.frame place) }
    {
        match place {
            Place::Register(register) => code.copy(rd, register),
            Place::Slot(slot) => code.get_word(rd, self.frame.offset_of(slot)),
        }
    }

    // The place becomes the value of a register.
    fn put_place(&self, code: &mut CodeBuffer, place: Place, rs: u8) -> Result<(), AllocError>
        requires { HaveSlots self.now.frame.slots (place ∷ []) }
        ensures code { OnOk result (code.new ≡ code.old ++ put_place self.now.frame place rs) }
        ensures long { OnOk result (length code.new
            ≡ length code.old + place_words self.now.frame place) }
    {
        match place {
            Place::Register(register) => code.copy(register, rs),
            Place::Slot(slot) => code.put_word(self.frame.offset_of(slot), rs),
        }
    }

    // The value of a place comes to a register: to this one from a slot.
    fn fetch(&self, code: &mut CodeBuffer, rd: u8, place: Place) -> Result<(), AllocError>
        requires { HaveSlots self.now.frame.slots (place ∷ []) }
        ensures code { OnOk result (code.new ≡ code.old ++ fetch_code self.now.frame rd place) }
        ensures long { OnOk result (length code.new
            ≡ length code.old + fetch_words self.now.frame place) }
    {
        match place {
            Place::Register(_) => Ok(()),
            Place::Slot(slot) => code.get_word(rd, self.frame.offset_of(slot)),
        }
    }

    // And back to its place.
    fn keep(&self, code: &mut CodeBuffer, place: Place, rs: u8) -> Result<(), AllocError>
        requires { HaveSlots self.now.frame.slots (place ∷ []) }
        ensures code { OnOk result (code.new ≡ code.old ++ keep_code self.now.frame place rs) }
        ensures long { OnOk result (length code.new
            ≡ length code.old + fetch_words self.now.frame place) }
    {
        match place {
            Place::Register(_) => Ok(()),
            Place::Slot(slot) => code.put_word(self.frame.offset_of(slot), rs),
        }
    }

    // The registers in which values pass become the values of these places.
    fn get_places(&self, code: &mut CodeBuffer, places: &[Place]) -> Result<(), AllocError>
        requires { CanPass self.now.frame.slots places.now }
        ensures code { OnOk result (code.new ≡ code.old ++ gets_code self.now.frame 10 places.now) }
        ensures long { OnOk result (length code.new
            ≡ length code.old + places_words self.now.frame places.now) }
    {
        let mut register = FIRST_PASSED;
        for place in places {
            self.get_place(code, register, *place)?;
            register += 1;
        }
        Ok(())
    }

    // The places become the values of the registers in which values pass.
    fn put_places(&self, code: &mut CodeBuffer, places: &[Place]) -> Result<(), AllocError>
        requires { CanPass self.now.frame.slots places.now }
        ensures code { OnOk result (code.new ≡ code.old ++ puts_code self.now.frame places.now 10) }
        ensures long { OnOk result (length code.new
            ≡ length code.old + places_words self.now.frame places.now) }
    {
        let mut register = FIRST_PASSED;
        for place in places {
            self.put_place(code, *place, register)?;
            register += 1;
        }
        Ok(())
    }
}
