// The frame of a function, and the instructions that its commands take.

use crate::instructions::{words_of_literal, words_of_operation, words_of_reach, words_over};
use crate::offsets::push_offsets;
use crate::saved::saved_registers;
use lb_flat::{Place, PlacedBlock, PlacedCmd, PlacedFunction};
use lb_syntax::{Action, FrameLayout};
use sqlite_items::Items;
use std::alloc::{AllocError, Global};

/// The frame of a function. From the stack pointer up it has the registers that are saved, then the
/// slots, then the blocks of memory.
#[derive(Drop)]
pub struct Frame {
    /// The registers that are saved, in turn.
    pub saved: Items<u8>,
    /// How many slots there are.
    pub slots: u32,
    /// The bytes in all, and the offsets of the blocks in text order.
    pub layout: FrameLayout,
}

impl Frame {
    ghost use Rattle.std.specs.Prelude.{IfOk};
    ghost use Rattle.lb_syntax.specs.declared.limits.TheConstants.{MOST_FRAME, MOST_WORDS};
    ghost use Rattle.lb_flat.specs.declared.registers.TheConstants.{MOST_SAVED};
    ghost use Rattle.lb_flat.specs.Needs.{frame_need};
    ghost use Rattle.std.specs.Prelude.{◌≡◌, ◌<◌, ◌≤◌, ◌*◌, ◌+◌, ◌^◌, [], ◌∷◌, length};
    ghost use Rattle.lb_flat.specs.Placed.{placed_block, placed_command, placed_routine};
    ghost use Rattle.lb_emit_laws.specs.Code.{access_words, code_words, fetch_words, place_words, places_words, routine_words};
    ghost use Rattle.lb_emit_laws.specs.Frames.{slot_offset};
    ghost use Rattle.lb_emit.specs.InternalEmit.{CanPass, HasNumberedSlots, HaveSlots, IsFunctionPart, NamesSlots};
    ghost use Rattle.lb_emit.specs.InternalFrame.{frame_in, framed_in, framed_of};

    /// The frame of a function, which asks for no more than a frame may have. Fails only for want of
    /// memory.
    #[tactic(auto, using(lb_emit_laws::proofs::SavedLemmas::saved_few))]
    pub fn of(alloc: Global, f: &PlacedFunction) -> Result<Frame, AllocError>
        requires { frame_need (placed_routine f.now) ≤ MOST_FRAME }
        ensures { IfOk result (λ frame. framed_in frame ≡ framed_of (placed_routine f.now)) }
    {
        let saved = saved_registers(alloc, f)?;
        let blocks = 4 * (saved.len() as u32 + f.slots);
        let mut sites = Items::new(alloc);
        let size = push_offsets(&mut sites, &f.body, blocks)?;
        Ok(Frame {
            saved,
            slots: f.slots,
            layout: FrameLayout { size, sites },
        })
    }

    /// The offset of a slot.
    pub fn offset_of(&self, slot: u32) -> u32
        requires { 4 * (length self.now.saved + slot) < 2 ^ 32 }
        ensures { result ≡ slot_offset (frame_in self.now) slot }
    {
        4 * (self.saved.len() as u32 + slot)
    }

    // The instructions that get or put the value of a place.
    fn words_of_place(&self, place: Place) -> u32
        requires slots { HaveSlots self.now.slots (place ∷ []) }
        requires numbered { HasNumberedSlots (frame_in self.now) }
        ensures words { result ≡ place_words (frame_in self.now) place }
        ensures few { result ≤ 3 }
    {
        match place {
            Place::Register(_) => 1,
            Place::Slot(slot) => words_of_reach(self.offset_of(slot)),
        }
    }

    /// The instructions that get or put the values of these places.
    pub fn words_of_places(&self, places: &[Place]) -> u32
        requires slots { CanPass self.now.slots places.now }
        requires numbered { HasNumberedSlots (frame_in self.now) }
        ensures words { result ≡ places_words (frame_in self.now) places.now }
        ensures few { result ≤ 24 }
    {
        let mut words = 0;
        for place in places {
            words += self.words_of_place(*place);
        }
        words
    }

    /// The instructions of a block.
    #[cycle(words)]
    pub fn words_of_block(&self, block: &PlacedBlock) -> u32
        requires slots { NamesSlots self.now.slots (placed_block block.now) }
        requires numbered { HasNumberedSlots (frame_in self.now) }
        requires few { code_words (frame_in self.now) (placed_block block.now) < 2 ^ 32 }
        ensures { result ≡ code_words (frame_in self.now) (placed_block block.now) }
    {
        let mut words = 0;
        for c in block.commands.as_slice() {
            words += self.words_of_command(c);
        }
        words
    }

    // The instructions of a command.
    #[cycle(words)]
    fn words_of_command(&self, c: &PlacedCmd) -> u32
        requires slots { NamesSlots self.now.slots (placed_command c.now) }
        requires numbered { HasNumberedSlots (frame_in self.now) }
        requires few { code_words (frame_in self.now) (placed_command c.now) < 2 ^ 32 }
        ensures { result ≡ code_words (frame_in self.now) (placed_command c.now) }
    {
        match c {
            PlacedCmd::Literal { value, .. } => words_of_literal(*value),
            PlacedCmd::Binary { op, .. } => words_of_operation(*op),
            PlacedCmd::Assign { .. } | PlacedCmd::Load { .. } | PlacedCmd::Store { .. } => 1,
            PlacedCmd::GetSlot { slot, .. } => words_of_reach(self.offset_of(*slot)),
            PlacedCmd::PutSlot { slot, .. } => words_of_reach(self.offset_of(*slot)),
            PlacedCmd::Call {
                targets,
                arguments,
                ..
            } => self.words_of_call(arguments.as_slice(), targets.as_slice()),
            PlacedCmd::Interact {
                targets,
                action,
                arguments,
            } => self.words_of_access(*action, arguments.as_slice(), targets.as_slice()),
            PlacedCmd::StackAlloc { body, .. } => 3 + self.words_of_block(body),
            PlacedCmd::If { yes, no, .. } => {
                let second = self.words_of_block(no);
                2 + self.words_of_block(yes) + words_over(second) + second
            }
            PlacedCmd::While { before, body, .. } => {
                3 + self.words_of_block(before) + self.words_of_block(body)
            }
        }
    }

    // The instructions of a call.
    fn words_of_call(&self, arguments: &[Place], targets: &[Place]) -> u32
        requires arguments { CanPass self.now.slots arguments.now }
        requires targets { CanPass self.now.slots targets.now }
        requires numbered { HasNumberedSlots (frame_in self.now) }
        ensures { result ≡ places_words (frame_in self.now) arguments.now
            + (1 + places_words (frame_in self.now) targets.now) }
    {
        self.words_of_places(arguments) + 1 + self.words_of_places(targets)
    }

    // The instructions of an access.
    fn words_of_access(&self, action: Action, arguments: &[Place], targets: &[Place]) -> u32
        requires arguments { CanPass self.now.slots arguments.now }
        requires targets { CanPass self.now.slots targets.now }
        requires numbered { HasNumberedSlots (frame_in self.now) }
        ensures { result ≡ access_words (frame_in self.now) action arguments.now targets.now }
    {
        match action {
            Action::Read => match arguments {
                [address] => match targets {
                    [target] => self.words_to_fetch(*address) + 1 + self.words_to_fetch(*target),
                    _ => 0,
                },
                _ => 0,
            },
            Action::Write => match arguments {
                [address, value] => match targets {
                    [] => self.words_to_fetch(*address) + self.words_to_fetch(*value) + 1,
                    _ => 0,
                },
                _ => 0,
            },
        }
    }

    // The instructions that bring the value of a place to a register, or back.
    fn words_to_fetch(&self, place: Place) -> u32
        requires slots { HaveSlots self.now.slots (place ∷ []) }
        requires numbered { HasNumberedSlots (frame_in self.now) }
        ensures words { result ≡ fetch_words (frame_in self.now) place }
        ensures few { result ≤ 3 }
    {
        match place {
            Place::Register(_) => 0,
            Place::Slot(slot) => words_of_reach(self.offset_of(slot)),
        }
    }

    /// The instructions of a function in this frame.
    pub fn words_of_function(&self, f: &PlacedFunction) -> u32
        requires part { IsFunctionPart self.now.slots (placed_routine f.now) }
        requires saved { length self.now.saved ≤ MOST_SAVED }
        requires numbered { HasNumberedSlots (frame_in self.now) }
        requires few { routine_words (frame_in self.now) (placed_routine f.now) ≤ MOST_WORDS }
        ensures { result ≡ routine_words (frame_in self.now) (placed_routine f.now) }
    {
        let around = 2 * words_of_reach(self.layout.size) + 1 + 2 * self.saved.len() as u32;
        let params = self.words_of_places(f.params.as_slice());
        let body = self.words_of_block(&f.body);
        let results = self.words_of_places(f.results.as_slice());
        around + params + body + results
    }
}
