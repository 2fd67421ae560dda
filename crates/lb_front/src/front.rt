// Where fetch is, its epoch and its predictions.
ghost use Rattle.std.specs.Prelude.{◌≡◌, slice_get};
ghost use Rattle.lb_front.specs.Prediction.{advanced, booted_front, fetched_item, place, prediction, redirected, target_at};

use crate::FetchItem;
use lb_outcome::at_address;
use lb_word::add;
use std::marker::Model;

/// A place of the table: the instruction at `tag` was last followed by the one at `target`.
#[derive(Clone, Copy, Debug, PartialEq, Eq)]
pub struct Target {
    pub tag: u32,
    pub target: u32,
}

/// Where fetch is, its epoch, and a table of the targets of jumps.
#[derive(Debug, Drop)]
pub struct Front {
    pc: u32,
    epoch: bool,
    table: [Option<Target>; 16],
}

impl Model for Front {
    ghost use Rattle.std.specs.Prelude.{◌≡◌, length};
    ghost use Rattle.lb_front.specs.Prediction.{FrontContent};

    ghost Value = { FrontContent };

    ghost view = { λ f. record { pc = f.pc; epoch = f.epoch; table = f.table } };

    // Each place that an address has is there, so a redirect always writes one.
    ghost invariant = { λ f. length f.table ≡ 16 };
}

impl Front {
    /// A front at this byte address, in the epoch `false`, with an empty table.
    pub fn boot(entry: u32) -> Front
        ensures { result ≡ booted_front entry }
    {
        Front {
            pc: entry,
            epoch: false,
            table: [None; 16],
        }
    }

    /// The byte address to be fetched from.
    pub fn pc(&self) -> u32
        ensures { result ≡ self.now.pc }
    {
        self.pc
    }

    /// The epoch, which flips with each redirect.
    pub fn epoch(&self) -> bool
        ensures { result ≡ self.now.epoch }
    {
        self.epoch
    }

    /// The item that is fetched now.
    pub fn item(&self, code: &[u32]) -> FetchItem
        ensures { result ≡ fetched_item self.now code.now }
    {
        FetchItem {
            pc: self.pc,
            word: at_address(code, self.pc),
            predicted: self.predicted(),
            epoch: self.epoch,
        }
    }

    /// Goes on at the predicted address.
    pub fn advance(&mut self)
        ensures { self.new ≡ advanced self.old }
    {
        self.pc = self.predicted();
    }

    /// Goes on at `next`, in the other epoch; the table keeps that `next` came behind `from`.
    pub fn redirect(&mut self, from: u32, next: u32)
        ensures { self.new ≡ redirected self.old from next }
    {
        self.pc = next;
        self.epoch = !self.epoch;
        self.table[place_of(from)] = Some(Target {
            tag: from,
            target: next,
        });
    }

    // The address that is taken to come next.
    fn predicted(&self) -> u32
        ensures { result ≡ prediction self.now }
    {
        let found = self.table[place_of(self.pc)];
        match found {
            Some(t) if t.tag == self.pc => t.target,
            _ => add(self.pc, 4),
        }
    }
}

// The place of an address in the table.
fn place_of(pc: u32) -> usize
    ensures { result ≡ place pc }
{
    (pc / 4 % 16) as usize
}
