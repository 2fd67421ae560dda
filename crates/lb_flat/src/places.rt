// Where the variables of a function are kept.
ghost use Rattle.std.specs.Prelude.{◌≡◌, ◌<◌, length};
ghost use Rattle.lb_flat.specs.Located.{lists_of, places_at, located_at, register_of};

use sqlite_items::Items;

/// Where a variable is kept.
#[derive(Clone, Copy, Debug, PartialEq, Eq)]
pub enum Place {
    /// In this register of the processor.
    Register(u8),
    /// In this word of the running function's frame, counted from 0.
    Slot(u32),
}

/// A place for each variable of a function.
#[derive(Drop)]
pub struct FunctionPlaces {
    pub places: Items<Place>,
}

/// Places for the variables of each function of a program.
#[derive(Drop)]
pub struct Places {
    pub functions: Items<FunctionPlaces>,
}

impl Places {
    /// The register in which the variable of the function is kept, both by their numbers; None exactly where it has a slot.
    /// There are places for the function, and a place for the variable.
    pub fn register(&self, function: u32, variable: u32) -> Option<u8>
        requires known { function < length self.now.functions }
        requires placed { variable < length (places_at (lists_of self.now) function) }
        ensures { result ≡ register_of (located_at (lists_of self.now) function variable) }
    {
        let places = &self.functions.as_slice()[function as usize].places;
        match places.as_slice()[variable as usize] {
            Place::Register(register) => Some(register),
            Place::Slot(_) => None,
        }
    }
}
