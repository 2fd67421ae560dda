// How both calls answer for the flat form of a text's program.
ghost use Rattle.std.specs.Prelude.{◌<◌, length};
ghost use Rattle.lb_flat.specs.Located.{lists_of, places_at};

use lb_alloc::{accepts, allocate};
use lb_flat::{FunctionPlaces, Place, Places};
use lb_program_testkit::{NoProgram, flat_program};
use sqlite_items::Items;
use std::alloc::{AllocError, Global};
use std::process::Abort;

/// Why there is no answer.
#[derive(Clone, Copy, Debug, PartialEq, Eq)]
pub enum NoAnswer {
    /// There is no program.
    Program(NoProgram),
    /// These are no places.
    NoPlaces,
    /// No memory is left.
    Memory,
}

impl From<NoProgram> for NoAnswer {
    fn from(reason: NoProgram) -> Self {
        NoAnswer::Program(reason)
    }
}

impl From<AllocError> for NoAnswer {
    fn from(_: AllocError) -> Self {
        NoAnswer::Memory
    }
}

/// Asserts that these places are accepted for the text's program, or that they aren't. The places of a function stand behind
/// those of the one before it and a `;`: a register as its number, a slot as `s` and its number.
pub fn expect_verdict(
    rt: &impl Abort,
    alloc: Global,
    text: &str,
    places: &str,
    want: bool,
) -> Result<(), NoAnswer> {
    let flat = flat_program(alloc, text.as_bytes())?;
    let found = accepts(alloc, &flat, &read_places(alloc, places)?)?;
    assert_eq!(rt; found, want, "of {places} for {text}");
    Ok(())
}

/// Asserts that so many variables of the text's program are given registers, and so many slots, and that this is accepted.
pub fn expect_places(
    rt: &impl Abort,
    alloc: Global,
    text: &str,
    want: (usize, usize),
) -> Result<(), NoAnswer> {
    let flat = flat_program(alloc, text.as_bytes())?;
    let places = allocate(alloc, &flat)?;
    assert!(rt; accepts(alloc, &flat, &places)?, "of {text}");
    assert_eq!(rt; count(&places), want, "of {text}");
    Ok(())
}

fn read_places(alloc: Global, text: &str) -> Result<Places, NoAnswer> {
    let mut functions = Items::new(alloc);
    for list in text.split(';') {
        functions.push(read_list(alloc, list)?)?;
    }
    Ok(Places { functions })
}

fn read_list(alloc: Global, list: &str) -> Result<FunctionPlaces, NoAnswer> {
    let mut places = Items::new(alloc);
    for word in list.split_whitespace() {
        places.push(read_place(word)?)?;
    }
    Ok(FunctionPlaces { places })
}

fn read_place(word: &str) -> Result<Place, NoAnswer> {
    let place = match word.strip_prefix('s') {
        Some(slot) => slot.parse().map(Place::Slot),
        None => word.parse().map(Place::Register),
    };
    place.map_err(|_| NoAnswer::NoPlaces)
}

// How many variables have registers, and how many have slots.
fn count(places: &Places) -> (usize, usize) {
    let mut registers = 0usize;
    let mut slots = 0usize;
    for (function, list) in places.functions.as_slice().iter().enumerate() {
        let found = count_registers(places, function);
        registers = registers.saturating_add(found);
        slots = slots.saturating_add(list.places.len().saturating_sub(found));
    }
    (registers, slots)
}

// How many variables of the function have registers.
fn count_registers(places: &Places, function: usize) -> usize
    requires { function < length places.now.functions }
{
    let mut found = 0usize;
    for variable in 0..places.functions.as_slice()[function].places.len() {
        if has_register(places, function, variable) {
            found = found.saturating_add(1);
        }
    }
    found
}

// Whether the variable of the function has a register.
fn has_register(places: &Places, function: usize, variable: usize) -> bool
    requires known { function < length places.now.functions }
    requires placed { variable < length (places_at (lists_of places.now) function) }
{
    match (u32::try_from(function), u32::try_from(variable)) {
        (Ok(function), Ok(variable)) => places.register(function, variable).is_some(),
        _ => false,
    }
}
