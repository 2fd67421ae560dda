// Places of variables, and the commands that move values between slots and registers.
ghost use Rattle.std.specs.Prelude.{◌≡◌, ◌<◌, ◌+◌, [], ◌∷◌, map, length, All, IfOk, OnOk};
ghost use Rattle.std.specs.List.{AllByRecursion};
ghost use Rattle.lb_flat.specs.declared.places.Place.TheVariants.{Register};
ghost use Rattle.lb_flat.specs.Code.{Sequence};
ghost use Rattle.lb_flat.specs.Placed.{placed_command};
ghost use Rattle.lb_flat.specs.Located.{place_of};
ghost use Rattle.lb_flat.specs.Accepted.{MayHold};
ghost use Rattle.lb_flat.specs.Order.{IsVariable};
ghost use Rattle.lb_spill.specs.InternalSpill.{in_register, got, put_back, slots_of, Writes};

use lb_flat::{FIRST_SCRATCH_REGISTER, Place, PlacedCmd};
use sqlite_items::Items;
use std::alloc::{AllocError, Global};

/// The place of a variable.
pub fn place_of(places: &[Place], variable: u32) -> Place
    requires { variable < length places.now }
    ensures { result ≡ place_of places.now variable }
{
    places[variable as usize]
}

/// The places of several variables.
pub fn places_of(
    alloc: Global,
    places: &[Place],
    variables: &[u32],
) -> Result<Items<Place>, AllocError>
    requires { AllByRecursion (IsVariable (length places.now)) variables.now }
    ensures { IfOk result (λ list. list ≡ map (place_of places.now) variables.now) }
{
    let mut list = Items::new(alloc);
    for variable in variables {
        list.push(place_of(places, *variable))?;
    }
    Ok(list)
}

/// How many slots reach to each of these.
pub fn slots_of(places: &[Place], variables: u32) -> u32
    requires { All (MayHold variables) places.now }
    ensures { result ≡ slots_of places.now }
{
    let mut slots = 0;
    for place in places {
        if let Place::Slot(slot) = place {
            slots = slots.max(*slot + 1);
        }
    }
    slots
}

/// The register in which a value for this place is computed: the first scratch register for a slot.
pub fn target_register(place: Place) -> u8
    ensures { Register result ≡ in_register FIRST_SCRATCH_REGISTER place }
{
    match place {
        Place::Register(register) => register,
        Place::Slot(_) => FIRST_SCRATCH_REGISTER,
    }
}

/// Gets the value of a place into a register, this one for a slot, and says into which.
pub fn get(code: &mut Items<PlacedCmd>, scratch: u8, place: Place) -> Result<u8, AllocError>
    ensures register { IfOk result (λ register. Register register ≡ in_register scratch place) }
    ensures code { OnOk result (Writes code.old code.new (got scratch place)) }
{
    match place {
        Place::Register(register) => Ok(register),
        Place::Slot(slot) => {
            add(
                code,
                PlacedCmd::GetSlot {
                    register: scratch,
                    slot,
                },
            )?;
            Ok(scratch)
        }
    }
}

/// Puts a value that was computed for this place back to it, where it is a slot.
pub fn put(code: &mut Items<PlacedCmd>, place: Place) -> Result<(), AllocError>
    ensures { OnOk result (Writes code.old code.new (put_back FIRST_SCRATCH_REGISTER place)) }
{
    match place {
        Place::Register(_) => Ok(()),
        Place::Slot(slot) => add(
            code,
            PlacedCmd::PutSlot {
                slot,
                register: FIRST_SCRATCH_REGISTER,
            },
        ),
    }
}

/// Adds a command.
#[tactic(auto, using(crate::proofs::EmittedLemmas::emitted_more))]
pub fn add(code: &mut Items<PlacedCmd>, c: PlacedCmd) -> Result<(), AllocError>
    ensures { OnOk result (Writes code.old code.new (Sequence (placed_command c))) }
{
    code.push(c)?;
    Ok(())
}
