//! The inner forms of the compiler: commands of one operation each over numbered variables, places for the
//! variables, and the same commands over registers and slots; what each form means and asks for.
#![tactic(auto)]

mod arguments;
mod flat;
mod flattening;
mod laws;
mod numbers;
mod placed;
mod places;
mod registers;
mod scope;

pub use flat::{FlatBlock, FlatCmd, FlatFunction, FlatProgram};
pub use flattening::flatten;
pub use laws::{accepted_places_keep, liveness_is_by_walks, registers_are};
pub use placed::{PlacedBlock, PlacedCmd, PlacedFunction, PlacedProgram};
pub use places::{FunctionPlaces, Place, Places};
pub use registers::{
    FIRST_SCRATCH_REGISTER, FIRST_VARIABLE_REGISTER, LAST_VARIABLE_REGISTER, MOST_SAVED,
    SECOND_SCRATCH_REGISTER,
};
