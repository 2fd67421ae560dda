// One worker alone.
ghost use Rattle.std.specs.Prelude.{◌≡◌, ◌≤◌, ◌↔◌, ℕ, IsFalse, IsTrue};
ghost use Rattle.lb_machine.specs.Machines.{IsReplay};
ghost use Rattle.lb_crew.specs.Crews.{Finishes};
ghost use Rattle.lb_crew.specs.Drawn.{HasEnded, HasFewer, IsDrawn, IsDrawnUntil, IsDrawnWithin};
ghost use Rattle.lb_crew.specs.InternalDraws.{FiresFirst};

use crate::draws::{KINDS, draw_kind, next_kind};
use crate::passes::Passes;
use lb_draws::Draws;
use lb_machine::{Machine, NotFired};
use lb_ports::{Gate, OpenGate};
use lb_trace::Kind;

/// The machine after worker 0 alone has fired, on the calling thread, the kinds that it draws by the seed, until the
/// log has `max_events` entries or the core is halted. The log is that of the machine as it was given, and behind it
/// the entries that were fired, all of worker 0; the machine is the replay of it. Nothing waits, and no memory is taken.
pub fn serial(machine: Machine, seed: u32) -> Machine
    ensures fixed { result.fixed ≡ machine.fixed }
    ensures drawn { IsDrawn seed machine result }
    ensures replay { IsReplay result }
    ensures finishes { (workers : ℕ) → 1 ≤ workers → Finishes seed workers machine result }
{
    finish_alone(machine, seed, &OpenGate)
}

/// The same, but it stops as soon as the trace has so many events: at once where it has them already. The log is made
/// in the same way, with no entry behind that moment.
pub fn serial_until(machine: Machine, seed: u32, events: u32) -> Machine
    ensures fixed { result.fixed ≡ machine.fixed }
    ensures drawn { IsDrawnUntil events seed machine result }
    ensures replay { IsReplay result }
{
    work_alone(machine, seed, Some(events), &OpenGate)
}

// The same as `serial`, with a gate that worker 0 passes before each try.
pub(crate) fn finish_alone<G: Gate>(machine: Machine, seed: u32, gate: &G) -> Machine
    ensures fixed { result.fixed ≡ machine.fixed }
    ensures drawn { IsDrawn seed machine result }
    ensures replay { IsReplay result }
{
    work_alone(machine, seed, None, gate)
}

// Fires what worker 0 draws, until the machine has ended, or the trace has as many events as are asked for.
fn work_alone<G: Gate>(mut machine: Machine, seed: u32, events: Option<u32>, gate: &G) -> Machine
    ensures fixed { result.fixed ≡ machine.fixed }
    ensures drawn { IsDrawnWithin events seed machine result }
    ensures replay { IsReplay result }
{
    let mut draws = Draws::new(seed, 0);
    let mut passes = Passes::new(gate, 0);
    while has_fewer(&machine, events) {
        let first = draw_kind(&mut draws);
        if !fire_first(&mut machine, first, &mut passes) {
            break;
        }
    }
    machine
}

// Fires the first kind, from this one on, that may be fired. Gives false where the machine has ended, and leaves it
// as it is.
fn fire_first<G: Gate>(machine: &mut Machine, first: Kind, passes: &mut Passes<'_, G>) -> bool
    ensures fixed { machine.new.fixed ≡ machine.old.fixed }
    ensures fired { IsTrue result → FiresFirst first machine.old machine.new }
    ensures same { IsFalse result → machine.new ≡ machine.old }
    ensures ended { IsFalse result → HasEnded machine.old }
{
    let mut kind = first;
    for _ in 0..KINDS {
        passes.pass();
        match machine.fire(0, kind) {
            Ok(_) => return true,
            Err(NotFired::GuardFalse) => kind = next_kind(kind),
            Err(NotFired::Full | NotFired::Halted { .. }) => return false,
        }
    }
    unreachable!()
}

// Whether the trace has fewer events than are asked for, as each has where none are.
fn has_fewer(machine: &Machine, events: Option<u32>) -> bool
    ensures fewer { IsTrue result ↔ HasFewer events machine.now.trace }
    ensures replay { IsReplay machine.now }
{
    // Names the log, so that what the machine keeps is known.
    let _ = machine.log();
    match events {
        None => true,
        Some(events) => machine.trace().len() < events as usize,
    }
}
