// The theorem on the machine. No function here computes anything: each calls the laws that it
// stands on.
ghost use Rattle.lb_correctness.specs.Laws.{LampKeeps, MachinesKeep};

use lb_bulb::never_goes_wrong;
use lb_core::{booted_stands, rows_stand};
use lb_grammar::prefix_law;
use lb_isa::{halted_stands_still, longer_runs_extend};
use lb_machine::{entries_are_bounded, events_are_few};

/// Of a program and its image: after every legal log of a machine with this image, whatever frames
/// arrive, what the machine did to devices is the beginning of what the program does for the same
/// replies, and the core isn't halted, where the program does nothing undefined with as much fuel
/// as instructions are done; and what the program does with fuel n, where it does nothing
/// undefined, is the beginning of what the machine did, once that has done at least (n + 1) times
/// as many instructions as the program asks for words.
pub fn machines_keep()
    ensures machines { MachinesKeep }
{
    booted_stands();
    rows_stand();
    entries_are_bounded();
    events_are_few();
    halted_stands_still();
    longer_runs_extend();
}

/// Of the supplied program and its image: after every legal log, whatever frames arrive, what the
/// machine did to devices is a prefix of a trace of the lamp's grammar, and the core isn't halted.
pub fn lamp_keeps()
    ensures lamp { LampKeeps }
{
    machines_keep();
    never_goes_wrong();
    prefix_law();
}
