// The supplied program on the machine, with three frames to come.
ghost use Rattle.std.specs.Prelude.{IfOk};
ghost use Rattle.lb_isa.specs.Runs.{IsBootable};

use crate::stop::Stop;
use lb_board_testkit::script;
use lb_correctness::supplied_image;
use lb_crew::serial;
use lb_grammar::{Verdict, judge};
use lb_image::Image;
use lb_machine::Machine;
use lb_trace::Event;
use std::alloc::{AllocError, Global};

/// A frame that tells the lamp to be on, without its last byte; the whole of it; and the same by another protocol.
const FRAMES: &str = "\
ffffffffffff02000000000108004500001d00000000401100000a0000010a0000021000100100090000
ffffffffffff02000000000108004500001d00000000401100000a0000010a000002100010010009000001
ffffffffffff02000000000108004500001d00000000400600000a0000010a000002100010010009000001";

/// The most entries of the machine's log.
const MOST_EVENTS: u32 = 2_000_000;

/// What the machine did.
#[derive(Clone, Copy)]
pub struct Report {
    pub lit: bool,
    pub arrived: u32,
    pub runs: bool,
    /// The stores of the pins' output values, and the place of the first in the trace.
    pub switches: usize,
    pub place: usize,
    /// The verdict on the trace, and on the trace with the other command in that store.
    pub verdict: Verdict,
    pub of_other: Verdict,
}

/// The supplied program after worker 0 alone has fired its machine.
pub fn served(alloc: Global) -> Result<Report, Stop> {
    let machine = finished(alloc)?;
    let trace = machine.trace();
    let place = trace.iter().position(is_switch).unwrap_or(trace.len());
    let other = with_other_command(alloc, trace, place)?;
    Ok(Report {
        lit: machine.board().lamp(),
        arrived: machine.board().arrived(),
        runs: machine.core().halted().is_none(),
        switches: trace.iter().filter(|event| is_switch(event)).count(),
        place,
        verdict: judge(trace),
        of_other: judge(&other),
    })
}

// The machine with the supplied image after worker 0 alone has fired it.
fn finished(alloc: Global) -> Result<Machine, Stop> {
    let image = image(alloc)?;
    let frames = script(alloc, FRAMES)?;
    let code = image.code.as_slice();
    let booted = Machine::boot(alloc, code, image.entry, frames, MOST_EVENTS)?;
    Ok(serial(booted, 0))
}

// The image of the supplied program.
#[tactic(auto, using(crate::proofs::Bootable::bootable))]
fn image(alloc: Global) -> Result<Image, AllocError>
    ensures { IfOk result (λ image. IsBootable image.code image.entry) }
{
    supplied_image(alloc)
}

// Whether the event is a store of the pins' output values.
fn is_switch(event: &Event) -> bool {
    matches!(
        event,
        Event::St {
            addr: 0x1001_200C,
            ..
        }
    )
}

// The trace with bit 23 of the value of the store at the place flipped.
fn with_other_command(
    alloc: Global,
    trace: &[Event],
    place: usize,
) -> Result<Vec<Event>, AllocError> {
    let mut changed = Vec::from_slice(alloc, trace)?;
    if let Some(Event::St { value, .. }) = changed.get_mut(place) {
        *value ^= 0x0080_0000;
    }
    Ok(changed)
}
