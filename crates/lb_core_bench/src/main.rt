//! A core that is fired for a number of turns, for measuring: the six kinds in turn, each where it is enabled. It prints
//! how many steps were made and how many instructions were retired.
#![tactic(auto)]

use lb_core::Core;
use lb_trace::Kind;
use std::alloc::{AllocError, Global};
use std::env;
use std::process::ExitCode;

// A loop that stores a word, loads it, adds it to a sum and branches.
static CODE: [u32; 8] = [
    0x00001137, 0x00108093, 0x00112023, 0x00012183, 0x003201B3, 0x00118213, 0xFE0096E3, 0x00100073,
];

static KINDS: [Kind; 6] = [
    Kind::Fetch,
    Kind::Decode,
    Kind::Execute,
    Kind::Ram,
    Kind::Mmio,
    Kind::Writeback,
];

// More instructions than any run here retires.
const MANY: u64 = 1 << 40;

// How many steps so many turns make, and how many instructions are retired by then.
fn fire_in_turn(alloc: Global, turns: u32) -> Result<(u64, u64), AllocError> {
    let mut core = Core::boot(alloc, &CODE, 0)?;
    let mut steps = 0_u64;
    for turn in 0..turns {
        let kind = KINDS[(turn % 6) as usize];
        if core.enabled(kind) && core.retired() < MANY {
            core.fire(kind, 0);
            steps = steps.wrapping_add(1);
        }
    }
    Ok((steps, core.retired()))
}

// The number of turns, the first word of the command line; 600 where there is none.
fn turns_asked(rt: &HostRuntime) -> u32 {
    let Ok(mut words) = env::args(rt) else {
        return 0;
    };
    match words.nth(1) {
        Some(word) => word.parse().unwrap_or(0),
        None => 600,
    }
}

fn main(rt: HostRuntime) -> ExitCode {
    let turns = turns_asked(&rt);
    match fire_in_turn(rt.alloc(), turns) {
        Ok((steps, retired)) => match println!(rt; "steps {steps} retired {retired}") {
            Ok(()) => ExitCode::from(0),
            Err(_) => ExitCode::from(1),
        },
        Err(AllocError) => ExitCode::from(9),
    }
}
