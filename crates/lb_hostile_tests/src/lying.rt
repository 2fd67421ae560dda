// A board that lies: the core does what the instruction-set machine does that reads the same lies.
use crate::beside::{
    Drawn, Follower, boot_core, boot_isa, done, fire_drawn, follow, retired, same_registers,
};
use std::alloc::{AllocError, Global};
use std::test::Fail;

static SEEDS: [u32; 10] = [
    0,
    1,
    2,
    3,
    7,
    9,
    1000,
    0x7FFF_FFFF,
    0x9E37_79B9,
    0xFFFF_FFFF,
];

// How many draws are made for each seed.
const TURNS: u32 = 3000;

// What was seen of a run.
#[derive(Clone, Copy, Debug, PartialEq, Eq)]
struct Seen {
    steps: u64,
    // After how many steps the core was what the others say.
    right: u64,
    done: u64,
    events: u64,
}

// The run of a seed: behind each step the accesses are those of a machine that did as many instructions as are done, and
// the registers those of one that did as many as are retired.
fn run(alloc: Global, seed: u32) -> Result<Seen, AllocError> {
    let mut drawn = boot_core(alloc, seed)?;
    let mut ahead = boot_isa(alloc)?;
    let mut behind = boot_isa(alloc)?;
    let mut steps = 0u64;
    let mut right = 0u64;
    for _ in 0..TURNS {
        if !fire_drawn(&mut drawn)? {
            continue;
        }
        steps = steps.saturating_add(1);
        if is_right(&drawn, &mut ahead, &mut behind)? {
            right = right.saturating_add(1);
        }
    }
    Ok(Seen {
        steps,
        right,
        done: done(&drawn),
        events: drawn.events.len() as u64,
    })
}

// Whether the core is what the two say that follow it.
fn is_right(
    drawn: &Drawn,
    ahead: &mut Follower,
    behind: &mut Follower,
) -> Result<bool, AllocError> {
    follow(ahead, done(drawn), &drawn.replies)?;
    follow(behind, retired(drawn), &drawn.replies)?;
    Ok(
        ahead.steps == done(drawn)
            && behind.steps == retired(drawn)
            && ahead.events == drawn.events
            && same_registers(drawn, behind),
    )
}

// Of three instructions in a loop the second is the access. At most 15 steps are made for each instruction, and 33 more.
#[test]
fn believes_a_lying_board_as_the_instruction_set_does(rt: HostRuntime) -> Result<(), Fail> {
    for seed in SEEDS {
        let seen = run(rt.alloc(), seed)?;
        assert_eq!(rt; seen.right, seen.steps, "seed {seed}");
        assert_eq!(rt; seen.events, seen.done.saturating_add(1) / 3, "seed {seed}");
        assert!(rt; 500 <= seen.steps, "{seen:?} of seed {seed}");
        let most = seen.done.saturating_mul(15).saturating_add(33);
        assert!(rt; seen.steps <= most, "{seen:?} of seed {seed}");
    }
    Ok(())
}
