// A core whose board lies, beside the instruction-set machine that is told the same lies.
use lb_core::Core;
use lb_draws::Draws;
use lb_isa::{Isa, Stepped};
use lb_trace::{Event, Kind};
use std::alloc::{AllocError, Global};

/// `lui x1, 0x10024`; `lw x2, 72(x1)`; `jal x0, -8`.
static CODE: [u32; 3] = [0x1002_40B7, 0x0480_A103, 0xFF9F_F06F];

static KINDS: [Kind; 6] = [
    Kind::Fetch,
    Kind::Decode,
    Kind::Execute,
    Kind::Ram,
    Kind::Mmio,
    Kind::Writeback,
];

/// A core under draws: each tells the kind that is tried, and at an access of a device the next one is the reply.
#[derive(Drop)]
pub struct Drawn {
    core: Core,
    draws: Draws,
    /// What the board answered.
    pub replies: Vec<u32>,
    /// The accesses of devices.
    pub events: Vec<Event>,
}

/// A core before its first step, under the draws of a seed.
pub fn boot_core(alloc: Global, seed: u32) -> Result<Drawn, AllocError> {
    Ok(Drawn {
        core: Core::boot(alloc, &CODE, 0)?,
        draws: Draws::new(seed, 0),
        replies: Vec::new(alloc),
        events: Vec::new(alloc),
    })
}

/// Fires the kind that is drawn, where it is enabled. Gives whether it was.
pub fn fire_drawn(drawn: &mut Drawn) -> Result<bool, AllocError> {
    let kind = KINDS[(drawn.draws.next() % 6) as usize];
    if !drawn.core.enabled(kind) || drawn.core.retired() > 1_000_000 {
        return Ok(false);
    }
    let reply = drawn.draws.next();
    if kind == Kind::Mmio {
        drawn.replies.push(reply)?;
    }
    if let Some(event) = drawn.core.fire(kind, reply) {
        drawn.events.push(event)?;
    }
    Ok(true)
}

/// How many instructions are done.
pub fn done(drawn: &Drawn) -> u64 {
    drawn.core.done()
}

/// How many are retired.
pub fn retired(drawn: &Drawn) -> u64 {
    drawn.core.retired()
}

/// An instruction-set machine that follows.
#[derive(Drop)]
pub struct Follower {
    isa: Isa,
    /// How many instructions it did.
    pub steps: u64,
    /// The accesses of devices.
    pub events: Vec<Event>,
}

/// The machine before its first instruction.
pub fn boot_isa(alloc: Global) -> Result<Follower, AllocError> {
    Ok(Follower {
        isa: Isa::boot(alloc, &CODE, 0)?,
        steps: 0,
        events: Vec::new(alloc),
    })
}

/// Does instructions until so many are done, each load of a device with the next of the replies. Stops before one that
/// can't be done.
pub fn follow(follower: &mut Follower, steps: u64, replies: &[u32]) -> Result<(), AllocError> {
    for _ in follower.steps..steps {
        let reply = replies.get(follower.events.len()).copied();
        let Stepped::Committed { event } = follower.isa.step(reply) else {
            break;
        };
        if let Some(event) = event {
            follower.events.push(event)?;
        }
        follower.steps = follower.steps.saturating_add(1);
    }
    Ok(())
}

/// Whether core and follower have the same registers.
pub fn same_registers(drawn: &Drawn, follower: &Follower) -> bool {
    for n in 0..32u8 {
        if drawn.core.register(n) != follower.isa.register(n) {
            return false;
        }
    }
    true
}
