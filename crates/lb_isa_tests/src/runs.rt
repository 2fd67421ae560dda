// Runs of at most so many instructions, and steps that change nothing.
use lb_isa::{Ending, Isa, IsaRun, Stepped, run};
use lb_trace::{Event, print_trace};
use std::alloc::{AllocError, Global};
use std::process::Abort;
use std::test::Fail;

// lui x1, 0x10012; lw x2, 12(x1); sw x2, 12(x1); jal x0, -8
static ECHO: [u32; 4] = [0x100120B7, 0x00C0A103, 0x0020A623, 0xFF9FF06F];

// Asserts how the run ends, and what it accesses.
fn expect(
    rt: &impl Abort,
    alloc: Global,
    run: &IsaRun,
    committed: u32,
    ending: Ending,
) -> Result<Vec<u8>, AllocError> {
    assert_eq!(rt; run.committed, committed);
    assert_eq!(rt; run.ending, ending);
    print_trace(alloc, run.trace.as_slice())
}

#[test]
fn ends_at_the_limit_or_before(rt: HostRuntime) -> Result<(), Fail> {
    let alloc = rt.alloc();
    let none = run(alloc, &ECHO, 0, &[], 0)?;
    expect(&rt, alloc, &none, 0, Ending::Running)?;
    let one = run(alloc, &ECHO, 0, &[], 1)?;
    expect(&rt, alloc, &one, 1, Ending::Running)?;
    let waiting = run(alloc, &ECHO, 0, &[], 2)?;
    expect(&rt, alloc, &waiting, 1, Ending::WantsReply)?;
    let whole = run(alloc, &ECHO, 0, &[7], 4)?;
    let lines = expect(&rt, alloc, &whole, 4, Ending::Running)?;
    assert_eq!(rt;
        lines.as_slice(),
        b"ld 1001200c 00000007\nst 1001200c 00000007\n".as_slice()
    );
    Ok(())
}

// Asserts what a step answers, and where the processor then is.
fn expect_step(rt: &impl Abort, isa: &mut Isa, reply: Option<u32>, want: Stepped, pc: u32) {
    assert_eq!(rt; isa.step(reply), want);
    assert_eq!(rt; isa.pc(), pc);
}

#[test]
fn waits_for_a_reply(rt: HostRuntime) -> Result<(), Fail> {
    let mut isa = Isa::boot(rt.alloc(), &ECHO, 0)?;
    expect_step(
        &rt,
        &mut isa,
        Some(5),
        Stepped::Committed { event: None },
        4,
    );
    expect_step(&rt, &mut isa, None, Stepped::WantsReply, 4);
    expect_step(&rt, &mut isa, None, Stepped::WantsReply, 4);
    let event = Event::Ld {
        addr: 0x1001200C,
        value: 9,
    };
    expect_step(
        &rt,
        &mut isa,
        Some(9),
        Stepped::Committed { event: Some(event) },
        8,
    );
    assert_eq!(rt; isa.register(2), 9);
    Ok(())
}
