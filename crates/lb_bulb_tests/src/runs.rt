// What the supplied program does for the replies of a board.
use lb_bulb::program;
use lb_grammar::{Verdict, judge};
use lb_handmade::{NotChecked, checked, packed_layout};
use lb_source::{SourceEnd, SourceRun, interpret};
use lb_trace::replies;
use lb_trace_testkit::lamp::{Script, Unread};
use std::alloc::{AllocError, Global};
use std::process::Abort;
use std::test::Fail;

// What the program does.
fn run(alloc: Global, fuel: u64, replies: &[u32]) -> Result<SourceRun, NotChecked> {
    let program = checked(alloc, program(alloc)?)?;
    let layout = packed_layout(alloc, &program)?;
    Ok(interpret(alloc, &program, &layout, fuel, replies)?)
}

// Whether the program, given the replies of the line's trace, does that trace, and then begins the next poll, in
// which no reply is left; and whether `judge` counts as many rounds as the line says.
fn does(alloc: Global, line: &str) -> Result<bool, NotChecked> {
    let mut script = Script::from_text(alloc, line, Unread::Odd)?;
    let given = replies(alloc, &script.events)?;
    script.begin_poll()?;
    let run = run(alloc, 1_000_000, &given)?;
    let rounds = script.rounds;
    let trace = run.trace.as_slice();
    Ok(
        trace == script.events.as_slice()
            && run.end == SourceEnd::Starved
            && judge(trace) == Verdict::Prefix { rounds },
    )
}

fn expect_lines(rt: &impl Abort, alloc: Global, text: &str) {
    for line in text.lines() {
        assert_eq!(rt; does(alloc, line), Ok(true), "of {line}");
    }
}

#[test]
fn boots_and_polls(rt: HostRuntime) {
    // the second boot finds the chip asleep and then busy; in the last two lines the bus is busy as well
    expect_lines(
        &rt,
        rt.alloc(),
        "N0 B
N3 B X3 E
N1 S10012038:3c S10012008:800000 X3e7 R64:87654320 R64:87654321 W74:100000 Wa8:c Wa4:80000001 X3e7 Ra4:ffffffff Ra4:7fffffff E
N1 Y3 B E
N1 B Y3e7 E",
    );
}

#[test]
fn serves_packets(rt: HostRuntime) {
    // those that count; with an error; too short, too long and empty; of another kind; behind each one that doesn't
    // count the lamp is switched by another
    expect_lines(
        &rt,
        rt.alloc(),
        "N1 B G2b K1
N3 B G2b:2a:0 K0 E G5f0:2a:3 K1
N2 B H2b G2b K1
N2 B G2a G2b K1
N2 B G5f1 G2b K1
N3 B G0 G1 G2c:2a:2 K0
N2 B G2b:c:9 G2b K1
N2 B G2b:d:1 G2b K1
N2 B G2b:e:46 G2b K1
N2 B G2b:17:6 G2b K1
N2 B G2b:12:6 K1 Y2 G2b:2a:fe K0",
    );
}

// 1,000 replies that are all busy.
fn all_busy(alloc: Global) -> Result<Vec<u32>, AllocError> {
    let mut busy = Vec::new(alloc);
    for _ in 0..1000 {
        busy.push(0x8000_0000)?;
    }
    Ok(busy)
}

// A run for these replies: the number of its events, and its end.
fn vain(alloc: Global, fuel: u64) -> Result<(usize, SourceEnd), NotChecked> {
    let run = run(alloc, fuel, &all_busy(alloc)?)?;
    Ok((run.trace.as_slice().len(), run.end))
}

#[test]
fn stands_still_after_vain_polls(rt: HostRuntime) {
    for (fuel, events) in [(2000, 1004), (1011, 1004), (1010, 1003)] {
        assert_eq!(rt;
            vain(rt.alloc(), fuel),
            Ok((events, SourceEnd::Spent)),
            "of {fuel}"
        );
    }
}
