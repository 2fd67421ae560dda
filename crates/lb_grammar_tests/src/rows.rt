// Worked traces.
use lb_grammar::{Verdict, judge};
use lb_trace_testkit::lamp::{Script, Unread};
use std::alloc::{AllocError, Global};
use std::process::Abort;
use std::test::Fail;

/// The trace of a text.
pub fn script(alloc: Global, text: &str) -> Result<Script, AllocError> {
    Script::from_text(alloc, text, Unread::Plain)
}

/// What is to be said of the trace.
pub fn verdict(script: &Script) -> Verdict {
    match script.leaves {
        Some(at) => Verdict::Leaves { at },
        None => Verdict::Prefix {
            rounds: script.rounds,
        },
    }
}

/// Asserts what is said of each line's trace.
pub fn expect_lines(rt: &impl Abort, alloc: Global, text: &str) -> Result<(), AllocError> {
    for line in text.lines() {
        let script = script(alloc, line)?;
        assert_eq!(rt; judge(&script.events), verdict(&script), "of {line}");
    }
    Ok(())
}

#[test]
fn worked_traces(rt: HostRuntime) -> Result<(), Fail> {
    // the first bytes, and what is wrong with them; 1,000 polls in vain
    expect_lines(
        &rt,
        rt.alloc(),
        "N0
N0 S10012038:3c S10012008:800000 S10024018:2 L10024048:0 S10024048:b
S10012038:3c S10012008:800000 S10024018:2 L10024048:0 M S10024048:c
M S10012038:3d S10012008:800000
N0 S10012038:3c S10012008:800000 S10024018:2 X3e8 L10024048:80000000 S10024018:0
S10012038:3c S10012008:800000 S10024018:2 X3e8 L10024048:80000000 S10024018:0 M S10024018:2
S10012038:3c S10012008:800000 S10024018:2 X3e7 L10024048:80000000 M S10024018:0
S10012038:3c S10012008:800000 S10024018:2 X3e8 L10024048:80000000 M L10024048:0
N0 S10012038:3c S10012008:800000 S10024018:2 X3e7 L10024048:80000000 L10024048:0 S10024048:b
N0 Y3e7 S10012038:3c S10012008:800000 R64:87654321
Y3e8 S10012038:3c S10012008:800000 S10024018:2 X3e8 L10024048:80000000 M R64:87654321",
    )?;
    Ok(())
}

#[test]
fn boots(rt: HostRuntime) -> Result<(), Fail> {
    // whole ones; then each of those that were given up, with nothing behind it and with one event
    expect_lines(
        &rt,
        rt.alloc(),
        "N0 B
N0 S10012038:3c S10012008:800000 X3e7 R64:87654320 R64:87654321 W74:100000 Wa8:c Wa4:80000001 X3e7 Ra4:80000000 Ra4:1
N0 S10012038:3c S10012008:800000 X3 R64:1 T64:0
N0 S10012038:3c S10012008:800000 U64:7
S10012038:3c S10012008:800000 U64:7 M S10024018:2
N0 S10012038:3c S10012008:800000 X3e8 R64:87654320
S10012038:3c S10012008:800000 X3e8 R64:87654320 M S10024018:2
N0 S10012038:3c S10012008:800000 R64:87654321 V74:100000:0
S10012038:3c S10012008:800000 R64:87654321 V74:100000:6 M R64:87654321
N0 S10012038:3c S10012008:800000 R64:87654321 W74:100000 Va8:c:3
S10012038:3c S10012008:800000 R64:87654321 W74:100000 Va8:c:3 M S10024018:2
N0 S10012038:3c S10012008:800000 R64:87654321 W74:100000 Wa8:c Va4:80000001:6
S10012038:3c S10012008:800000 R64:87654321 W74:100000 Wa8:c Va4:80000001:6 M S10024018:2
N0 S10012038:3c S10012008:800000 R64:87654321 W74:100000 Wa8:c Wa4:80000001 Ra4:80000000 Ta4:5
S10012038:3c S10012008:800000 R64:87654321 W74:100000 Wa8:c Wa4:80000001 Ra4:80000000 Ta4:5 M E
N0 S10012038:3c S10012008:800000 R64:87654321 W74:100000 Wa8:c Wa4:80000001 X3e8 Ra4:ffffffff
S10012038:3c S10012008:800000 R64:87654321 W74:100000 Wa8:c Wa4:80000001 X3e8 Ra4:ffffffff M E
S10012038:3c M S10012038:3c
B M L1001200c:0",
    )?;
    Ok(())
}

#[test]
fn rounds(rt: HostRuntime) -> Result<(), Fail> {
    // each kind of round; then each of those that were given up, which is none
    expect_lines(
        &rt,
        rt.alloc(),
        "N1 B E
N1 B R7c:ff00ffff
N1 B G2b K1
N2 B E G2b:2a:0 K0
N1 B G2a
N3 B H2b E G2b:17:6
N1 B G0
N1 B E S10024018:2 L10024048:0
N0 B R7c:10000
N0 B G2b
N0 B G2b L1001200c:12345678
N0 B T7c:0
N2 B E E U7c:4
B E E U7c:4 M E
N0 B R7c:10000 T40:7
B R7c:10000 U40:0 M E
N1 B E R7c:ff0000 R40:40000 T0:0
N1 B E R7c:10000 R40:50000 R0:0 U0:3
B E R7c:10000 R40:50000 R0:0 U0:3 M R0:0
B R7c:10000 R40:40000 R0:0 S10024018:2 M S10024018:0
B G0 M L1001200c:0
B E M L1001200c:0",
    )?;
    Ok(())
}
