// What code does to the devices.
ghost use Rattle.lb_isa.specs.Runs.{IsBootable};

use crate::compiled::{compile, compile_in_slots};
use lb_emit::Emitted;
use lb_isa::{Ending, run};
use lb_program_testkit::NoProgram;
use lb_trace::Event;
use std::alloc::{AllocError, Global};
use std::process::Abort;

// The most instructions of a run.
const MOST_INSTRUCTIONS: u32 = 1_000_000;

/// Asserts that the code of the text's program does this to the devices with these replies: a value that is read stands
/// behind a `<`, one that is written stands alone, and the last word says how the run ends.
pub fn expect(
    rt: &impl Abort,
    alloc: Global,
    text: &str,
    replies: &[u32],
    want: &str,
) -> Result<(), NoProgram> {
    let emitted = compile(alloc, text)?;
    expect_of(rt, alloc, &emitted, replies, want)?;
    Ok(())
}

/// The same of the code with a slot for each variable.
pub fn expect_in_slots(
    rt: &impl Abort,
    alloc: Global,
    text: &str,
    replies: &[u32],
    want: &str,
) -> Result<(), NoProgram> {
    let emitted = compile_in_slots(alloc, text)?;
    expect_of(rt, alloc, &emitted, replies, want)?;
    Ok(())
}

// The same of code.
fn expect_of(
    rt: &impl Abort,
    alloc: Global,
    emitted: &Emitted,
    replies: &[u32],
    want: &str,
) -> Result<(), AllocError>
    requires { IsBootable emitted.now.code.items emitted.now.entry }
{
    let told = tell(alloc, emitted, replies)?;
    assert_eq!(rt; told.as_str(), want);
    Ok(())
}

// What code does with these replies, in words.
fn tell(alloc: Global, emitted: &Emitted, replies: &[u32]) -> Result<String, AllocError>
    requires { IsBootable emitted.now.code.items emitted.now.entry }
{
    let ran = run(
        alloc,
        emitted.code.as_slice(),
        emitted.entry,
        replies,
        MOST_INSTRUCTIONS,
    )?;
    let mut told = String::new(alloc);
    for event in ran.trace.as_slice() {
        let word = match *event {
            Event::Ld { value, .. } => format!(in alloc; "<{value} ")?,
            Event::St { value, .. } => format!(in alloc; "{value} ")?,
        };
        told.push_str(word.as_str())?;
    }
    told.push_str(ending_word(ran.ending))?;
    Ok(told)
}

// How a run ends, in a word.
fn ending_word(ending: Ending) -> &'static str {
    match ending {
        Ending::Running => "running",
        Ending::WantsReply => "wants",
        Ending::Halted { .. } => "halted",
    }
}
