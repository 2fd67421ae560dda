// The reports of runs.
ghost use Rattle.std.specs.Prelude.{◌≡◌, ◌++◌, IfOk, OnOk};
ghost use Rattle.lb_syntax.specs.Tree.{program_of};
ghost use Rattle.lb_syntax.specs.Layouts.{IsValidLayout};
ghost use Rattle.lb_image.specs.Images.{IsImage};
ghost use Rattle.lb_system.specs.RunReport.{cause_text, ending_text, reason_text, end_text, trace_part, events_text, source_text, interp_report, isa_report};

use lb_check::Checked;
use lb_image::Image;
use lb_isa::{Ending, run};
use lb_rv::Cause;
use lb_source::{Reason, SourceEnd, SourceRun, interpret};
use lb_trace::{Event, append_trace};
use lb_words::Job;
use std::alloc::{AllocError, Global};

/// The report of the source's run with the image's layout, the job's number of events as its fuel, and
/// these replies.
pub fn interp_report(
    alloc: Global,
    job: &Job,
    program: &Checked,
    replies: &[u32],
    image: &Image,
) -> Result<Vec<u8>, AllocError>
    requires { IsValidLayout image.now.layout (program_of program.now) }
    ensures { IfOk result (λ text. text.items
        ≡ interp_report job.now (program_of program.now) replies.now image.now) }
{
    let fuel = u64::from(job.events);
    let ran = interpret(alloc, program, &image.layout, fuel, replies)?;
    source_report(alloc, job.trace, &ran)
}

// The report of what a source did.
fn source_report(alloc: Global, shown: bool, ran: &SourceRun) -> Result<Vec<u8>, AllocError>
    ensures { IfOk result (λ text. text.items ≡ source_text shown ran.now) }
{
    let mut text = Vec::new(alloc);
    append_events(
        alloc,
        &mut text,
        end_words(ran.end),
        shown,
        ran.trace.as_slice(),
    )?;
    Ok(text)
}

/// The report of the run of the image's code from its entry, for at most the job's number of instructions,
/// with these replies.
pub fn isa_report(
    alloc: Global,
    job: &Job,
    replies: &[u32],
    image: &Image,
) -> Result<Vec<u8>, AllocError>
    requires { IsImage image.now }
    ensures { IfOk result (λ text. text.items ≡ isa_report job.now replies.now image.now) }
{
    let ran = run(
        alloc,
        image.code.as_slice(),
        image.entry,
        replies,
        job.events,
    )?;
    let committed = ran.committed;
    let first = format!(in alloc; "done {committed}\n")?;
    let mut text = Vec::from_slice(alloc, first.as_bytes())?;
    append_events(
        alloc,
        &mut text,
        ending_words(ran.ending),
        job.trace,
        ran.trace.as_slice(),
    )?;
    Ok(text)
}

// Adds how many events there are, how the run ended, and the events where they are shown.
fn append_events(
    alloc: Global,
    text: &mut Vec<u8>,
    ending: &[u8],
    shown: bool,
    trace: &[Event],
) -> Result<(), AllocError>
    ensures { OnOk result (text.new.items
        ≡ text.old.items ++ events_text ending.now shown trace.now) }
{
    let count = trace.len();
    let first = format!(in alloc; "mmio {count}\nend ")?;
    text.extend_from_slice(first.as_bytes())?;
    text.extend_from_slice(ending)?;
    text.extend_from_slice(b"\n")?;
    append_shown(text, shown, trace)
}

/// Adds the events where they are shown.
pub fn append_shown(text: &mut Vec<u8>, shown: bool, trace: &[Event]) -> Result<(), AllocError>
    ensures { OnOk result (text.new.items ≡ text.old.items ++ trace_part shown trace.now) }
{
    if !shown {
        return Ok(());
    }
    text.extend_from_slice(b"trace\n")?;
    append_trace(text, trace)?;
    Ok(())
}

// How a run of the source ended, in words.
fn end_words(end: SourceEnd) -> &'static [u8]
    ensures { result.now ≡ end_text end }
{
    match end {
        SourceEnd::Spent => b"spent",
        SourceEnd::Starved => b"starved",
        SourceEnd::Undefined(reason) => match reason {
            Reason::UnsetVariable => b"undefined unset-variable",
            Reason::NotOwned => b"undefined not-owned",
            Reason::UnsetByte => b"undefined unset-byte",
            Reason::Unaligned => b"undefined unaligned",
            Reason::OutOfRange => b"undefined out-of-range",
        },
    }
}

/// How a run of the code ended, in words.
pub fn ending_words(ending: Ending) -> &'static [u8]
    ensures { result.now ≡ ending_text ending }
{
    match ending {
        Ending::Running => b"running",
        Ending::WantsReply => b"wants-reply",
        Ending::Halted { cause } => match cause {
            Cause::BadPc => b"halted bad-pc",
            Cause::UnknownWord => b"halted unknown-word",
            Cause::Ecall => b"halted ecall",
            Cause::Ebreak => b"halted ebreak",
            Cause::StoreToCode => b"halted store-to-code",
            Cause::BadAccess => b"halted bad-access",
        },
    }
}
