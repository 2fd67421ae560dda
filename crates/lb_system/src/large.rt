// The mode that makes a large program of a seed, and runs it.
ghost use Rattle.std.specs.Prelude.{◌≡◌, ◌≤◌, ◌++◌, IfOk, IfErr, IfSome, OnOk, [], length, min};
ghost use Rattle.lb_image.specs.Images.{IsImage};
ghost use Rattle.lb_isa.specs.Runs.{IsBootable, isa};
ghost use Rattle.lb_system.specs.declared.fault.Fault.TheVariants as fault;
ghost use Rattle.lb_system.specs.InternalAnswers.{without_image};
ghost use Rattle.lb_system.specs.InternalLarge.{events_of};
ghost use Rattle.lb_system.specs.LargeReport.{IsCoreCount, ShowsLarge, large_report, most_counted, needs_lines, runs_lines};

use crate::answer::Refused;
use crate::compiled::image_of;
use crate::run_report::append_shown;
use crate::shown::Shown;
use lb_crew::serial_until;
use lb_gen::checked_program;
use lb_image::Image;
use lb_isa::{Isa, Stepped};
use lb_machine::{MOST_ENTRIES, Machine, Parts};
use lb_source::interpret;
use lb_trace::Event;
use lb_words::Job;
use std::alloc::{AllocError, Global};

/// The fuel of the source's run.
const FUEL: u64 = 4_000;

/// The most instructions of the run of the code.
const MOST_INSTRUCTIONS: u32 = 1_000_000;

/// The events at which the runs of the code are stopped.
const MOST_COUNTED: u32 = 64;

/// What a large program asks for, and how many events its runs make.
#[derive(Clone, Copy, Debug, PartialEq, Eq)]
pub struct Counts {
    pub functions: usize,
    /// Words of code, of 4 bytes each.
    pub words: u64,
    /// Bytes of stack.
    pub stack: u64,
    /// Of the source.
    pub mmio: usize,
    /// Of the code on the instruction machine, at most 64.
    pub isa: u32,
    /// Of the machine that one worker fires until it has made 64.
    pub core: usize,
}

/// Makes the program of the job's seed, compiles it, and tells what it asks for and does.
pub fn gen_mode(alloc: Global, job: &Job) -> Result<Shown, Refused>
    ensures made { IfOk result (ShowsLarge job.now) }
    ensures refused { IfErr result (λ r. r ≡ without_image fault.Memory) }
{
    let program = checked_program(alloc, job.seed)?;
    let image = image_of(alloc, &program)?;
    let ran = interpret(alloc, &program, &image.layout, FUEL, &[])?;
    let trace = ran.trace.as_slice();
    let counts = Counts {
        functions: program.program().functions.len(),
        words: program.needs().words,
        stack: program.needs().stack,
        mmio: trace.len(),
        isa: code_events(alloc, image.code.as_slice(), image.entry, MOST_INSTRUCTIONS)?,
        core: machine_events(alloc, job.seed, &image)?,
    };
    let report = large_report(alloc, job, &counts, trace)?;
    Ok(Shown::with_image(alloc, report, image))
}

// How many events so many instructions of the code make from its entry on, at most 64.
fn code_events(alloc: Global, code: &[u32], entry: u32, limit: u32) -> Result<u32, AllocError>
    requires { IsBootable code.now entry }
    ensures { IfOk result (λ n. n ≡ min most_counted (length (isa code.now entry [] limit).trace)) }
{
    let mut isa = Isa::boot(alloc, code, entry)?;
    let mut events = 0;
    let mut done = 0;
    while done < limit && events < MOST_COUNTED {
        match events_of(isa.step(None)) {
            Some(more) => events += more,
            None => return Ok(events),
        }
        done += 1;
    }
    Ok(events)
}

// How many events an instruction made; none where it wasn't done.
fn events_of(stepped: Stepped) -> Option<u32>
    ensures count { result ≡ events_of stepped }
    ensures one { IfSome result (λ n. n ≤ 1) }
{
    match stepped {
        Stepped::Committed { event: None } => Some(0),
        Stepped::Committed { event: Some(_) } => Some(1),
        Stepped::WantsReply | Stepped::Halted { .. } => None,
    }
}

// How many events a machine with the image's code makes that worker 0 fires by the draws of the seed.
fn machine_events(alloc: Global, seed: u32, image: &Image) -> Result<usize, AllocError>
    requires { IsImage image.now }
    ensures { IfOk result (IsCoreCount seed image.now) }
{
    let code = image.code.as_slice();
    let booted = Machine::boot(alloc, code, image.entry, Vec::new(alloc), MOST_ENTRIES)?;
    let Parts { trace, .. } = serial_until(booted, seed, MOST_COUNTED).into_parts();
    Ok(trace.len())
}

// The report of these counts and of the source's events.
fn large_report(
    alloc: Global,
    job: &Job,
    counts: &Counts,
    trace: &[Event],
) -> Result<Vec<u8>, AllocError>
    ensures { IfOk result (λ text. text.items ≡ large_report job.now counts.now trace.now) }
{
    let mut text = Vec::new(alloc);
    let seed = job.seed;
    let first = format!(in alloc; "seed {seed}\n")?;
    text.extend_from_slice(first.as_bytes())?;
    append_needs(alloc, &mut text, counts)?;
    append_runs(alloc, &mut text, counts)?;
    append_shown(&mut text, job.trace, trace)?;
    Ok(text)
}

// Adds the lines of what the program asks for.
fn append_needs(alloc: Global, text: &mut Vec<u8>, counts: &Counts) -> Result<(), AllocError>
    ensures { OnOk result (text.new.items ≡ text.old.items ++ needs_lines counts.now) }
{
    let Counts {
        functions,
        words,
        stack,
        ..
    } = *counts;
    let lines = format!(in alloc; "functions {functions}\nwords {words}\nstack {stack}\n")?;
    text.extend_from_slice(lines.as_bytes())?;
    Ok(())
}

// Adds the lines of its runs.
fn append_runs(alloc: Global, text: &mut Vec<u8>, counts: &Counts) -> Result<(), AllocError>
    ensures { OnOk result (text.new.items ≡ text.old.items ++ runs_lines counts.now) }
{
    let Counts {
        mmio,
        isa,
        core,
        ..
    } = *counts;
    let lines = format!(in alloc; "mmio {mmio}\nisa {isa}\ncore {core}\n")?;
    text.extend_from_slice(lines.as_bytes())?;
    Ok(())
}
