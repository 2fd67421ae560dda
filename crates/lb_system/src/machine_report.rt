// The reports of machines, and of verdicts.
ghost use Rattle.std.specs.Prelude.{◌≡◌, ◌++◌, IfOk, OnOk, List, ℕ, filter, length};
ghost use Rattle.lb_grammar.specs.Forms.{Begins};
ghost use Rattle.lb_grammar.specs.Grammar.{good};
ghost use Rattle.lb_machine.specs.Logs.{HaveWorkers};
ghost use Rattle.lb_machine.specs.Machines.{IsReplay, replayed, state_in};
ghost use Rattle.lb_system.specs.MachineReport.{IsLampReport, IsMachineReport, IsLogPart, IsReportOf, counts_text, ending_lines, ending_of, is_arrival, is_switch, lamp_text, rounds_text, verdict_text};
ghost use Rattle.lb_system.specs.RunReport.{ending_text};

use crate::run_report::{append_shown, ending_words};
use lb_grammar::{Verdict, judge};
use lb_isa::Ending;
use lb_lines::print_log;
use lb_machine::Machine;
use lb_rv::Cause;
use lb_trace::{Entry, Event, Kind};
use lb_words::Job;
use std::alloc::{AllocError, Global};

/// The address of the register of the pins' output values. The lamp is at one of these pins.
const OUTPUT_VALUE: u32 = 0x1001_200C;

/// The report of a machine.
pub fn machine_report(alloc: Global, job: &Job, machine: &Machine) -> Result<Vec<u8>, AllocError>
    ensures { IfOk result (λ text.
        IsMachineReport job.now machine.now.fixed.job machine.now.log text.items) }
{
    report_of(alloc, job, b"", machine)
}

/// The report of a machine whose trace is a prefix of one of the lamp's grammar.
pub fn lamp_report(alloc: Global, job: &Job, machine: &Machine) -> Result<Vec<u8>, AllocError>
    requires { Begins good machine.now.trace }
    ensures { IfOk result (λ text.
        IsLampReport job.now machine.now.fixed.job machine.now.log text.items) }
{
    let Verdict::Prefix { rounds } = judge(machine.trace()) else {
        unreachable!()
    };
    let switches = switches_in(machine.trace());
    let between = format!(in alloc; "switches {switches}\nrounds {rounds}\n")?;
    report_of(alloc, job, between.as_bytes(), machine)
}

// The report of a machine, with these lines before the line `end`.
fn report_of(
    alloc: Global,
    job: &Job,
    between: &[u8],
    machine: &Machine,
) -> Result<Vec<u8>, AllocError>
    ensures told { IfOk result (λ text.
        IsReportOf job.now between.now machine.now.log (replayed machine.now) text.items) }
    ensures replay { IsReplay machine.now }
{
    let log = machine.log();
    let mut text = Vec::new(alloc);
    append_counts(alloc, &mut text, machine)?;
    text.extend_from_slice(between)?;
    append_ending(&mut text, job.trace, machine)?;
    append_log(alloc, &mut text, job.log, log)?;
    Ok(text)
}

// Adds the lines up to `lamp`.
fn append_counts(alloc: Global, text: &mut Vec<u8>, machine: &Machine) -> Result<(), AllocError>
    ensures { OnOk result (text.new.items
        ≡ text.old.items ++ counts_text machine.now.log (state_in machine.now)) }
{
    let events = machine.log().len();
    let done = machine.core().done();
    let retired = machine.core().retired();
    let mmio = machine.trace().len();
    let arrived = arrivals_in(machine.log());
    let first = format!(in alloc;
        "events {events}\ndone {done}\nretired {retired}\nmmio {mmio}\narrived {arrived}\nlamp "
    )?;
    text.extend_from_slice(first.as_bytes())?;
    text.extend_from_slice(lamp_word(machine.board().lamp()))?;
    text.extend_from_slice(b"\n")?;
    Ok(())
}

// Adds how the core stands, and the trace where it is shown.
fn append_ending(text: &mut Vec<u8>, shown: bool, machine: &Machine) -> Result<(), AllocError>
    ensures { OnOk result (text.new.items
        ≡ text.old.items ++ ending_lines shown (state_in machine.now)) }
{
    text.extend_from_slice(b"end ")?;
    text.extend_from_slice(ending_words(ending_of(machine.core().halted())))?;
    text.extend_from_slice(b"\n")?;
    append_shown(text, shown, machine.trace())
}

// Adds the log where it is shown.
fn append_log(
    alloc: Global,
    text: &mut Vec<u8>,
    shown: bool,
    log: &[Entry],
) -> Result<(), AllocError>
    requires { HaveWorkers log.now }
    ensures { OnOk result ((part : List ℕ) × IsLogPart shown log.now part
        × (text.new.items ≡ text.old.items ++ part)) }
{
    if !shown {
        return Ok(());
    }
    let lines = print_log(alloc, log)?;
    text.extend_from_slice(b"log\n")?;
    text.extend_from_slice(&lines)?;
    Ok(())
}

// How many frames arrived in a log.
fn arrivals_in(log: &[Entry]) -> usize
    ensures { result ≡ length (filter is_arrival log.now) }
{
    log.iter()
        .filter(|entry| matches!(entry.kind, Kind::Arrive))
        .count()
}

// How often the lamp was switched in a trace.
fn switches_in(trace: &[Event]) -> usize
    ensures { result ≡ length (filter is_switch trace.now) }
{
    trace.iter().filter(|event| is_switch(event)).count()
}

// Whether the event is a store of the pins' output values.
fn is_switch(event: &Event) -> bool
    ensures { result ≡ is_switch event.now }
{
    match *event {
        Event::Ld { .. } => false,
        Event::St { addr, .. } => addr == OUTPUT_VALUE,
    }
}

// The word of a lamp.
fn lamp_word(lit: bool) -> &'static [u8]
    ensures { result.now ≡ lamp_text lit }
{
    if lit { b"on" } else { b"off" }
}

// How a core stands.
fn ending_of(halted: Option<Cause>) -> Ending
    ensures { result ≡ ending_of halted }
{
    match halted {
        None => Ending::Running,
        Some(cause) => Ending::Halted { cause },
    }
}

/// The line of a verdict.
pub fn verdict_line(alloc: Global, verdict: Verdict) -> Result<Vec<u8>, AllocError>
    ensures { IfOk result (λ text. text.items ≡ verdict_text verdict) }
{
    let line = match verdict {
        Verdict::Prefix { rounds } => format!(in alloc; "prefix rounds {rounds}\n")?,
        Verdict::Leaves { at } => format!(in alloc; "leaves at {at}\n")?,
    };
    Vec::from_slice(alloc, line.as_bytes())
}
