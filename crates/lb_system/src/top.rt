// The top call.
ghost use Rattle.std.specs.Prelude.{◌≡◌, ◌≢◌, ◌≤◌, [], true, false, length, Some, IfOk, OnOk, IfErr, map, string_bytes};
ghost use Rattle.lb_crew.specs.Crews.{CallsFinish, Finishes, MayCall};
ghost use Rattle.lb_system.specs.declared.crew.Workers.TheVariants as workers;
ghost use Rattle.lb_system.specs.Request.{IsRequest};
ghost use Rattle.lb_system.specs.Faults.{fault_line, status_of};
ghost use Rattle.lb_system.specs.Views.{shown_by};
ghost use Rattle.lb_system.specs.Questions.{reads};
ghost use Rattle.lb_system.specs.Answers.{AskForInput, IsRead, IsReport, WritesLine, WritesReport, most_input, port};
ghost use Rattle.lb_system.specs.Calls.{EndsRightly};
ghost use Rattle.lb_system.specs.Headline.{RunsRightly};
ghost use Rattle.lb_system.specs.InternalAnswers.{IsReason, IsTold, LeavesUnread};

use crate::answer::{Refused, answer_to};
use crate::crew::{Crew, Workers};
use crate::fault::Fault;
use crate::line::{fixed_line, told_line};
use crate::request::{has_input, request_of};
use crate::shown::Shown;
use lb_correctness::{lamp_keeps, machines_keep};
use lb_crew::{race, serial};
use lb_image::Image;
use lb_machine::Machine;
use lb_ports::{Gate, Sink, Source, read_all, write_all};
use lb_trace::Entry;
use lb_words::Job;
use std::alloc::{AllocError, Global};
use std::sync::Wait;
use std::thread::Threads;

/// How a call ended.
#[derive(Drop)]
pub struct Ended {
    /// 0, or the status of the fault.
    pub status: u8,
    /// The machine's log, in the modes that have one, where the status is 0 or 7; else it is empty.
    pub log: Vec<Entry>,
    /// The compiled image that the call used; none unless the mode compiles and the status is 0 or 7, or
    /// an entry of a log couldn't be fired on it.
    pub image: Option<Image>,
    /// Why there is no whole report.
    pub fault: Option<Fault>,
}

const MOST_INPUT: u32 = 1_048_576;

/// Does what the words say with what is read from `input`, and writes the report to `output`, or the
/// line of the fault. In the modes `run` and `lamp` worker 0 does all, whatever the number of workers.
/// It waits for nobody and always returns.
pub fn plain<I: Source, O: Sink>(
    alloc: Global,
    words: &[String],
    input: &mut I,
    output: &mut O,
) -> Ended
    ensures rightly { EndsRightly workers.Alone (map string_bytes words.now)
        (port I.left I.faults input.old input.new)
        (port O.held O.faults output.old output.new) result }
    ensures unread { ¬ (AskForInput (map string_bytes words.now)) → input.new ≡ input.old }
    ensures runs { RunsRightly workers.Alone (map string_bytes words.now)
        (port I.left I.faults input.old input.new)
        (port O.held O.faults output.old output.new) result }
{
    let finish = |_: Global, machine: Machine, workers: u8, seed: u32|
        requires { (1 ≤ workers) × (workers ≤ 8) }
        ensures { IfOk result (Finishes seed workers machine) }
    { Ok(serial(machine, seed)) };
    let crew = Crew {
        finish,
        workers: Workers::Alone,
    };
    call(alloc, &crew, words, input, output)
}

/// The same, but in the modes `run` and `lamp` as many workers as the words say race to fire the
/// machine's kinds, each on a thread of its own where there are two or more; each passes the gate before
/// each of its tries. It waits for the workers.
pub fn bulb<R: Threads + Wait + Sync, I: Source, O: Sink, G: Gate + Sync>(
    rt: &R,
    alloc: Global,
    words: &[String],
    input: &mut I,
    output: &mut O,
    gate: &G,
) -> Ended
    ensures rightly { EndsRightly workers.AsAsked (map string_bytes words.now)
        (port I.left I.faults input.old input.new)
        (port O.held O.faults output.old output.new) result }
    ensures unread { ¬ (AskForInput (map string_bytes words.now)) → input.new ≡ input.old }
    ensures runs { RunsRightly workers.AsAsked (map string_bytes words.now)
        (port I.left I.faults input.old input.new)
        (port O.held O.faults output.old output.new) result }
{
    let finish = |alloc: Global, machine: Machine, workers: u8, seed: u32|
        requires { (1 ≤ workers) × (workers ≤ 8) }
        ensures { IfOk result (Finishes seed workers machine) }
    { race(rt, alloc, machine, workers, seed, gate) };
    let crew = Crew {
        finish,
        workers: Workers::AsAsked,
    };
    call(alloc, &crew, words, input, output)
}

// Does what the words say; the crew fires the machine's kinds.
fn call<F: Fn(Global, Machine, u8, u32) -> Result<Machine, AllocError>, I: Source, O: Sink>(
    alloc: Global,
    crew: &Crew<F>,
    words: &[String],
    input: &mut I,
    output: &mut O,
) -> Ended
    requires callable { MayCall (F.pre crew.now.finish) }
    requires finishes { CallsFinish (F.post crew.now.finish) }
    ensures rightly { EndsRightly crew.now.workers (map string_bytes words.now)
        (port I.left I.faults input.old input.new)
        (port O.held O.faults output.old output.new) result }
    ensures unread { ¬ (AskForInput (map string_bytes words.now)) → input.new ≡ input.old }
    ensures runs { RunsRightly crew.now.workers (map string_bytes words.now)
        (port I.left I.faults input.old input.new)
        (port O.held O.faults output.old output.new) result }
{
    // What holds of every legal log, whoever made it.
    machines_keep();
    lamp_keeps();
    match prepare(alloc, crew, words, input) {
        Ok(shown) => write_report(output, shown),
        Err(refused) => refuse(alloc, output, refused),
    }
}

// Writes the report.
fn write_report<O: Sink>(output: &mut O, shown: Shown) -> Ended
    ensures status { result.status ≡ status_of result.fault }
    ensures shown { shown_by result shown.report ≡ shown }
    ensures report { WritesReport (port O.held O.faults output.old output.new) result.fault
        shown.report }
    ensures sink { O.faults output.old ≤ O.faults output.new }
{
    let Shown { report, log, image } = shown;
    let (status, fault) = match write_all(output, &report) {
        Ok(()) => (0, None),
        Err(_) => (Fault::Write.status(), Some(Fault::Write)),
    };
    Ended {
        status,
        log,
        image,
        fault,
    }
}

// Writes the line of a fault. Where there is no memory for it, it is the line of this want.
fn refuse<O: Sink>(alloc: Global, output: &mut O, refused: Refused) -> Ended
    requires { refused.fault ≢ Fault.Write }
    ensures status { result.status ≡ status_of result.fault }
    ensures told { IsTold refused result.fault result.image }
    ensures line { WritesLine (port O.held O.faults output.old output.new) result.fault }
    ensures log { result.log.items ≡ [] }
    ensures sink { O.faults output.old ≤ O.faults output.new }
{
    if let Some(line) = fixed_line(&refused.fault) {
        return write_line(alloc, output, line, refused);
    }
    match told_line(alloc, &refused.fault) {
        Ok(line) => write_line(alloc, output, &line, refused),
        Err(AllocError) => {
            let memory = Refused::without_image(Fault::Memory);
            write_line(alloc, output, b"memory\n", memory)
        }
    }
}

// Writes the line of a fault; that its own write may be refused changes nothing.
fn write_line<O: Sink>(alloc: Global, output: &mut O, line: &[u8], refused: Refused) -> Ended
    requires no_write { refused.fault ≢ Fault.Write }
    requires line { line.now ≡ fault_line refused.fault }
    ensures status { result.status ≡ status_of result.fault }
    ensures fault { result.fault ≡ Some refused.fault }
    ensures image { result.image ≡ refused.image }
    ensures line { WritesLine (port O.held O.faults output.old output.new) result.fault }
    ensures log { result.log.items ≡ [] }
    ensures sink { O.faults output.old ≤ O.faults output.new }
{
    let _ = write_all(output, line);
    let Refused { fault, image } = refused;
    Ended {
        status: fault.status(),
        log: Vec::new(alloc),
        image,
        fault: Some(fault),
    }
}

// Reads the words and the input, and does what is asked for.
fn prepare<F: Fn(Global, Machine, u8, u32) -> Result<Machine, AllocError>, I: Source>(
    alloc: Global,
    crew: &Crew<F>,
    words: &[String],
    input: &mut I,
) -> Result<Shown, Refused>
    requires callable { MayCall (F.pre crew.now.finish) }
    requires finishes { CallsFinish (F.post crew.now.finish) }
    ensures made { IfOk result (IsReport crew.now.workers (map string_bytes words.now)
        (port I.left I.faults input.old input.new)) }
    ensures reason { IfErr result (λ r. IsReason (map string_bytes words.now)
        (port I.left I.faults input.old input.new) r.fault r.image) }
    ensures unread { ¬ (AskForInput (map string_bytes words.now)) → input.new ≡ input.old }
    ensures steady { OnOk result (I.faults input.new ≡ I.faults input.old) }
    ensures stays { IfErr result (λ r. r.fault ≢ Fault.Read
        → I.faults input.new ≡ I.faults input.old) }
    ensures source { I.faults input.old ≤ I.faults input.new }
{
    let job = request_of(alloc, words)?;
    let bytes = input_of(alloc, &job, input)?;
    answer_to(alloc, crew, &job, &bytes)
}

// The input of a job; nothing is read where it has none.
fn input_of<I: Source>(alloc: Global, job: &Job, input: &mut I) -> Result<Vec<u8>, Fault>
    ensures read { IfOk result (λ bytes. IsRead (reads job.now)
        (port I.left I.faults input.old input.new) bytes.items) }
    ensures unread { reads job.now ≡ false → input.new ≡ input.old }
    ensures asked { IfErr result (λ f. reads job.now ≡ true) }
    ensures within { IfOk result (λ bytes. length bytes.items ≤ most_input) }
    ensures refused { IfErr result
        (LeavesUnread (port I.left I.faults input.old input.new)) }
    ensures steady { OnOk result (I.faults input.new ≡ I.faults input.old) }
    ensures stays { IfErr result (λ f. f ≢ Fault.Read
        → I.faults input.new ≡ I.faults input.old) }
    ensures later { I.faults input.old ≤ I.faults input.new }
{
    if !has_input(job) {
        return Ok(Vec::new(alloc));
    }
    Ok(read_all(alloc, input, MOST_INPUT)?)
}
