// The modes that run an image on the machine.
ghost use Rattle.std.specs.Prelude.{◌≡◌, ◌≤◌, Some, IfOk, IfErr, length};
ghost use Rattle.lb_bulb.specs.Supplied.{supplied};
ghost use Rattle.lb_board.specs.Script.{IsScript};
ghost use Rattle.lb_image.specs.Images.{IsImage};
ghost use Rattle.lb_machine.specs.Logs.{HaveWorkers, IsLegal, most_entries};
ghost use Rattle.lb_machine.specs.Machines.{IsReplayOf};
ghost use Rattle.lb_machine.specs.Replays.{IsRightFault};
ghost use Rattle.lb_crew.specs.Crews.{CallsFinish, MayCall};
ghost use Rattle.lb_correctness.specs.Machines.{job_on};
ghost use Rattle.lb_words.specs.declared.job.Mode.TheVariants as mode;
ghost use Rattle.lb_system.specs.Answers.{IsCrewsMachine, most_input};
ghost use Rattle.lb_system.specs.InternalAnswers.{IsCrewAnswer, IsInRange, IsModeAnswer, IsModeRefusal, refused_log};

use crate::answer::Refused;
use crate::compiled::image_of;
use crate::crew::{Crew, workers_of};
use crate::fault::{Fault, FormFault};
use crate::machine_report::{lamp_report, machine_report};
use crate::shown::Shown;
use crate::source::{cut, frames_of, log_of, open_framed};
use lb_correctness::{lamp_keeps, supplied_image};
use lb_image::Image;
use lb_machine::{Machine, ReplayFault, replay};
use lb_sections::section_at;
use lb_trace::{Entry, Frame};
use lb_words::Job;
use std::alloc::{AllocError, Global};

/// Compiles the source, and lets a crew run its image on the machine.
pub fn run_mode<F: Fn(Global, Machine, u8, u32) -> Result<Machine, AllocError>>(
    alloc: Global,
    crew: &Crew<F>,
    job: &Job,
    input: &[u8],
) -> Result<Shown, Refused>
    requires short { length input.now ≤ most_input }
    requires range { IsInRange job.now }
    requires callable { MayCall (F.pre crew.now.finish) }
    requires finishes { CallsFinish (F.post crew.now.finish) }
    ensures made { IfOk result (IsCrewAnswer crew.now.workers mode.Run job.now input.now) }
    ensures refused { IfErr result (IsModeRefusal mode.Run job.now input.now) }
{
    let (program, frames, _) = open_framed(alloc, input, 2)?;
    let image = image_of(alloc, &program)?;
    let machine = finished(alloc, crew, job, &image, frames)?;
    let report = machine_report(alloc, job, &machine)?;
    Ok(Shown::with_log(report, machine.into_parts().log, image))
}

/// Lets a crew run the supplied program's image on the machine.
pub fn lamp_mode<F: Fn(Global, Machine, u8, u32) -> Result<Machine, AllocError>>(
    alloc: Global,
    crew: &Crew<F>,
    job: &Job,
    input: &[u8],
) -> Result<Shown, Refused>
    requires short { length input.now ≤ most_input }
    requires range { IsInRange job.now }
    requires callable { MayCall (F.pre crew.now.finish) }
    requires finishes { CallsFinish (F.post crew.now.finish) }
    ensures made { IfOk result (IsCrewAnswer crew.now.workers mode.Lamp job.now input.now) }
    ensures refused { IfErr result (IsModeRefusal mode.Lamp job.now input.now) }
{
    let list = cut(alloc, input, 1)?;
    let frames = frames_of(alloc, &section_at(&list, 0))?;
    let image = supplied_image(alloc)?;
    let machine = finished(alloc, crew, job, &image, frames)?;
    // The trace is a prefix of one of the grammar.
    lamp_keeps();
    let report = lamp_report(alloc, job, &machine)?;
    Ok(Shown::with_log(report, machine.into_parts().log, image))
}

/// Compiles the source, and replays a log on the machine with its image.
pub fn replay_mode(alloc: Global, job: &Job, input: &[u8]) -> Result<Shown, Refused>
    requires { length input.now ≤ most_input }
    ensures made { IfOk result (IsModeAnswer mode.Replay job.now input.now) }
    ensures refused { IfErr result (IsModeRefusal mode.Replay job.now input.now) }
{
    let (program, frames, list) = open_framed(alloc, input, 3)?;
    let log = log_of(alloc, &section_at(&list, 2))?;
    let image = image_of(alloc, &program)?;
    let machine = match replayed(alloc, &image, frames, &log) {
        Ok(machine) => machine,
        Err(fault) => return Err(refused_log(fault, image)),
    };
    let report = machine_report(alloc, job, &machine)?;
    Ok(Shown::with_log(report, machine.into_parts().log, image))
}

// The machine that a crew is done with: the image runs on it from boot, while these frames arrive.
fn finished<F: Fn(Global, Machine, u8, u32) -> Result<Machine, AllocError>>(
    alloc: Global,
    crew: &Crew<F>,
    job: &Job,
    image: &Image,
    frames: Vec<Frame>,
) -> Result<Machine, AllocError>
    requires range { IsInRange job.now }
    requires callable { MayCall (F.pre crew.now.finish) }
    requires finishes { CallsFinish (F.post crew.now.finish) }
    requires image { IsImage image.now }
    requires frames { IsScript frames.items }
    ensures { IfOk result (IsCrewsMachine crew.now.workers job.now
        (job_on image.now frames.items)) }
{
    let code = image.code.as_slice();
    let machine = Machine::boot(alloc, code, image.entry, frames, job.events)?;
    (crew.finish)(alloc, machine, workers_of(crew.workers, job), job.seed)
}

// The machine with the image and these frames after a log.
fn replayed(
    alloc: Global,
    image: &Image,
    frames: Vec<Frame>,
    log: &[Entry],
) -> Result<Machine, ReplayFault>
    requires image { IsImage image.now }
    requires frames { IsScript frames.items }
    requires few { length log.now ≤ most_entries }
    requires workers { HaveWorkers log.now }
    ensures replayed { IfOk result (IsReplayOf (job_on image.now frames.items) log.now) }
    ensures legal { IfOk result (λ m. IsLegal (job_on image.now frames.items) log.now) }
    ensures refused { IfErr result (IsRightFault (job_on image.now frames.items) log.now) }
{
    replay(alloc, image.code.as_slice(), image.entry, frames, log)
}

// Why a log isn't replayed; the image is shown with an entry that can't be fired.
fn refused_log(fault: ReplayFault, image: Image) -> Refused
    ensures { result ≡ refused_log fault image }
{
    match fault {
        ReplayFault::BadEvent { at } => Refused {
            fault: Fault::Form(FormFault::Event { at }),
            image: Some(image),
        },
        ReplayFault::Memory => Refused::without_image(Fault::Memory),
    }
}
