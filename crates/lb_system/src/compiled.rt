// The modes that compile the source, and show its image.
ghost use Rattle.std.specs.Prelude.{◌≡◌, ◌≤◌, length, IfOk, IfErr, true, false};
ghost use Rattle.lb_syntax.specs.Tree.{program_of};
ghost use Rattle.lb_correctness.specs.Images.{IsCompiled};
ghost use Rattle.lb_words.specs.declared.job.Mode.TheVariants as mode;
ghost use Rattle.lb_system.specs.Questions.{listed, AllHold};
ghost use Rattle.lb_system.specs.Answers.{ShowsListing, most_input};
ghost use Rattle.lb_system.specs.InternalAnswers.{IsModeAnswer, IsModeRefusal, IsRefusalOf, case_of};

use crate::answer::Refused;
use crate::report::list_report;
use crate::run_report::{interp_report, isa_report};
use crate::shown::Shown;
use crate::source::{open_checked, open_replied};
use lb_check::Checked;
use lb_compile::compile;
use lb_image::{Image, to_bytes};
use lb_words::Job;
use std::alloc::{AllocError, Global};

/// Compiles the source, and shows the bytes of its image.
pub fn compile_mode(alloc: Global, job: &Job, input: &[u8]) -> Result<Shown, Refused>
    requires { length input.now ≤ most_input }
    ensures made { IfOk result (IsModeAnswer mode.Compile job.now input.now) }
    ensures refused { IfErr result (IsModeRefusal mode.Compile job.now input.now) }
{
    let (program, _) = open_checked(alloc, input, 1)?;
    let image = image_of(alloc, &program)?;
    let report = to_bytes(alloc, &image)?;
    Ok(Shown::with_image(alloc, report, image))
}

/// Compiles the source, and lists its image.
pub fn list_source(alloc: Global, job: &Job, input: &[u8]) -> Result<Shown, Refused>
    requires { length input.now ≤ most_input }
    ensures made { IfOk result (λ s.
        AllHold (case_of job.now input.now s.image) (listed false)
        × ShowsListing false input.now s) }
    ensures refused { IfErr result (IsRefusalOf (listed false) job.now input.now) }
{
    let (program, _) = open_checked(alloc, input, 1)?;
    let image = image_of(alloc, &program)?;
    let report = list_report(alloc, &image)?;
    Ok(Shown::with_image(alloc, report, image))
}

/// Runs the source as it is meant, with the layout of its image.
pub fn interp_mode(alloc: Global, job: &Job, input: &[u8]) -> Result<Shown, Refused>
    requires { length input.now ≤ most_input }
    ensures made { IfOk result (IsModeAnswer mode.Interp job.now input.now) }
    ensures refused { IfErr result (IsModeRefusal mode.Interp job.now input.now) }
{
    let (program, replies) = open_replied(alloc, input)?;
    let image = image_of(alloc, &program)?;
    let report = interp_report(alloc, job, &program, &replies, &image)?;
    Ok(Shown::with_image(alloc, report, image))
}

/// Runs the code of the source's image, one instruction after the other.
pub fn isa_mode(alloc: Global, job: &Job, input: &[u8]) -> Result<Shown, Refused>
    requires { length input.now ≤ most_input }
    ensures made { IfOk result (IsModeAnswer mode.Isa job.now input.now) }
    ensures refused { IfErr result (IsModeRefusal mode.Isa job.now input.now) }
{
    let (program, replies) = open_replied(alloc, input)?;
    let image = image_of(alloc, &program)?;
    let report = isa_report(alloc, job, &replies, &image)?;
    Ok(Shown::with_image(alloc, report, image))
}

/// The image of a program that keeps the rules.
pub fn image_of(alloc: Global, checked: &Checked) -> Result<Image, AllocError>
    ensures { IfOk result (IsCompiled (program_of checked.now)) }
{
    // That the program keeps the rules is known by its type.
    checked.program();
    compile(alloc, checked)
}
