// What each mode does.
ghost use Rattle.std.specs.Prelude.{◌≡◌, ◌≤◌, ◌∷◌, ◌++◌, [], ℕ, List, length, IfOk, IfErr, true, false};
ghost use Rattle.lb_syntax.specs.Tree.{program_of};
ghost use Rattle.lb_image.specs.Images.{IsImage, image_bytes};
ghost use Rattle.lb_words.specs.declared.job.Job.{Job as Asked};
ghost use Rattle.lb_words.specs.declared.job.Mode.TheVariants as mode;
ghost use Rattle.lb_system.specs.Questions.{listed, AllHold};
ghost use Rattle.lb_system.specs.Answers.{ShowsListing, most_input};
ghost use Rattle.lb_system.specs.InternalAnswers.{IsModeAnswer, IsModeRefusal, IsRefusalOf, case_of, without_image};

use crate::answer::Refused;
use crate::compiled::list_source;
use crate::fault::Fault;
use crate::machine_report::verdict_line;
use crate::report::{check_report, list_report};
use crate::shown::Shown;
use crate::source::{cut, events_of, open_checked, open_read};
use lb_grammar::judge;
use lb_image::{Image, from_bytes};
use lb_sections::section_at;
use lb_text::print_program;
use lb_words::Job;
use std::alloc::Global;

/// Checks the source, and tells what it asks for.
pub fn check_mode(alloc: Global, job: &Job, input: &[u8]) -> Result<Shown, Refused>
    requires { length input.now ≤ most_input }
    ensures made { IfOk result (IsModeAnswer mode.Check job.now input.now) }
    ensures refused { IfErr result (IsModeRefusal mode.Check job.now input.now) }
{
    let (program, _) = open_checked(alloc, input, 1)?;
    let report = check_report(alloc, &program)?;
    Ok(Shown::of_report(alloc, report))
}

/// Prints the source, and checks nothing but its grammar.
pub fn print_mode(alloc: Global, job: &Job, input: &[u8]) -> Result<Shown, Refused>
    requires { length input.now ≤ most_input }
    ensures made { IfOk result (IsModeAnswer mode.Print job.now input.now) }
    ensures refused { IfErr result (IsModeRefusal mode.Print job.now input.now) }
{
    let (program, _) = open_read(alloc, input, 1)?;
    let report = print_program(alloc, &program)?;
    Ok(Shown::of_report(alloc, report))
}

/// Lists an image, or the image of the source's program.
pub fn list_mode(alloc: Global, job: &Job, input: &[u8]) -> Result<Shown, Refused>
    requires { length input.now ≤ most_input }
    ensures made { IfOk result (IsModeAnswer mode.List job.now input.now) }
    ensures refused { IfErr result (IsModeRefusal mode.List job.now input.now) }
{
    if input.starts_with(b"LBIM".as_slice()) {
        list_image(alloc, job, input)
    } else {
        list_source(alloc, job, input)
    }
}

// Lists an image.
fn list_image(alloc: Global, job: &Job, input: &[u8]) -> Result<Shown, Refused>
    ensures made { IfOk result (λ s.
        AllHold (case_of job.now input.now s.image) (listed true)
        × ShowsListing true input.now s) }
    ensures refused { IfErr result (IsRefusalOf (listed true) job.now input.now) }
{
    let image = read_image(alloc, input)?;
    let report = list_report(alloc, &image)?;
    Ok(Shown::of_report(alloc, report))
}

// The image that the bytes are.
fn read_image(alloc: Global, input: &[u8]) -> Result<Image, Fault>
    ensures read { IfOk result (λ image. IsImage image × (input.now ≡ image_bytes image)) }
    ensures refused { IfErr result (λ f. (job : Asked)
        → IsRefusalOf (listed true) job input.now (without_image f)) }
{
    Ok(from_bytes(alloc, input)?)
}

/// Judges the accesses of devices that the input says.
pub fn judge_mode(alloc: Global, job: &Job, input: &[u8]) -> Result<Shown, Refused>
    requires { length input.now ≤ most_input }
    ensures made { IfOk result (IsModeAnswer mode.Judge job.now input.now) }
    ensures refused { IfErr result (IsModeRefusal mode.Judge job.now input.now) }
{
    let list = cut(alloc, input, 1)?;
    let events = events_of(alloc, &section_at(&list, 0))?;
    let report = verdict_line(alloc, judge(&events))?;
    Ok(Shown::of_report(alloc, report))
}
