// What is answered to a request on an input.
ghost use Rattle.std.specs.Prelude.{◌≡◌, ◌≤◌, None, length, IfOk, IfErr};
ghost use Rattle.lb_crew.specs.Crews.{CallsFinish, MayCall};
ghost use Rattle.lb_system.specs.Questions.{questions};
ghost use Rattle.lb_system.specs.Answers.{most_input};
ghost use Rattle.lb_system.specs.InternalAnswers.{IsAnswer, IsInRange, IsRefusalOf, without_image};

use crate::compiled::{compile_mode, interp_mode, isa_mode};
use crate::crew::Crew;
use crate::fault::Fault;
use crate::large::gen_mode;
use crate::machines::{lamp_mode, replay_mode, run_mode};
use crate::modes::{check_mode, judge_mode, list_mode, print_mode};
use crate::shown::Shown;
use lb_image::Image;
use lb_machine::Machine;
use lb_words::{Job, Mode};
use std::alloc::{AllocError, Global};

/// Why there is no report, and the image that is shown all the same.
#[derive(Drop)]
pub struct Refused {
    pub fault: Fault,
    pub image: Option<Image>,
}

impl Refused {
    /// No image is shown.
    pub fn without_image(fault: Fault) -> Refused
        ensures { result ≡ without_image fault }
    {
        Refused { fault, image: None }
    }
}

impl From<AllocError> for Refused {
    ghost use Rattle.lb_system.specs.declared.fault.Fault.TheVariants as fault;

    ghost from_gives = { λ _ e. e ≡ without_image fault.Memory };

    fn from(_: AllocError) -> Self {
        Refused::without_image(Fault::Memory)
    }
}

impl From<Fault> for Refused {
    ghost from_gives = { λ f e. e ≡ without_image f };

    fn from(fault: Fault) -> Self {
        Refused::without_image(fault)
    }
}

/// Does a job on an input; the crew fires a machine's kinds.
pub fn answer_to<F: Fn(Global, Machine, u8, u32) -> Result<Machine, AllocError>>(
    alloc: Global,
    crew: &Crew<F>,
    job: &Job,
    input: &[u8],
) -> Result<Shown, Refused>
    requires short { length input.now ≤ most_input }
    requires range { IsInRange job.now }
    requires callable { MayCall (F.pre crew.now.finish) }
    requires finishes { CallsFinish (F.post crew.now.finish) }
    ensures made { IfOk result (IsAnswer crew.now.workers job.now input.now) }
    ensures refused { IfErr result
        (IsRefusalOf (questions job.now input.now) job.now input.now) }
{
    match job.mode {
        Mode::Check => check_mode(alloc, job, input),
        Mode::Print => print_mode(alloc, job, input),
        Mode::Compile => compile_mode(alloc, job, input),
        Mode::List => list_mode(alloc, job, input),
        Mode::Interp => interp_mode(alloc, job, input),
        Mode::Isa => isa_mode(alloc, job, input),
        Mode::Run => run_mode(alloc, crew, job, input),
        Mode::Lamp => lamp_mode(alloc, crew, job, input),
        Mode::Replay => replay_mode(alloc, job, input),
        Mode::Judge => judge_mode(alloc, job, input),
        Mode::Gen => gen_mode(alloc, job),
    }
}
