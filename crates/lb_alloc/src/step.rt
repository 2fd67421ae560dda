// A command without blocks, as a step: it reads variables, and sets others.
ghost use Rattle.std.specs.Prelude.{◌≡◌};
ghost use Rattle.lb_flat.specs.Flat.{flat_command};
ghost use Rattle.lb_alloc.specs.InternalSteps.{IsPlain, IsStepOf};

use lb_flat::FlatCmd;
use std::marker::Model;
use std::slice::from_ref;

// The variables that a command reads: two that it names, or a list.
#[derive(Drop)]
enum Reads<'a> {
    Two([u32; 2]),
    List(&'a [u32]),
}

/// What a command without blocks does: it reads variables, and then sets others, all at once. An
/// unset counts as a setting.
#[derive(Drop)]
pub struct Step<'a> {
    reads: Reads<'a>,
    sets: &'a [u32],
}

impl<'a> Model for Step<'a> {
    ghost use Rattle.lb_flat.specs.Walks.{Step, step};
    ghost use Rattle.lb_alloc.specs.InternalSteps.{variables_of};

    ghost Value = { Step };

    ghost view = { λ s. step (variables_of s.reads) s.sets.now };
}

impl<'a> Step<'a> {
    /// The variables that are read.
    pub fn reads(&self) -> &[u32]
        ensures { result.now ≡ self.now.reads }
    {
        match &self.reads {
            Reads::Two(pair) => pair,
            Reads::List(list) => *list,
        }
    }

    /// The variables that are set.
    pub fn sets(&self) -> &[u32]
        ensures { result.now ≡ self.now.sets }
    {
        self.sets
    }
}

/// The step of a command without blocks.
pub fn step_of(c: &FlatCmd) -> Step
    requires { IsPlain (flat_command c.now) }
    ensures { IsStepOf (flat_command c.now) result }
{
    let (reads, sets): (Reads, &[u32]) = match c {
        FlatCmd::Literal { target, .. } | FlatCmd::Unset { target } => {
            (Reads::List(&[]), from_ref(target))
        }
        FlatCmd::Assign { target, source } => (Reads::List(from_ref(source)), from_ref(target)),
        FlatCmd::Binary {
            target,
            left,
            right,
            ..
        } => (Reads::Two([*left, *right]), from_ref(target)),
        FlatCmd::Load {
            target,
            address,
            ..
        } => (Reads::List(from_ref(address)), from_ref(target)),
        FlatCmd::Store { address, value, .. } => (Reads::Two([*address, *value]), &[]),
        FlatCmd::Call {
            targets,
            arguments,
            ..
        }
        | FlatCmd::Interact {
            targets,
            arguments,
            ..
        } => (Reads::List(arguments.as_slice()), targets.as_slice()),
        _ => unreachable!(),
    };
    Step { reads, sets }
}
