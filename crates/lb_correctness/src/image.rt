// The image of the supplied program.
ghost use Rattle.std.specs.Prelude.{◌≡◌, IfOk};
ghost use Rattle.lb_syntax.specs.Tree.{program_of};
ghost use Rattle.lb_bulb.specs.Supplied.{supplied};
ghost use Rattle.lb_correctness.specs.Images.{IsCompiled};

use lb_bulb::program;
use lb_check::{CheckError, Checked, check};
use lb_compile::compile;
use lb_image::Image;
use std::alloc::{AllocError, Global};

/// The image of the supplied program, which keeps the rules. Fails only for want of memory.
pub fn supplied_image(alloc: Global) -> Result<Image, AllocError>
    ensures compiled { IfOk result (IsCompiled supplied) }
{
    compile(alloc, &checked_program(alloc)?)
}

// The supplied program, checked.
fn checked_program(alloc: Global) -> Result<Checked, AllocError>
    ensures program { IfOk result (λ checked. program_of checked ≡ supplied) }
{
    match check(alloc, program(alloc)?) {
        Ok(checked) => Ok(checked),
        Err(CheckError::Memory) => Err(AllocError),
        Err(CheckError::Fault(_)) => unreachable!(),
    }
}
