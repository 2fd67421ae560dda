// The image of a text's program.
ghost use Rattle.std.specs.Prelude.{IfOk};
ghost use Rattle.lb_isa.specs.Runs.{IsBootable};

use lb_compile::compile;
use lb_image::Image;
use lb_program_testkit::{NoProgram, checked_program};
use std::alloc::Global;

/// The image of the text's program.
#[tactic(auto, using(crate::proofs::Bootable::bootable))]
pub fn image_of(alloc: Global, text: &[u8]) -> Result<Image, NoProgram>
    ensures { IfOk result (λ image. IsBootable image.code image.entry) }
{
    let checked = checked_program(alloc, text)?;
    Ok(compile(alloc, &checked)?)
}
