// From a checked program to an image, one pass after the other.
ghost use Rattle.std.specs.Prelude.{◌≡◌, IfOk};
ghost use Rattle.lb_syntax.specs.Tree.{program_of};
ghost use Rattle.lb_compile.specs.Correct.{Keeps, IsLean};

use lb_alloc::allocate;
use lb_check::Checked;
use lb_emit::{Emitted, emit};
use lb_flat::flatten;
use lb_image::{Code, Image};
use lb_spill::place;
use std::alloc::{AllocError, Global};

/// The image of a program. Its layout is valid for the program, and its code has no more words than the program asks for.
/// Whatever words the devices reply, where the program does nothing undefined with fuel n: what n instructions of the code
/// do to devices is a beginning of what the program does, and the processor isn't halted behind them; and the code does what
/// the program does within (n + 1) times as many instructions as the program asks for words. If the program's functions need
/// few variables, few words of the code are loads and stores. Fails only for want of memory.
pub fn compile(alloc: Global, program: &Checked) -> Result<Image, AllocError>
    ensures keeps { IfOk result (λ image. Keeps (program_of program.now) image) }
    ensures lean { IfOk result (λ image. IsLean (program_of program.now) image) }
{
    let flat = flatten(alloc, program)?;
    let places = allocate(alloc, &flat)?;
    let placed = place(alloc, &flat, &places)?;
    let emitted = emit(alloc, &placed)?;
    Ok(image_of(emitted))
}

// What was emitted, as an image.
fn image_of(emitted: Emitted) -> Image
    ensures { let code = emitted.code.items in
        result ≡ record { code = code; layout = emitted.layout; entry = emitted.entry } }
{
    Image {
        code: Code::from_vec(emitted.code),
        layout: emitted.layout,
        entry: emitted.entry,
    }
}
