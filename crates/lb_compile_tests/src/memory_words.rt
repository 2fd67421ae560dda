// How many loads and stores code has, and does.
use crate::answer::image_of;
use lb_isa::Isa;
use lb_program_testkit::NoProgram;
use lb_rv::{Instr, decode};
use std::alloc::{AllocError, Global};
use std::test::Fail;

// Whether the word is a load or a store.
fn accesses_memory(word: u32) -> bool {
    matches!(
        decode(word),
        Some(
            Instr::Lb { .. }
                | Instr::Lh { .. }
                | Instr::Lw { .. }
                | Instr::Lbu { .. }
                | Instr::Lhu { .. }
                | Instr::Sb { .. }
                | Instr::Sh { .. }
                | Instr::Sw { .. }
        )
    )
}

// A function that sets x to 0 and adds 1 to it 200 times, beside an empty loop.
fn many_sums(alloc: Global) -> Result<String, AllocError> {
    let mut text = String::new(alloc);
    text.push_str("fn init() { x = 0;")?;
    for _ in 0..200 {
        text.push_str(" x = (x + 1);")?;
    }
    text.push_str(" } fn loop() { }")?;
    Ok(text)
}

// How many words of the text's code are loads and stores.
fn count_accesses(alloc: Global, text: &str) -> Result<usize, NoProgram> {
    let image = image_of(alloc, text.as_bytes())?;
    let accesses = image
        .code
        .as_slice()
        .iter()
        .filter(|word| accesses_memory(**word));
    Ok(accesses.count())
}

#[test]
fn small_programs_have_few(rt: HostRuntime) -> Result<(), Fail> {
    let text = many_sums(rt.alloc())?;
    assert!(rt; count_accesses(rt.alloc(), text.as_str())? <= 176);
    Ok(())
}

#[test]
fn loops_do_few(rt: HostRuntime) -> Result<(), Fail> {
    let text = "fn init() { i = 0; while (i < 1000) { i = (i + 1); } } fn loop() { }";
    let image = image_of(rt.alloc(), text.as_bytes())?;
    let code = image.code.as_slice();
    let mut isa = Isa::boot(rt.alloc(), code, image.entry)?;
    let mut accesses = 0_u32;
    for _ in 0..2_000_u32 {
        if let Some(word) = code.get(isa.pc() as usize / 4)
            && accesses_memory(*word)
        {
            accesses += 1;
        }
        isa.step(None);
    }
    assert!(rt; accesses < 200);
    Ok(())
}
