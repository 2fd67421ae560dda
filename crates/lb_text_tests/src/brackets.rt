// How many brackets are open at once in the printing of a program.
ghost use Rattle.std.specs.Prelude.{◌<◌, ◌^◌};

use crate::answer::{MOST_BYTES, NoAnswer, answer};
use lb_handmade::has_few_parts;
use lb_syntax::{Block, Cmd, Expr, Function, Name, NameFault, Program, brackets};
use lb_text::{ReadError, print_program, read_program};
use sqlite_items::Items;
use std::alloc::{AllocError, Global};

// The most brackets; None of a program that is too large.
#[tactic(auto, using(crate::proofs::PartLemmas::fewer_parts))]
fn most_open(program: &Program) -> Option<u32> {
    if has_few_parts(program) {
        Some(brackets(program))
    } else {
        None
    }
}

// The most brackets of the program of a text; None of a text that is none's.
fn most_open_of(alloc: Global, text: &[u8]) -> Result<Option<u32>, NoAnswer> {
    if text.len() > MOST_BYTES {
        return Err(NoAnswer::Large);
    }
    match read_program(alloc, text) {
        Ok(program) => Ok(most_open(&program)),
        Err(ReadError::Text(_)) => Ok(None),
        Err(ReadError::Memory) => Err(NoAnswer::Memory),
    }
}

#[test]
fn counts_the_brackets_of_a_printing(rt: HostRuntime) -> Result<(), NoAnswer> {
    for (text, most) in [
        ("", 0u32),
        ("fn f(){}", 1),
        ("fn f(a, b) -> (c) { c = 1; }", 1),
        ("fn f() { // ((((\n skip; }", 1),
        ("fn f() { x = (1 + 2); }", 2),
        ("fn f() { f(); } fn g() { x = load1((1 + (2 * 3))); }", 4),
        ("fn f() { f((1 + 2)); store4(x, load2(4)); }", 3),
        ("fn f() { if (a < b) { } else { while 1 { skip; } } }", 3),
        ("fn f() { stackalloc 8 as p { MMIOWRITE(p, (p + 4)); } }", 4),
    ] {
        let counted = most_open_of(rt.alloc(), text.as_bytes())?;
        assert_eq!(rt; counted, Some(most), "of {text}");
    }
    Ok(())
}

// A name.
fn name(alloc: Global, bytes: &[u8]) -> Result<Name, AllocError> {
    match Name::new(alloc, bytes) {
        Ok(name) => Ok(name),
        Err(NameFault::NotAName | NameFault::Memory) => Err(AllocError),
    }
}

// A function's body that nests so many loops.
fn nested_loops(alloc: Global, loops: u32) -> Result<Block, AllocError> {
    let mut body = Block {
        commands: Items::new(alloc),
    };
    for _ in 0..loops {
        let inner = Cmd::While {
            condition: Expr::Literal(1),
            body,
        };
        let mut commands = Items::new(alloc);
        commands.push(inner)?;
        body = Block { commands };
    }
    Ok(body)
}

// A program of one function, whose body nests so many loops.
fn nested(alloc: Global, loops: u32) -> Result<Program, AllocError> {
    let f = Function {
        name: name(alloc, b"f")?,
        params: Items::new(alloc),
        results: Items::new(alloc),
        body: nested_loops(alloc, loops)?,
    };
    let mut functions = Items::new(alloc);
    functions.push(f)?;
    Ok(Program { functions })
}

// Whether the program has so many brackets, and its printing is read as its program, or refused as too deep.
fn nests(alloc: Global, loops: u32, most: u32, is_read: bool) -> Result<bool, NoAnswer> {
    let program = nested(alloc, loops)?;
    let printed = print_program(alloc, &program)?;
    let told = answer(alloc, &printed)?;
    Ok(
        most_open(&program) == Some(most)
            && (told == printed) == is_read
            && told.ends_with(b" too-deep") != is_read,
    )
}

#[test]
fn a_printing_of_65_open_brackets_is_refused(rt: HostRuntime) -> Result<(), NoAnswer> {
    assert!(rt; nests(rt.alloc(), 63, 64, true)?);
    assert!(rt; nests(rt.alloc(), 64, 65, false)?);
    Ok(())
}
