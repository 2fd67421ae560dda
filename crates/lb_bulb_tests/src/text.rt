// The text of the supplied program and its tree.
use lb_bulb::{program, source};
use lb_handmade::{NotChecked, checked};
use lb_syntax::Program;
use lb_text::{ReadError, print_program, read_program};
use std::alloc::{AllocError, Global};
use std::test::Fail;

// The most bytes of a text.
const MOST_BYTES: usize = 1_048_576;

// Why there is nothing to compare.
#[derive(Clone, Copy, Debug, PartialEq, Eq)]
enum NoAnswer {
    // The text is no program's.
    Text,
    // The program breaks a rule.
    Rules,
    // No memory is left.
    Memory,
}

impl From<AllocError> for NoAnswer {
    fn from(_: AllocError) -> Self {
        NoAnswer::Memory
    }
}

// The program of the text.
fn read_source(alloc: Global) -> Result<Program, NoAnswer> {
    let text = source();
    if text.len() > MOST_BYTES {
        return Err(NoAnswer::Text);
    }
    match read_program(alloc, text) {
        Ok(program) => Ok(program),
        Err(ReadError::Text(_)) => Err(NoAnswer::Text),
        Err(ReadError::Memory) => Err(NoAnswer::Memory),
    }
}

// How many functions the program has, and what it needs.
fn needs_line(alloc: Global, program: Program) -> Result<String, NoAnswer> {
    let functions = program.functions.len();
    match checked(alloc, program) {
        Ok(checked) => {
            let words = checked.needs().words;
            let stack = checked.needs().stack;
            Ok(format!(in alloc; "ok functions {functions} words {words} stack {stack}")?)
        }
        Err(NotChecked::Memory) => Err(NoAnswer::Memory),
        Err(_) => Err(NoAnswer::Rules),
    }
}

// Whether the program of the text and the tree are printed the same.
fn are_same(alloc: Global) -> Result<bool, NoAnswer> {
    let read = print_program(alloc, &read_source(alloc)?)?;
    let built = print_program(alloc, &program(alloc)?)?;
    Ok(read.as_slice() == built.as_slice())
}

#[test]
fn text_is_the_tree(rt: HostRuntime) -> Result<(), Fail> {
    let want = "ok functions 5 words 3066 stack 2036";
    assert_eq!(rt; source().len(), 2370);
    assert_eq!(rt; are_same(rt.alloc()), Ok(true));
    let line = read_source(rt.alloc()).and_then(|p| needs_line(rt.alloc(), p));
    assert!(rt; is_line(&line, want));
    let line = needs_line(rt.alloc(), program(rt.alloc())?);
    assert!(rt; is_line(&line, want));
    Ok(())
}

fn is_line(line: &Result<String, NoAnswer>, want: &str) -> bool {
    match line {
        Ok(line) => line.as_str() == want,
        Err(_) => false,
    }
}
