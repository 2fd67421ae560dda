// The mode `gen`, and what other modes say of the same programs.
use lb_gen::large_program;
use lb_testkit::call::{Call, told_by_plain, whole, words_of_line};
use lb_text::print_program;
use std::alloc::{AllocError, Global};
use std::process::Abort;
use std::test::Fail;

// The lines of every seed, as scripts/large works them out: what the program asks for, and the 64 events of which each numbered
// function makes one.
const LINES: &str = "functions 66\nwords 18232\nstack 10640\nmmio 64\nisa 64\ncore 64\n";

// The words behind the program's name, and the seed that they ask for.
const ROWS: [(&str, u32); 7] = [
    ("gen --seed 7", 7),
    ("gen --seed 7", 7),
    ("--seed=1 gen", 1),
    ("gen", 0),
    ("gen --seed 4294967295 --log", 4_294_967_295),
    ("gen --workers 8 --seed +0 --events 1", 0),
    // of the seed whose stream begins at 1
    ("gen --seed 2654435769", 2_654_435_769),
];

// What the words tell. The mode reads nothing, so no read can fail.
fn told_of_line(alloc: Global, line: &str) -> Result<String, AllocError> {
    let words = words_of_line(alloc, line)?;
    let call = Call {
        read_fails: &[0],
        ..whole(&words, b"%%\n")
    };
    told_by_plain(alloc, &call)
}

// What is told of the large program of a seed.
fn made(alloc: Global, seed: u32) -> Result<String, AllocError> {
    format!(in alloc; "0 image\nseed {seed}\n{LINES}")
}

// Asserts that the words make the large program of the seed.
fn makes(rt: &impl Abort, alloc: Global, line: &str, seed: u32) -> Result<(), AllocError> {
    let want = made(alloc, seed)?;
    let got = told_of_line(alloc, line)?;
    assert_eq!(rt; got.as_str(), want.as_str(), "of {line}");
    Ok(())
}

#[test]
fn makes_large_programs(rt: HostRuntime) -> Result<(), Fail> {
    for (line, seed) in ROWS {
        makes(&rt, rt.alloc(), line, seed)?;
    }
    Ok(())
}

// A report that isn't written at all is told by the status, and the image shown.
#[test]
fn a_write_of_gen_fails(rt: HostRuntime) -> Result<(), Fail> {
    let call = Call {
        write_fails: &[0],
        ..whole(&["bulb", "gen"], b"")
    };
    let got = told_by_plain(rt.alloc(), &call)?;
    assert_eq!(rt; got.as_str(), "7 image\n");
    Ok(())
}

// What a text behind its beginning is; the whole text where it begins otherwise.
fn behind<'a>(text: &'a str, begin: &str) -> &'a str {
    text.strip_prefix(begin).unwrap_or(text)
}

// What the words tell of a text.
fn told_of_text(alloc: Global, line: &str, text: &[u8]) -> Result<String, AllocError> {
    let words = words_of_line(alloc, line)?;
    told_by_plain(alloc, &whole(&words, text))
}

// Asserts that the words tell of a text what begins so, and then the events.
fn tells(
    rt: &impl Abort,
    alloc: Global,
    line: &str,
    text: &[u8],
    want: (&str, &str),
) -> Result<(), AllocError> {
    let (begin, events) = want;
    let got = told_of_text(alloc, line, text)?;
    assert_eq!(rt; behind(&got, begin), events, "of {line}");
    Ok(())
}

// Asserts that `gen` shows the events of the seed's program.
fn gen_tells(rt: &impl Abort, alloc: Global, seed: u32, events: &str) -> Result<(), AllocError> {
    let line = format!(in alloc; "gen --trace --seed {seed}")?;
    let begin = made(alloc, seed)?;
    let got = told_of_line(alloc, &line)?;
    assert_eq!(rt; behind(&got, &begin), events, "of {seed}");
    Ok(())
}

// Asserts that `check` finds the needs of a large program in the text, and `isa` makes the events.
fn text_tells(rt: &impl Abort, alloc: Global, text: &[u8], events: &str) -> Result<(), AllocError> {
    let needs = "0\nok functions 66 words 18232 stack 10640\n";
    tells(rt, alloc, "check", text, (needs, ""))?;
    let run = "0 image\ndone 30000\nmmio 64\nend running\n";
    tells(rt, alloc, "isa --trace --events 30000", text, (run, events))
}

// The text of a seed's program.
fn text_of(alloc: Global, seed: u32) -> Result<Vec<u8>, AllocError> {
    print_program(alloc, &large_program(alloc, seed)?)
}

// `check` finds the needs of a large program in the text, `interp` and `isa` make the same 64 events of it, and `gen` shows
// those of `interp`.
#[test]
fn texts_do_what_gen_shows(rt: HostRuntime) -> Result<(), Fail> {
    for seed in [7, 4_294_967_295] {
        let text = text_of(rt.alloc(), seed)?;
        let told = told_of_text(rt.alloc(), "interp --trace --events 4000", &text)?;
        let events = behind(&told, "0 image\nmmio 64\nend spent\n");
        text_tells(&rt, rt.alloc(), &text, events)?;
        gen_tells(&rt, rt.alloc(), seed, events)?;
    }
    Ok(())
}
