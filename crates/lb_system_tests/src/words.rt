// Words with options, which `check` takes and does nothing with, and the forms of the number of events, which `run` makes.
use lb_testkit::call::{told_by_plain, whole, words_of_line};
use std::alloc::{AllocError, Global};
use std::test::Fail;

const EMPTY: &[u8] = b"fn init() { } fn loop() { }";

const USAGE: &str = "1\nusage: bulb MODE [--events N] [--workers W] [--seed S] [--log] [--trace]\n";

// Words behind the program's name, with a blank between them, that ask for `check`.
const TAKEN: &str = "check
check --events 1 --workers 1 --seed 0
--events=+4000000 --workers=8 check --seed=4294967295
--log check --trace
check --seed 007 --events=5
-- check
--log -- check
check --";

// Words that are refused.
const REFUSED: &str = "--help
--events 5
isa --events 0
isa isa
lamp lamp
run 1000
run 01
run run
run --events
run --events 0
run --workers 9
run --events 5 --events 5
check check
check print
check x
check 1
print print
print 1
Check 1
PRINT
checks
prin
check --events 5 --events 5
check --events 0
check --events 4000001
check --workers 0
check --workers=9
check --seed 4294967296
check --seed -1
check --events=
check --events
check --events ++5
check --log --log
check --log=true
check --LOG
check --even 5
check -h
check --help
check --version
check -- --log
help
lamp judge
Check";

// Words that are refused and no line has: empty ones, one with a blank, and a mode before another name.
const REFUSED_WORDS: [&[&str]; 5] = [
    &["bulb", ""],
    &["bulb", "", "check"],
    &["bulb", "check", ""],
    &["bulb", " check"],
    &["check", "bulb"],
];

// What the program tells the words of a line.
fn told(alloc: Global, line: &str) -> Result<String, AllocError> {
    let words = words_of_line(alloc, line)?;
    told_by_plain(alloc, &whole(&words, EMPTY))
}

#[test]
fn takes_options(rt: HostRuntime) -> Result<(), Fail> {
    for (lines, want) in [
        (TAKEN, "0\nok functions 2 words 176 stack 136\n"),
        (REFUSED, USAGE),
    ] {
        for line in lines.lines() {
            let got = told(rt.alloc(), line)?;
            assert_eq!(rt; got.as_str(), want, "of {line}");
        }
    }
    Ok(())
}

// What the program tells the words of both lines; where it differs, one behind the other.
fn told_of_both(alloc: Global, line: &str, other: &str) -> Result<String, AllocError> {
    let one = told(alloc, line)?;
    let two = told(alloc, other)?;
    if one == two {
        Ok(one)
    } else {
        format!(in alloc; "{line}: {one}{other}: {two}")
    }
}

// Both are a run of five entries.
#[test]
fn takes_a_number_with_its_sign(rt: HostRuntime) -> Result<(), Fail> {
    let signed = "run --events=+5 --workers 1";
    let got = told_of_both(rt.alloc(), signed, "run --events 5 --workers 1")?;
    assert!(rt; got.starts_with("0 image\nevents 5\n"), "{got}");
    Ok(())
}

#[test]
fn refuses_words_of_no_mode(rt: HostRuntime) -> Result<(), Fail> {
    for words in REFUSED_WORDS {
        let got = told_by_plain(rt.alloc(), &whole(words, EMPTY))?;
        assert_eq!(rt; got.as_str(), USAGE, "of {words:?}");
    }
    Ok(())
}
