// Rows of words and the jobs that they ask for.
use lb_words::{JobError, Mode, job_of};
use std::alloc::{AllocError, Global};
use std::test::Fail;

// Each mode with its name.
const MODES: [(Mode, &str); 11] = [
    (Mode::Check, "check"),
    (Mode::Print, "print"),
    (Mode::Compile, "compile"),
    (Mode::List, "list"),
    (Mode::Interp, "interp"),
    (Mode::Isa, "isa"),
    (Mode::Run, "run"),
    (Mode::Lamp, "lamp"),
    (Mode::Replay, "replay"),
    (Mode::Judge, "judge"),
    (Mode::Gen, "gen"),
];

// The words of a row, of which `""` is the empty word.
fn words_of(alloc: Global, row: &str) -> Result<Vec<String>, AllocError> {
    let mut words = Vec::new(alloc);
    for word in row.split(' ') {
        let word = if word == "\"\"" { "" } else { word };
        words.push(String::from_str(alloc, word)?)?;
    }
    Ok(words)
}

// The job that the words ask for: the mode, the three numbers, and the options without a value.
fn told(alloc: Global, words: &[String], modes: &[Mode]) -> Result<String, AllocError> {
    match job_of(alloc, words, modes) {
        Ok(job) => {
            let mode = job.mode.name();
            let log = if job.log { " log" } else { "" };
            let trace = if job.trace { " trace" } else { "" };
            format!(in alloc;
                "{mode} {} {} {}{log}{trace}",
                job.events, job.workers, job.seed
            )
        }
        Err(JobError::Usage) => String::from_str(alloc, "usage"),
        Err(JobError::Memory) => String::from_str(alloc, "memory"),
    }
}

// What is wanted, and behind `: ` the words, the program's name first.
const ROWS: &str = r#"usage: bulb
check 400000 4 0: bulb check
print 400000 4 0: bulb print
compile 400000 4 0: bulb compile
list 400000 4 0: bulb list
interp 400000 4 0: bulb interp
isa 400000 4 0: bulb isa
run 400000 4 0: bulb run
lamp 400000 4 0: bulb lamp
replay 400000 4 0: bulb replay
judge 400000 4 0: bulb judge
gen 400000 4 0: bulb gen
usage: bulb help
usage: bulb Check
usage: bulb checks
usage: bulb chec
usage: bulb ""
usage: bulb check ""
usage: bulb -
usage: bulb check print
usage: bulb run run
run 5 1 0 trace: bulb --events 5 run --workers 1 --trace
run 5 1 7 log trace: any --log --events=+5 --seed=007 --trace --workers=1 run
print 400000 4 0 log: bulb --log -- print
print 400000 4 0: bulb -- print
print 400000 4 0: bulb print --
usage: bulb print -- --log
usage: bulb -- print --log
usage: bulb -- --
usage: bulb --events -- 5 print
usage: bulb run --events 0
run 1 4 0: bulb run --events 1
run 4000000 4 0: bulb run --events 4000000
usage: bulb run --events 4000001
usage: bulb run --events 18446744073709551621
usage: bulb run --workers 0
run 400000 1 0: bulb run --workers 1
run 400000 8 0: bulb run --workers=000000000000000000000000000000008
usage: bulb run --workers 9
usage: bulb run --workers 260
run 400000 4 0: bulb run --seed +0
run 400000 4 4294967295: bulb run --seed 4294967295
usage: bulb run --seed 4294967296
usage: bulb run --seed -0
usage: bulb run --seed=-0
usage: bulb run --seed ++1
usage: bulb run --seed +
usage: bulb run --seed 0x1
usage: bulb run --seed 1_0
usage: bulb check --events
usage: bulb check --events=
usage: bulb check --events ""
usage: bulb check --events==5
usage: bulb check --events =5
usage: bulb --events --log check
usage: bulb check --events 5 --events 5
usage: bulb check --events=5 --events=6
usage: bulb check --seed 1 --workers 2 --seed 1
usage: bulb check --log --log
usage: bulb --trace check --trace
usage: bulb check --log=true
usage: bulb check --trace=
usage: bulb check --event=5
usage: bulb check --LOG
usage: bulb check -e 5
usage: bulb check --size 5
usage: bulb --help
usage: bulb check --help
usage: bulb check -h
usage: bulb --version
usage: bulb check -V
"#;

#[test]
fn words_ask_for_jobs(rt: HostRuntime) -> Result<(), Fail> {
    let alloc = rt.alloc();
    let mut modes = Vec::new(alloc);
    for (mode, name) in MODES {
        assert_eq!(rt; mode.name(), name);
        modes.push(mode)?;
    }
    for row in ROWS.lines() {
        let Some((want, words)) = row.split_once(": ") else {
            assert!(rt; row.is_empty());
            continue;
        };
        let words = words_of(alloc, words)?;
        assert_eq!(rt; told(alloc, &words, &modes)?.as_str(), want);
    }
    let none = Vec::new(alloc);
    assert_eq!(rt; told(alloc, &none, &modes)?.as_str(), "usage");
    Ok(())
}

#[test]
fn a_mode_that_does_not_exist_is_refused(rt: HostRuntime) -> Result<(), Fail> {
    let alloc = rt.alloc();
    let modes = [Mode::List, Mode::Check];
    for (row, want) in [
        ("bulb check", "check 400000 4 0"),
        ("bulb list --seed 3", "list 400000 4 3"),
        ("bulb print", "usage"),
        ("bulb run", "usage"),
    ] {
        let words = words_of(alloc, row)?;
        assert_eq!(rt; told(alloc, &words, &modes)?.as_str(), want);
    }
    let words = words_of(alloc, "bulb check")?;
    assert_eq!(rt; told(alloc, &words, &[])?.as_str(), "usage");
    Ok(())
}
