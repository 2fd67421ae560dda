// The modes that run, replay and judge on the machine, and the lamp.
use lb_gate_testkit::gates::Alternation;
use lb_ports::OpenGate;
use lb_testkit::call::{Answer, Call, call_bulb, call_plain, log_of_report, whole, words_of_line};
use std::alloc::{AllocError, Global};
use std::process::Abort;
use std::sync::Wait;
use std::test::Fail;
use std::thread::Threads;

const EMPTY: &str = "fn init() { } fn loop() { }";

const WRITES: &str = "fn init() { } fn loop() { MMIOWRITE(0x1001200C, 1); }";

const DIVIDES: &str =
    "fn init() { MMIOWRITE(0x1001200C, (7 / 0)); MMIOWRITE(0x1001200C, (7 % 0)); } fn loop() { }";

// The words behind the program's name, an input, and what is told: the status, whether there is an image, and what is
// written.
const ROWS: [(&str, &str, &str); 33] = [
    (
        "replay",
        "fn init() { } fn loop() { }\n%%\n%%\nF0B0D0",
        "0 image\nevents 3\ndone 0\nretired 0\nmmio 0\narrived 0\nlamp off\nend running\n",
    ),
    (
        "replay --log --trace",
        "fn init() { } fn loop() { }\n%%\n%%\nF0\n\nB7D3\r\n",
        "0 image\nevents 3\ndone 0\nretired 0\nmmio 0\narrived 0\nlamp off\nend running\ntrace\nlog\nF0B7D3\n",
    ),
    (
        "replay --log",
        "fn init() { } fn loop() { }",
        "0 image\nevents 0\ndone 0\nretired 0\nmmio 0\narrived 0\nlamp off\nend running\nlog\n",
    ),
    (
        "replay",
        "fn init() { } fn loop() { }\n%%\n%%\nD0",
        "5 image\nevent 0 guard false\n",
    ),
    (
        "replay",
        "fn init() { } fn loop() { }\n%%\n%%\nF0F0F0",
        "5 image\nevent 2 guard false\n",
    ),
    (
        "replay",
        "fn init() { } fn loop() { }\n%%\n%%\nA0",
        "5 image\nevent 0 guard false\n",
    ),
    (
        "replay",
        "fn init() { } fn loop() { }\n%%\n%%\nS0",
        "5 image\nevent 0 guard false\n",
    ),
    (
        "replay",
        "fn init() { } fn loop() { }\n%%\n%%\nF9",
        "5\nline 4 malformed\n",
    ),
    (
        "replay",
        "fn init() { } fn loop() { }\n%%\n0\n%%\nF9",
        "5\nline 3 malformed\n",
    ),
    (
        "replay",
        "fn init() { } fn loop() { }\n%%\n%%\n%%\n",
        "5\nsection line 4\n",
    ),
    (
        "run",
        "fn init() { } fn loop() { }\n%%\n%%\n",
        "5\nsection line 3\n",
    ),
    (
        "run",
        "fn init() { } fn loop() { }\n%%\nffg0\n",
        "5\nline 3 malformed\n",
    ),
    (
        "run",
        "fn init() { } fn loop() { }\n%%\nabc\n",
        "5\nline 3 malformed\n",
    ),
    (
        "run",
        "fn init() { } fn loop() { }\n%%\n00\n%%\n",
        "5\nsection line 4\n",
    ),
    ("run", "fn 1\n%%\nabc\n", "2\ntext at 3 unexpected\n"),
    ("run", "fn init() {\n%%\nffg0\n", "2\ntext at 12 ended\n"),
    ("run", "fn init() { }\n%%\nffg0\n", "3\ncheck no-loop\n"),
    ("lamp", "ff\n%%\n", "5\nsection line 2\n"),
    ("lamp", "ff\n!\n", "5\nline 2 malformed\n"),
    ("judge", "ld 0\n%%\n", "5\nsection line 2\n"),
    ("judge", "\nld 0\n", "5\nline 2 malformed\n"),
    ("judge", "", "0\nprefix rounds 0\n"),
    (
        "judge",
        "st 10012038 0000003c\nst 10012008 00800000\nst 10024018 00000002\nld 10024048 00000000\nst 10024048 0000000b\n",
        "0\nprefix rounds 0\n",
    ),
    (
        "judge --log --trace",
        "st 10012038 0000003c\nst 10012008 00800000\nst 10024018 00000002\nld 10024048 00000000\nst 10024048 0000000c\n",
        "0\nleaves at 4\n",
    ),
    (
        "judge",
        "st 10012038 0000003d\nst 10012008 00800000\n",
        "0\nleaves at 0\n",
    ),
    ("judge", "ST 10012038 0000003c", "5\nline 1 malformed\n"),
    ("check", EMPTY, "0\nok functions 2 words 176 stack 136\n"),
    ("check", "", "3\ncheck no-init\n"),
    ("check", WRITES, "0\nok functions 2 words 204 stack 140\n"),
    ("check", DIVIDES, "0\nok functions 2 words 256 stack 144\n"),
    (
        "interp --events 3 --trace",
        WRITES,
        "0 image\nmmio 2\nend spent\ntrace\nst 1001200c 00000001\nst 1001200c 00000001\n",
    ),
    (
        "interp --events 1 --trace",
        DIVIDES,
        "0 image\nmmio 2\nend spent\ntrace\nst 1001200c ffffffff\nst 1001200c 00000007\n",
    ),
    (
        "isa --events 100000",
        DIVIDES,
        "0 image\ndone 100000\nmmio 2\nend running\n",
    ),
];

// The frames of the lamp: to switch on, the same without its last byte, the same by another protocol, and one to switch
// off, padded to 60 bytes.
const ON: &str =
    "ffffffffffff02000000000108004500001d00000000401100000a0000010a000002100010010009000001\n";

const SHORT: &str =
    "ffffffffffff02000000000108004500001d00000000401100000a0000010a0000021000100100090000\n";

const TCP: &str =
    "ffffffffffff02000000000108004500001d00000000400600000a0000010a000002100010010009000001\n";

const OFF: &str =
    "ffffffffffff02000000000108004500001d00000000401100000a0000010a0000021000100100090000000000000000000000000000000000000000\n";

// Sources that compile to code which halts the machine: by a read where there is nothing, by a write to the code, and by a
// return to where there is no code, since the return address was written over.
const READS_NOTHING: &str = "fn init() { x = MMIOREAD(0x90000000); } fn loop() { }";

const WRITES_CODE: &str = "fn init() { MMIOWRITE(1, 2); } fn loop() { }";

const RETURNS_ASTRAY: &str =
    "fn init() { g(); } fn loop() { } fn g() { stackalloc 256 as q { f(); } } fn f() { stackalloc 4 as p { i = 0; q = (p - 64); while (i < 128) { store4((q + i), 2); i = (i + 4); } } }";

const REPLAY: [&str; 4] = ["bulb", "replay", "--log", "--trace"];

// A call with room for a report of a million bytes.
fn call_of<'a>(words: &'a [&'a str], input: &'a [u8]) -> Call<'a> {
    Call {
        room: 1_000_000,
        ..whole(words, input)
    }
}

// What `plain` answers to the words of a line.
fn by_plain(alloc: Global, line: &str, input: &[u8]) -> Result<Answer, AllocError> {
    let words = words_of_line(alloc, line)?;
    call_plain(alloc, &call_of(&words, input))
}

// What `bulb` answers to the words of a line.
fn by_bulb<R: Threads + Wait + Sync>(
    rt: &R,
    alloc: Global,
    line: &str,
    input: &[u8],
) -> Result<Answer, AllocError> {
    let words = words_of_line(alloc, line)?;
    call_bulb(rt, alloc, &call_of(&words, input), &OpenGate)
}

// What both tell; where they differ, one behind the other.
fn told_by_both<R: Threads + Wait + Sync>(
    rt: &R,
    alloc: Global,
    line: &str,
    input: &str,
) -> Result<String, AllocError> {
    let plain = by_plain(alloc, line, input.as_bytes())?.told(alloc)?;
    let raced = by_bulb(rt, alloc, line, input.as_bytes())?.told(alloc)?;
    if plain == raced {
        Ok(plain)
    } else {
        format!(in alloc; "plain {plain}\nbulb {raced}")
    }
}

// Whether a report has this line.
fn has_line(report: &[u8], line: &str) -> bool {
    report
        .split(|byte| *byte == b'\n')
        .any(|each| each == line.as_bytes())
}

// The number behind a word at the beginning of a line.
fn number_of(report: &[u8], word: &str) -> u32 {
    let mut number = 0u32;
    for line in report.split(|byte| *byte == b'\n') {
        if let Some(digits) = line.strip_prefix(word.as_bytes()) {
            for digit in digits {
                number = number
                    .saturating_mul(10)
                    .saturating_add(u32::from(digit.saturating_sub(b'0')));
            }
        }
    }
    number
}

#[test]
fn answers_rows(rt: HostRuntime) -> Result<(), Fail> {
    for (line, input, want) in ROWS {
        let got = told_by_both(&rt, rt.alloc(), line, input)?;
        assert_eq!(rt; got.as_str(), want, "of {line} {input}");
    }
    Ok(())
}

// What an answer has to be.
#[derive(Clone, Copy, Debug, PartialEq, Eq)]
enum Wanted<'a> {
    /// A run of 1,000 entries without an access.
    Nothing,
    /// A long run that stores 1 at the pins, at least twice, and does nothing else there.
    Ones,
    /// A long run that stores two quotients at the pins.
    Quotients,
    /// A run that ends so, with fewer entries than it may have.
    Halted(&'a str),
    /// A run of the lamp whose report has these lines.
    Lit(&'a [&'a str]),
}

// Whether it is a run of 1,000 entries without an access.
fn does_nothing(a: &Answer) -> bool {
    a.status == 0
        && a.entries == 1000
        && a.has_image
        && a.written.starts_with(b"events 1000\ndone ")
        && a.written
            .ends_with(b"\nmmio 0\narrived 0\nlamp off\nend running\n")
}

// Whether it is a long run that stores 1 at the pins, at least twice, and does nothing else there.
fn stores_ones(alloc: Global, a: &Answer) -> Result<bool, AllocError> {
    let stores = number_of(&a.written, "mmio ");
    let lines = "st 1001200c 00000001\n".repeat(alloc, stores as usize)?;
    let end = format!(in alloc; "\nlamp off\nend running\ntrace\n{lines}")?;
    Ok(
        a.status == 0
            && 2 <= stores
            && 997 <= number_of(&a.written, "done ")
            && a.written.ends_with(end.as_bytes()),
    )
}

// Whether it is a long run that stores two quotients at the pins.
fn stores_quotients(a: &Answer) -> bool {
    997 <= number_of(&a.written, "done ")
        && a.written.ends_with(
            b"\nmmio 2\narrived 0\nlamp off\nend running\ntrace\nst 1001200c ffffffff\nst 1001200c 00000007\n",
        )
}

// Whether it is a run that ends so, with fewer entries than it may have.
fn is_halted(a: &Answer, end: &str) -> bool {
    a.status == 0
        && has_line(&a.written, end)
        && number_of(&a.written, "events ") as usize == a.entries
        && 1 <= a.entries
        && a.entries < 20_000
}

// Whether the lamp's report has these lines.
fn is_lit(a: &Answer, lines: &[&str]) -> bool {
    a.status == 0
        && a.has_image
        && has_line(&a.written, "end running")
        && lines.iter().all(|line| has_line(&a.written, line))
}

// Nothing where the answer is as wanted, else what was told.
fn told_unless(alloc: Global, a: &Answer, wanted: Wanted<'_>) -> Result<String, AllocError> {
    let is_right = match wanted {
        Wanted::Nothing => does_nothing(a),
        Wanted::Ones => stores_ones(alloc, a)?,
        Wanted::Quotients => stores_quotients(a),
        Wanted::Halted(end) => is_halted(a, end),
        Wanted::Lit(lines) => is_lit(a, lines),
    };
    a.told_unless(alloc, is_right)
}

// Nothing where `plain` answers as wanted, else what it told.
fn by_plain_unless(
    alloc: Global,
    line: &str,
    input: &str,
    wanted: Wanted<'_>,
) -> Result<String, AllocError> {
    told_unless(alloc, &by_plain(alloc, line, input.as_bytes())?, wanted)
}

// Nothing where `bulb` answers as wanted, else what it told.
fn by_bulb_unless<R: Threads + Wait + Sync>(
    rt: &R,
    alloc: Global,
    line: &str,
    input: &str,
    wanted: Wanted<'_>,
) -> Result<String, AllocError> {
    told_unless(alloc, &by_bulb(rt, alloc, line, input.as_bytes())?, wanted)
}

// Nothing where both answer as wanted, else what was told otherwise.
fn by_both_unless<R: Threads + Wait + Sync>(
    rt: &R,
    alloc: Global,
    line: &str,
    input: &str,
    wanted: Wanted<'_>,
) -> Result<String, AllocError> {
    let mut told = by_plain_unless(alloc, line, input, wanted)?;
    told.push_str(&by_bulb_unless(rt, alloc, line, input, wanted)?)?;
    Ok(told)
}

const RUNS: [(&str, &str, Wanted<'static>); 6] = [
    ("run --events 1000", EMPTY, Wanted::Nothing),
    ("run --events 20000 --trace", WRITES, Wanted::Ones),
    ("run --events 20000 --trace", DIVIDES, Wanted::Quotients),
    (
        "run --events 20000",
        READS_NOTHING,
        Wanted::Halted("end halted bad-access"),
    ),
    (
        "run --events 20000",
        WRITES_CODE,
        Wanted::Halted("end halted store-to-code"),
    ),
    (
        "run --events 20000",
        RETURNS_ASTRAY,
        Wanted::Halted("end halted bad-pc"),
    ),
];

#[test]
fn runs_programs(rt: HostRuntime) -> Result<(), Fail> {
    for (line, input, wanted) in RUNS {
        let got = by_both_unless(&rt, rt.alloc(), line, input, wanted)?;
        assert_eq!(rt; got.as_str(), "", "of {line} {input}");
    }
    Ok(())
}

// What is told of a race: its status, and how many entries its log has, of all workers, of worker 0 and of worker 1.
#[derive(Clone, Copy, Debug)]
struct Shares {
    status: u8,
    entries: usize,
    of_first: usize,
    of_second: usize,
}

// A run by two workers, which pass the gate.
fn race<R: Threads + Wait + Sync>(
    rt: &R,
    alloc: Global,
    gate: &Alternation,
) -> Result<Shares, AllocError> {
    let words = ["bulb", "run", "--events", "1000", "--workers", "2", "--log"];
    let a = call_bulb(rt, alloc, &call_of(&words, EMPTY.as_bytes()), gate)?;
    Ok(Shares {
        status: a.status,
        entries: a.entries,
        of_first: a.of_first,
        of_second: a.of_second,
    })
}

// Both workers have threads of their own, and pass the caller's gate.
#[test]
fn two_workers_race(rt: HostRuntime) -> Result<(), Fail> {
    let gate = Alternation::new();
    let shares = race(&rt, rt.alloc(), &gate)?;
    assert!(rt; gate.held_both());
    assert_eq!(rt; (shares.status, shares.entries), (0, 1000));
    assert!(rt; 0 < shares.of_first && 0 < shares.of_second, "{shares:?}");
    assert_eq!(rt;
        shares.of_first.saturating_add(shares.of_second),
        1000,
        "{shares:?}"
    );
    Ok(())
}

// Nothing where both tell the same of a run, in which no frame arrives; else what they tell.
fn told_unless_alike<R: Threads + Wait + Sync>(
    rt: &R,
    alloc: Global,
    line: &str,
    input: &str,
) -> Result<String, AllocError> {
    let told = told_by_both(rt, alloc, line, input)?;
    if told.starts_with("0 image\n") && has_line(told.as_bytes(), "arrived 0") {
        Ok(String::new(alloc))
    } else {
        Ok(told)
    }
}

// The same, where a frame waits.
fn told_unless_alike_with_frame<R: Threads + Wait + Sync>(
    rt: &R,
    alloc: Global,
    line: &str,
) -> Result<String, AllocError> {
    let input = format!(in alloc; "{EMPTY}\n%%\n{ON}")?;
    told_unless_alike(rt, alloc, line, &input)
}

// Frames don't arrive while nobody listens; with one worker both calls do the same.
#[test]
fn runs_alike_by_one_worker(rt: HostRuntime) -> Result<(), Fail> {
    for line in [
        "run --events 5000 --workers 1 --log",
        "run --events 5000 --workers 1 --seed 9 --log --trace",
    ] {
        let got = told_unless_alike(&rt, rt.alloc(), line, EMPTY)?;
        assert_eq!(rt; got.as_str(), "", "of {line}");
        let got = told_unless_alike_with_frame(&rt, rt.alloc(), line)?;
        assert_eq!(rt; got.as_str(), "", "of {line} with a frame");
    }
    Ok(())
}

// Nothing where the replay of what a run of the source printed is the same report; else what it told.
fn replay_unless(alloc: Global, source: &str, a: &Answer) -> Result<String, AllocError> {
    let mut input = Vec::from_slice(alloc, source.as_bytes())?;
    input.extend_from_slice(b"\n%%\n%%\n")?;
    input.extend_from_slice(log_of_report(&a.written))?;
    let again = call_plain(alloc, &call_of(&REPLAY, &input))?;
    let is_same = again.status == 0 && again.written == a.written && again.entries == a.entries;
    again.told_unless(alloc, is_same)
}

// Nothing where what both calls run is replayed; else what a replay told.
fn replays_unless<R: Threads + Wait + Sync>(
    rt: &R,
    alloc: Global,
    source: &str,
    run: &str,
) -> Result<String, AllocError> {
    let input = source.as_bytes();
    let mut told = replay_unless(alloc, source, &by_plain(alloc, run, input)?)?;
    told.push_str(&replay_unless(alloc, source, &by_bulb(rt, alloc, run, input)?)?)?;
    Ok(told)
}

// Asserts that these runs of the sources are replayed.
fn replays(
    rt: &(impl Abort + Threads + Wait + Sync),
    alloc: Global,
    run: &str,
    sources: &[&str],
) -> Result<(), AllocError> {
    for source in sources {
        let got = replays_unless(rt, alloc, source, run)?;
        assert_eq!(rt; got.as_str(), "", "of {run} {source}");
    }
    Ok(())
}

#[test]
fn replays_what_was_run(rt: HostRuntime) -> Result<(), Fail> {
    for run in [
        "run --log --trace --events 1",
        "run --log --trace --events 2",
        "run --log --trace --events 31",
        "run --log --trace --events 32",
        "run --log --trace --events 33",
        "run --log --trace --events 64",
        "run --log --trace --events 100",
        "run --log --trace --events 5000",
    ] {
        replays(&rt, rt.alloc(), run, &[EMPTY, WRITES])?;
    }
    let halting = [READS_NOTHING, WRITES_CODE, RETURNS_ASTRAY];
    replays(
        &rt,
        rt.alloc(),
        "run --log --trace --events 20000",
        &halting,
    )?;
    Ok(())
}

// The words behind the program's name, the frames that arrive, and lines of the report.
const LAMPS: [(&str, &[&str], [&str; 4]); 3] = [
    (
        "lamp --events 2000000",
        &[SHORT, ON, TCP],
        ["events 2000000", "arrived 3", "lamp on", "switches 1"],
    ),
    (
        "lamp",
        &["!", ON],
        ["events 400000", "arrived 1", "lamp off", "switches 0"],
    ),
    (
        "lamp",
        &[],
        ["events 400000", "arrived 0", "lamp off", "switches 0"],
    ),
];

// Nothing where both light the lamp so, else what was told otherwise.
fn lamps_unless<R: Threads + Wait + Sync>(
    rt: &R,
    alloc: Global,
    line: &str,
    frames: &[&str],
    lines: &[&str],
) -> Result<String, AllocError> {
    let input = frames.concat(alloc)?;
    by_both_unless(rt, alloc, line, &input, Wanted::Lit(lines))
}

#[test]
fn switches_the_lamp(rt: HostRuntime) -> Result<(), Fail> {
    for (line, frames, lines) in &LAMPS {
        let got = lamps_unless(&rt, rt.alloc(), line, frames, lines)?;
        assert_eq!(rt; got.as_str(), "", "of {line} {frames:?}");
    }
    Ok(())
}

const OFF_AGAIN: [&str; 4] = ["events 4000000", "arrived 2", "lamp off", "switches 2"];

#[test]
fn switches_the_lamp_off_again(rt: HostRuntime) -> Result<(), Fail> {
    let input = [ON, OFF].concat(rt.alloc())?;
    let wanted = Wanted::Lit(&OFF_AGAIN);
    let got = by_plain_unless(rt.alloc(), "lamp --events 4000000", &input, wanted)?;
    assert_eq!(rt; got.as_str(), "");
    Ok(())
}

#[test]
fn switches_the_lamp_off_again_by_a_crew(rt: HostRuntime) -> Result<(), Fail> {
    let input = [ON, OFF].concat(rt.alloc())?;
    let wanted = Wanted::Lit(&OFF_AGAIN);
    let got = by_bulb_unless(&rt, rt.alloc(), "lamp --events 4000000", &input, wanted)?;
    assert_eq!(rt; got.as_str(), "");
    Ok(())
}

// What both tell of a boot whose first wait is in vain so many times, and then goes on so.
fn told_of_boot<R: Threads + Wait + Sync>(
    rt: &R,
    alloc: Global,
    polls: usize,
    more: &str,
) -> Result<String, AllocError> {
    let pins = "st 10012038 0000003c\nst 10012008 00800000\nst 10024018 00000002\n";
    let waits = "ld 10024048 80000000\n".repeat(alloc, polls)?;
    let trace = format!(in alloc; "{pins}{waits}st 10024018 00000000\n{more}")?;
    told_by_both(rt, alloc, "judge", &trace)
}

// The status of the chip's bus never comes: 1,000 vain polls, then standstill.
#[test]
fn judges_waits_in_vain(rt: HostRuntime) -> Result<(), Fail> {
    for (polls, more, want) in [
        (1000usize, "", "0\nprefix rounds 0\n"),
        (1000, "st 10024018 00000000\n", "0\nleaves at 1004\n"),
        (999, "", "0\nleaves at 1002\n"),
    ] {
        let got = told_of_boot(&rt, rt.alloc(), polls, more)?;
        assert_eq!(rt; got.as_str(), want, "of {polls} polls");
    }
    Ok(())
}
