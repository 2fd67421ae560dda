// Ports that stop at each byte, or give and take a few bytes at a time.
use crate::calls::{Asked, Ports, ample, slow};
use crate::ports::{AtStop, NEVER, Stop};
use crate::runs::RUNS;
use std::alloc::{AllocError, Global};
use std::process::Abort;
use std::test::Fail;

// What the call tells with reads one by one, and one that fails at this byte.
fn told_by_failing(alloc: Global, asked: Asked<'_>, place: usize) -> Result<String, AllocError> {
    let what = AtStop::Fails;
    let ports = Ports {
        source: Stop { place, what },
        sink: NEVER,
        piece: 1,
    };
    slow(alloc, asked, ports)
}

// What it tells with a source that gives nothing at this byte, and would give more behind.
fn told_by_ending(alloc: Global, asked: Asked<'_>, place: usize) -> Result<String, AllocError> {
    let what = AtStop::Nothing;
    let ports = Ports {
        source: Stop { place, what },
        sink: NEVER,
        piece: 3,
    };
    slow(alloc, asked, ports)
}

// What it tells with a sink of such pieces that stops so.
fn told_by_writing(
    alloc: Global,
    asked: Asked<'_>,
    stop: Stop,
    piece: usize,
) -> Result<String, AllocError> {
    let ports = Ports {
        source: NEVER,
        sink: stop,
        piece,
    };
    slow(alloc, asked, ports)
}

// What is told where the input ends at this byte, behind the counts of a source that gave nothing once.
fn told_of_front(alloc: Global, asked: Asked<'_>, place: usize) -> Result<String, AllocError> {
    let cut = Asked {
        input: &asked.input[..place.min(asked.input.len())],
        ..asked
    };
    let told = ample(alloc, cut)?;
    format!(in alloc; "0 1 0\n{told}")
}

// Asserts that a read which fails at a byte is told, at each.
fn tells_failed_reads(rt: &impl Abort, alloc: Global, asked: Asked<'_>) -> Result<(), AllocError> {
    for place in 0..asked.input.len().saturating_add(1) {
        let got = told_by_failing(alloc, asked, place)?;
        assert_eq!(rt;
            got.as_str(),
            "1 1 0\n6\nread fault\n",
            "at {place} of {}",
            asked.line
        );
    }
    Ok(())
}

#[test]
fn tells_a_read_that_fails_at_each_byte(rt: HostRuntime) -> Result<(), Fail> {
    for (line, input, _, _) in RUNS {
        let input = input.as_bytes();
        tells_failed_reads(&rt, rt.alloc(), Asked { line, input })?;
    }
    Ok(())
}

// Asserts that a source that gives nothing at a byte has ended there, at each.
fn ends_at_reads_of_nothing(
    rt: &impl Abort,
    alloc: Global,
    asked: Asked<'_>,
) -> Result<(), AllocError> {
    for place in 0..asked.input.len().saturating_add(1) {
        let got = told_by_ending(alloc, asked, place)?;
        let want = told_of_front(alloc, asked, place)?;
        assert_eq!(rt; got.as_str(), want.as_str(), "at {place} of {}", asked.line);
    }
    Ok(())
}

#[test]
fn takes_a_read_of_nothing_for_the_end(rt: HostRuntime) -> Result<(), Fail> {
    for (line, input, _, _) in RUNS {
        let input = input.as_bytes();
        ends_at_reads_of_nothing(&rt, rt.alloc(), Asked { line, input })?;
    }
    Ok(())
}

// The first line of what is told where a write fails: the status of a refusal stays.
fn line_of_cut(line: &str) -> &str {
    match line {
        "0" => "7",
        "0 image" => "7 image",
        _ => line,
    }
}

// Asserts that where a write fails at this byte, or takes nothing there, what stands before is written.
fn writes_front(
    rt: &impl Abort,
    alloc: Global,
    asked: Asked<'_>,
    told: (&str, &[u8]),
    stop: Stop,
) -> Result<(), AllocError> {
    let (line, report) = told;
    let front = String::from_utf8_lossy(alloc, &report[..stop.place.min(report.len())])?;
    let want = format!(in alloc; "0 0 1\n{}\n{front}", line_of_cut(line))?;
    for piece in [1usize, 3] {
        let got = told_by_writing(alloc, asked, stop, piece)?;
        assert_eq!(rt;
            got.as_str(),
            want.as_str(),
            "at {stop:?} of {}",
            asked.line
        );
    }
    Ok(())
}

// Each run, with a sink that stops so at each byte of what is written.
fn writes_until_each_byte(rt: &impl Abort, alloc: Global, what: AtStop) -> Result<(), AllocError> {
    for (line, input, first, report) in RUNS {
        let input = input.as_bytes();
        let told = (first, report.as_bytes());
        for place in 0..report.len() {
            writes_front(rt, alloc, Asked { line, input }, told, Stop { place, what })?;
        }
    }
    Ok(())
}

#[test]
fn tells_a_write_that_fails_at_each_byte(rt: HostRuntime) -> Result<(), Fail> {
    writes_until_each_byte(&rt, rt.alloc(), AtStop::Fails)?;
    Ok(())
}

#[test]
fn tells_a_write_of_nothing_at_each_byte(rt: HostRuntime) -> Result<(), Fail> {
    writes_until_each_byte(&rt, rt.alloc(), AtStop::Nothing)?;
    Ok(())
}

// Asserts that the same is told whether all comes and goes at once or in pieces, behind the counts of ports that never fail.
fn tells_the_same(
    rt: &impl Abort,
    alloc: Global,
    asked: Asked<'_>,
    want: &str,
) -> Result<(), AllocError> {
    for piece in [1usize, 2, 3, 5, 1_000_000] {
        let got = told_by_writing(alloc, asked, NEVER, piece)?;
        assert_eq!(rt; got.as_str(), want, "by {piece} of {}", asked.line);
    }
    let got = ample(alloc, asked)?;
    assert_eq!(rt;
        Some(got.as_str()),
        want.strip_prefix("0 0 0\n"),
        "of {}",
        asked.line
    );
    Ok(())
}

#[test]
fn answers_the_same_in_pieces(rt: HostRuntime) -> Result<(), Fail> {
    for (line, input, first, report) in RUNS {
        let input = input.as_bytes();
        let want = format!(in rt.alloc(); "0 0 0\n{first}\n{report}")?;
        tells_the_same(&rt, rt.alloc(), Asked { line, input }, &want)?;
    }
    Ok(())
}
