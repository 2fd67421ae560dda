// Inputs that are cut: the first section too many, before anything else is told.
use lb_testkit::call::{told_by_plain, whole};
use std::alloc::{AllocError, Global};
use std::test::Fail;

const CHECK: [&str; 2] = ["bulb", "check"];

const MODES: [&[&str]; 4] = [
    &["bulb", "check"],
    &["bulb", "print"],
    &["bulb", "compile"],
    &["bulb", "list"],
];

// An input of more sections than one, and what is told: the number of the line that is the first mark.
const CUT: [(&str, &str); 8] = [
    ("fn init() { } fn loop() { }\n%%\n", "5\nsection line 2\n"),
    ("fn init() { } fn loop() { }\n%%", "5\nsection line 2\n"),
    (
        "fn init() { } fn loop() { }\n%%\r\n00000000\n",
        "5\nsection line 2\n",
    ),
    ("fn init() { }\n\n%%\r", "5\nsection line 3\n"),
    ("%%", "5\nsection line 1\n"),
    ("%%\n%%\n%%\n", "5\nsection line 1\n"),
    ("no text\n  \r\n%%\n", "5\nsection line 3\n"),
    ("// %%\n%%x\n %%\n%%\n", "5\nsection line 4\n"),
];

// Lines that aren't exactly a mark, and what `check` tells.
const WHOLE: [(&str, &str); 5] = [
    (
        "fn init() { } fn loop() { }\n//%%\n",
        "0\nok functions 2 words 176 stack 136\n",
    ),
    (
        "fn init() { } fn loop() { }\n%% ",
        "2\ntext at 28 unexpected\n",
    ),
    (
        "fn init() { } fn loop() { }\n%%%\n",
        "2\ntext at 28 unexpected\n",
    ),
    (
        "fn init() { } fn loop() { }\n%%\r\r\n",
        "2\ntext at 28 unexpected\n",
    ),
    (
        "fn init() { } fn loop() { } %%\n",
        "2\ntext at 28 unexpected\n",
    ),
];

// What the words tell of an input.
fn told(alloc: Global, words: &[&str], input: &str) -> Result<String, AllocError> {
    told_by_plain(alloc, &whole(words, input.as_bytes()))
}

#[test]
fn tells_the_first_section_too_many(rt: HostRuntime) -> Result<(), Fail> {
    for words in MODES {
        for (input, want) in CUT {
            let got = told(rt.alloc(), words, input)?;
            assert_eq!(rt; got.as_str(), want, "by {words:?} of {input}");
        }
    }
    Ok(())
}

#[test]
fn cuts_at_no_other_line(rt: HostRuntime) -> Result<(), Fail> {
    for (input, want) in WHOLE {
        let got = told(rt.alloc(), &CHECK, input)?;
        assert_eq!(rt; got.as_str(), want, "of {input}");
    }
    Ok(())
}
