// Programs at the limits, and one past each.
use lb_testkit::call::{Call, told_by_plain, whole};
use std::alloc::{AllocError, Global};
use std::test::Fail;

const CHECK: [&str; 2] = ["bulb", "check"];

const TWO: &[u8] = b"fn init() { } fn loop() { }";

// The text `before`, `many` times `part`, and the text `behind`.
#[derive(Clone, Copy)]
struct Repeated<'a> {
    before: &'a str,
    part: &'a str,
    many: u32,
    behind: &'a str,
}

// Appends the text.
fn append(text: &mut Vec<u8>, repeated: Repeated<'_>) -> Result<(), AllocError> {
    text.extend_from_slice(repeated.before.as_bytes())?;
    for _ in 0..repeated.many {
        text.extend_from_slice(repeated.part.as_bytes())?;
    }
    text.extend_from_slice(repeated.behind.as_bytes())?;
    Ok(())
}

// `init`, `loop` and so many functions more.
fn functions(alloc: Global, many: u32) -> Result<Vec<u8>, AllocError> {
    let mut text = Vec::from_slice(alloc, TWO)?;
    for k in 0..many {
        let function = format!(in alloc; " fn f{k}() {{ }}")?;
        text.extend_from_slice(function.as_bytes())?;
    }
    Ok(text)
}

// A chain of 33 functions: the first 32 with frames of 2,032 bytes, the last with a block of so many bytes.
fn chain(alloc: Global, last: u32) -> Result<Vec<u8>, AllocError> {
    let mut text = Vec::from_slice(alloc, TWO)?;
    for k in 0..32u32 {
        let next = k + 1;
        let function = format!(in alloc; " fn g{k}() {{ stackalloc 1892 as p {{ }} g{next}(); }}")?;
        text.extend_from_slice(function.as_bytes())?;
    }
    let function = format!(in alloc; " fn g32() {{ stackalloc {last} as p {{ }} }}")?;
    text.extend_from_slice(function.as_bytes())?;
    Ok(text)
}

// What `check` tells of a text.
fn told(alloc: Global, text: &[u8]) -> Result<String, AllocError> {
    let call = Call {
        piece: 1_000_000,
        ..whole(&CHECK, text)
    };
    told_by_plain(alloc, &call)
}

// What it tells of one text behind another.
fn told_of_both(
    alloc: Global,
    first: Repeated<'_>,
    second: Repeated<'_>,
) -> Result<String, AllocError> {
    let mut text = Vec::new(alloc);
    append(&mut text, first)?;
    append(&mut text, second)?;
    told(alloc, &text)
}

// What it tells of `init`, `loop` and so many functions more.
fn told_of_functions(alloc: Global, many: u32) -> Result<String, AllocError> {
    told(alloc, &functions(alloc, many)?)
}

// What it tells of a chain whose last function has a block of so many bytes.
fn told_of_chain(alloc: Global, last: u32) -> Result<String, AllocError> {
    told(alloc, &chain(alloc, last)?)
}

#[test]
fn takes_256_functions(rt: HostRuntime) -> Result<(), Fail> {
    for (many, want) in [
        (254, "0\nok functions 256 words 20496 stack 136\n"),
        (255, "3\ncheck too-many-functions count 257\n"),
    ] {
        let got = told_of_functions(rt.alloc(), many)?;
        assert_eq!(rt; got.as_str(), want, "of {many}");
    }
    Ok(())
}

// 32 * 2,032 + 372 + 4 * (1 + 34) = 65,536 bytes, and 16 + 160 + 32 * 96 + 88 words.
#[test]
fn takes_65536_bytes_of_stack(rt: HostRuntime) -> Result<(), Fail> {
    for (last, want) in [
        (372, "0\nok functions 35 words 3336 stack 65536\n"),
        (376, "4\nlimit stack-need bytes 65540\n"),
    ] {
        let got = told_of_chain(rt.alloc(), last)?;
        assert_eq!(rt; got.as_str(), want, "of {last}");
    }
    Ok(())
}

// Texts with one part that is repeated, and what is told of them.
const ROWS: [(Repeated<'static>, &str); 11] = [
    // However long a branch is: 16 + 80 + 80 + 14 + 14 + 125 * 8 = 1,204 words, and 8 more with one `skip` more.
    (
        Repeated {
            before: "fn init() { while 1 { x = 1; ",
            part: "skip; ",
            many: 125,
            behind: "} } fn loop() { }",
        },
        "0\nok functions 2 words 1204 stack 144\n",
    ),
    (
        Repeated {
            before: "fn init() { while 1 { x = 1; ",
            part: "skip; ",
            many: 126,
            behind: "} } fn loop() { }",
        },
        "0\nok functions 2 words 1212 stack 144\n",
    ),
    // 16 + 80 + 80 + 4,074 * 8 = 32,768 words.
    (
        Repeated {
            before: "fn init() { ",
            part: "skip; ",
            many: 4074,
            behind: "} fn loop() { }",
        },
        "0\nok functions 2 words 32768 stack 136\n",
    ),
    (
        Repeated {
            before: "fn init() { ",
            part: "skip; ",
            many: 4075,
            behind: "} fn loop() { }",
        },
        "4\nlimit code-need words 32776\n",
    ),
    // 16 bytes stand before the first of 64 brackets, of which the function's brace is one more.
    (
        Repeated {
            before: "fn init() { x = ",
            part: "(",
            many: 64,
            behind: "1",
        },
        "2\ntext at 79 too-deep\n",
    ),
    (
        Repeated {
            before: "fn init(){x=",
            part: "(",
            many: 64,
            behind: "",
        },
        "2\ntext at 75 too-deep\n",
    ),
    // Names of 32 bytes, and one of 33.
    (
        Repeated {
            before: "fn init() { } fn loop() { } fn ",
            part: "a",
            many: 32,
            behind: "() { }",
        },
        "0\nok functions 3 words 256 stack 136\n",
    ),
    (
        Repeated {
            before: "fn ",
            part: "a",
            many: 33,
            behind: "",
        },
        "2\ntext at 35 name-too-long\n",
    ),
    // 1,048,576 bytes, and one more. No text is read where it is too long.
    (
        Repeated {
            before: "fn init() { } fn loop() { }",
            part: " ",
            many: 1_048_549,
            behind: "",
        },
        "0\nok functions 2 words 176 stack 136\n",
    ),
    (
        Repeated {
            before: "fn init() { } fn loop() { }",
            part: " ",
            many: 1_048_550,
            behind: "",
        },
        "8\ninput over 1048576 bytes\n",
    ),
    (
        Repeated {
            before: "(",
            part: "(",
            many: 1_048_576,
            behind: "",
        },
        "8\ninput over 1048576 bytes\n",
    ),
];

const NOTHING: Repeated<'static> = Repeated {
    before: "",
    part: "",
    many: 0,
    behind: "",
};

#[test]
fn takes_texts_up_to_the_limits(rt: HostRuntime) -> Result<(), Fail> {
    for (text, want) in ROWS {
        let got = told_of_both(rt.alloc(), text, NOTHING)?;
        assert_eq!(rt; got.as_str(), want);
    }
    Ok(())
}

// With the function's brace 64 brackets are open.
#[test]
fn takes_64_open_brackets(rt: HostRuntime) -> Result<(), Fail> {
    let opened = Repeated {
        before: "fn init() { x = ",
        part: "(",
        many: 63,
        behind: "1",
    };
    let closed = Repeated {
        before: "",
        part: " + 1)",
        many: 63,
        behind: "; } fn loop() { }",
    };
    let got = told_of_both(rt.alloc(), opened, closed)?;
    assert_eq!(rt; got.as_str(), "0\nok functions 2 words 946 stack 396\n");
    Ok(())
}
