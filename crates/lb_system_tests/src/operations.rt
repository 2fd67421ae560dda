// Each operation on pairs of words, in code that was compiled and run.
use lb_testkit::call::{told_by_plain, whole};
use std::alloc::{AllocError, Global};
use std::process::Abort;
use std::test::Fail;

const ADDRESS: u32 = 268_509_196;

// Pairs of operands: a quotient and its converse, the greatest word, the signed overflow, zero, a shift by more
// than 31, and two that are equal.
const PAIRS: [(u32, u32); 7] = [
    (7, 3),
    (3, 7),
    (4294967295, 2),
    (2147483648, 4294967295),
    (305419896, 0),
    (2147483649, 33),
    (5, 5),
];

// The sign of each operation and its values on the pairs, computed by another tool.
const ROWS: [(&str, [u32; 7]); 15] = [
    ("+", [10, 10, 1, 2147483647, 305419896, 2147483682, 10]),
    (
        "-",
        [
            4, 4294967292, 4294967293, 2147483649, 305419896, 2147483616, 0,
        ],
    ),
    ("*", [21, 21, 4294967294, 2147483648, 0, 2147483681, 25]),
    ("*^", [0, 0, 1, 2147483647, 0, 16, 0]),
    ("/", [2, 0, 2147483647, 0, 4294967295, 65075262, 1]),
    ("%", [1, 3, 1, 2147483648, 305419896, 3, 0]),
    ("&", [3, 3, 2, 2147483648, 0, 1, 5]),
    (
        "|",
        [7, 7, 4294967295, 4294967295, 305419896, 2147483681, 5],
    ),
    (
        "^",
        [4, 4, 4294967293, 2147483647, 305419896, 2147483680, 0],
    ),
    (">>", [0, 0, 1073741823, 1, 305419896, 1073741824, 0]),
    ("<<", [56, 384, 4294967292, 0, 305419896, 2, 160]),
    (
        ">>.",
        [0, 0, 4294967295, 4294967295, 305419896, 3221225472, 0],
    ),
    ("<.", [0, 1, 1, 1, 0, 1, 0]),
    ("<", [0, 1, 0, 1, 0, 0, 0]),
    ("==", [0, 0, 0, 0, 0, 0, 1]),
];

// A program that writes what the operation gives on each pair: the operands as literals, or read from variables.
fn program(alloc: Global, sign: &str, literals: bool) -> Result<String, AllocError> {
    let mut text = String::from_str(alloc, "fn init() {\n")?;
    for (left, right) in PAIRS {
        let lines = if literals {
            format!(in alloc; "  MMIOWRITE({ADDRESS}, ({left} {sign} {right}));\n")?
        } else {
            format!(in alloc;
                "  a = {left};\n  b = {right};\n  MMIOWRITE({ADDRESS}, (a {sign} b));\n"
            )?
        };
        text.push_str(&lines)?;
    }
    text.push_str("}\nfn loop() {\n}\n")?;
    Ok(text)
}

// What a run tells that writes these values and goes on.
fn expected(alloc: Global, values: &[u32]) -> Result<String, AllocError> {
    let mut text = String::from_str(alloc, "0 image\ndone 5000\nmmio 7\nend running\ntrace\n")?;
    for value in values {
        let event = format!(in alloc; "st 1001200c {value:08x}\n")?;
        text.push_str(&event)?;
    }
    Ok(text)
}

// What the run of the code tells.
fn told(alloc: Global, sign: &str, literals: bool) -> Result<String, AllocError> {
    let text = program(alloc, sign, literals)?;
    let words = ["bulb", "isa", "--events", "5000", "--trace"];
    told_by_plain(alloc, &whole(&words, text.as_bytes()))
}

// Asserts that the code computes these values.
fn computes(rt: &impl Abort, alloc: Global, sign: &str, values: &[u32]) -> Result<(), AllocError> {
    let want = expected(alloc, values)?;
    for literals in [true, false] {
        let got = told(alloc, sign, literals)?;
        assert_eq!(rt;
            got.as_str(),
            want.as_str(),
            "of {sign}, literals: {literals}"
        );
    }
    Ok(())
}

#[test]
fn computes_each_operation(rt: HostRuntime) -> Result<(), Fail> {
    for (sign, values) in ROWS {
        computes(&rt, rt.alloc(), sign, &values)?;
    }
    Ok(())
}
