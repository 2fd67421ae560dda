// Places that are made.
use crate::answer::expect_places;
use std::alloc::{AllocError, Global};
use std::test::Fail;

// Sets v0, v1 and so on: each to its own number behind this.
fn add_commands(
    alloc: Global,
    text: &mut String,
    variables: usize,
    value: &str,
) -> Result<(), AllocError> {
    for i in 0..variables {
        let command = format!(in alloc; " v{i} = {value}{i};")?;
        text.push_str(command.as_str())?;
    }
    Ok(())
}

// Variables that are all live at once, and a value.
fn all_live(alloc: Global, variables: usize) -> Result<String, AllocError> {
    let mut text = String::from_str(alloc, "fn init() {")?;
    add_commands(alloc, &mut text, variables, "")?;
    add_commands(alloc, &mut text, variables, "v")?;
    text.push_str(" } fn loop() { }")?;
    Ok(text)
}

// Variables of which none is live where another one is set.
fn one_live(alloc: Global, variables: usize) -> Result<String, AllocError> {
    let mut text = String::from_str(alloc, "fn init() {")?;
    for i in 0..variables {
        let command = format!(in alloc; " v{i} = {i}; w = v{i};")?;
        text.push_str(command.as_str())?;
    }
    text.push_str(" } fn loop() { }")?;
    Ok(text)
}

#[test]
fn allocates(rt: HostRuntime) -> Result<(), Fail> {
    let alloc = rt.alloc();
    for (text, registers) in [
        (
            "fn init() { x = MMIOREAD(0x10024048); } fn loop() { x = MMIOREAD(0x10024048); }",
            6,
        ),
        (
            "fn init() { MMIOWRITE(0x1001200C, (7 / 0)); MMIOWRITE(0x1001200C, (7 % 0)); } fn loop() { }",
            4,
        ),
    ] {
        expect_places(&rt, alloc, text, (registers, 0))?;
    }
    // the one temporary is never set, so that it has a register whatever else is kept there
    for (variables, registers) in [(9, 10), (30, 13), (200, 13)] {
        let text = all_live(alloc, variables)?;
        expect_places(
            &rt,
            alloc,
            text.as_str(),
            (registers, variables + 1 - registers),
        )?;
    }
    for variables in [7, 28, 198] {
        let text = one_live(alloc, variables)?;
        expect_places(&rt, alloc, text.as_str(), (variables + 2, 0))?;
    }
    Ok(())
}
