// The flat form of a text's program, as lines to compare.
use lb_flat::{FlatBlock, FlatCmd, FlatFunction, FlatProgram};
use lb_program_testkit::{NoProgram, flat_program};
use std::alloc::{AllocError, Global};
use std::process::Abort;

/// Asserts that the text's program becomes this.
pub fn expect(rt: &impl Abort, alloc: Global, text: &str, want: &str) -> Result<(), NoProgram> {
    let lines = print(alloc, &flat_program(alloc, text.as_bytes())?)?;
    assert_eq!(rt; lines.as_str(), want, "of {text}");
    Ok(())
}

// The numbers of the two functions that are called from outside, and each function's lines.
fn print(alloc: Global, program: &FlatProgram) -> Result<String, AllocError> {
    let mut text = format!(in alloc; "init {} loop {}", program.init, program.again)?;
    for f in program.functions.as_slice() {
        add_function(alloc, &mut text, f)?;
    }
    Ok(text)
}

fn add_function(alloc: Global, text: &mut String, f: &FlatFunction) -> Result<(), AllocError> {
    let params = f.params.as_slice();
    let results = f.results.as_slice();
    let line = format!(in alloc; "\nfn {} {params:?} {results:?}", f.variables)?;
    text.push_str(line.as_str())?;
    add_block(&f.body, alloc, text)
}

// The commands between braces.
#[cycle(print)]
fn add_block(block: &FlatBlock, alloc: Global, text: &mut String) -> Result<(), AllocError> {
    text.push_str(" {")?;
    for c in block.commands.as_slice() {
        add_command(c, alloc, text)?;
    }
    text.push_str(" }")?;
    Ok(())
}

#[cycle(print)]
fn add_command(c: &FlatCmd, alloc: Global, text: &mut String) -> Result<(), AllocError> {
    match c {
        FlatCmd::StackAlloc {
            bytes,
            target,
            body,
        } => {
            let line = format!(in alloc; " {target}=alloc {bytes}")?;
            text.push_str(line.as_str())?;
            add_block(body, alloc, text)
        }
        FlatCmd::If { condition, yes, no } => {
            let line = format!(in alloc; " if {condition}")?;
            text.push_str(line.as_str())?;
            add_block(yes, alloc, text)?;
            add_block(no, alloc, text)
        }
        FlatCmd::While {
            before,
            condition,
            body,
        } => {
            text.push_str(" while")?;
            add_block(before, alloc, text)?;
            let line = format!(in alloc; " {condition}")?;
            text.push_str(line.as_str())?;
            add_block(body, alloc, text)
        }
        _ => {
            let line = plain_line(alloc, c)?;
            text.push_str(line.as_str())?;
            Ok(())
        }
    }
}

// A command without blocks.
fn plain_line(alloc: Global, c: &FlatCmd) -> Result<String, AllocError> {
    match c {
        FlatCmd::Literal { target, value } => format!(in alloc; " {target}:={value}"),
        FlatCmd::Assign { target, source } => format!(in alloc; " {target}={source}"),
        FlatCmd::Binary {
            op,
            target,
            left,
            right,
        } => format!(in alloc; " {target}={left} {op:?} {right}"),
        FlatCmd::Load {
            width,
            target,
            address,
        } => format!(in alloc; " {target}=load {width:?} {address}"),
        FlatCmd::Store {
            width,
            address,
            value,
        } => format!(in alloc; " store {width:?} {address} {value}"),
        FlatCmd::Unset { target } => format!(in alloc; " unset {target}"),
        _ => outward_line(alloc, c),
    }
}

// A call or an access.
fn outward_line(alloc: Global, c: &FlatCmd) -> Result<String, AllocError> {
    match c {
        FlatCmd::Call {
            targets,
            function,
            arguments,
        } => {
            let targets = targets.as_slice();
            let arguments = arguments.as_slice();
            format!(in alloc; " {targets:?}=call {function} {arguments:?}")
        }
        FlatCmd::Interact {
            targets,
            action,
            arguments,
        } => {
            let targets = targets.as_slice();
            let arguments = arguments.as_slice();
            format!(in alloc; " {targets:?}={action:?} {arguments:?}")
        }
        _ => String::from_str(alloc, ""),
    }
}
