// Placed programs as lines: a register is written r18, a slot s0.
use lb_flat::{PlacedBlock, PlacedCmd, PlacedFunction, PlacedProgram};
use std::alloc::{AllocError, Global};

/// The numbers of the two functions that are called from outside, and each function's lines.
pub fn print(alloc: Global, program: &PlacedProgram) -> Result<String, AllocError> {
    let mut text = format!(in alloc; "init {} loop {}", program.init, program.again)?;
    for f in program.functions.as_slice() {
        add_function(alloc, &mut text, f)?;
    }
    Ok(text)
}

fn add_function(alloc: Global, text: &mut String, f: &PlacedFunction) -> Result<(), AllocError> {
    let params = f.params.as_slice();
    let results = f.results.as_slice();
    let line = format!(in alloc; "\nfn {} {params:?} {results:?}", f.slots)?;
    text.push_str(line.as_str())?;
    add_block(&f.body, alloc, text)
}

// The commands between braces.
#[cycle(print)]
fn add_block(block: &PlacedBlock, alloc: Global, text: &mut String) -> Result<(), AllocError> {
    text.push_str(" {")?;
    for c in block.commands.as_slice() {
        add_command(c, alloc, text)?;
    }
    text.push_str(" }")?;
    Ok(())
}

#[cycle(print)]
fn add_command(c: &PlacedCmd, alloc: Global, text: &mut String) -> Result<(), AllocError> {
    match c {
        PlacedCmd::StackAlloc {
            bytes,
            target,
            body,
        } => {
            let line = format!(in alloc; " r{target}=alloc {bytes}")?;
            text.push_str(line.as_str())?;
            add_block(body, alloc, text)
        }
        PlacedCmd::If { condition, yes, no } => {
            let line = format!(in alloc; " if r{condition}")?;
            text.push_str(line.as_str())?;
            add_block(yes, alloc, text)?;
            add_block(no, alloc, text)
        }
        PlacedCmd::While {
            before,
            condition,
            body,
        } => {
            text.push_str(" while")?;
            add_block(before, alloc, text)?;
            let line = format!(in alloc; " r{condition}")?;
            text.push_str(line.as_str())?;
            add_block(body, alloc, text)
        }
        _ => {
            let line = plain_line(alloc, c)?;
            text.push_str(line.as_str())?;
            Ok(())
        }
    }
}

// A command without blocks.
fn plain_line(alloc: Global, c: &PlacedCmd) -> Result<String, AllocError> {
    match c {
        PlacedCmd::Literal { target, value } => format!(in alloc; " r{target}:={value}"),
        PlacedCmd::Assign { target, source } => format!(in alloc; " r{target}=r{source}"),
        PlacedCmd::Binary {
            op,
            target,
            left,
            right,
        } => format!(in alloc; " r{target}=r{left} {op:?} r{right}"),
        PlacedCmd::Load {
            width,
            target,
            address,
        } => format!(in alloc; " r{target}=load {width:?} r{address}"),
        PlacedCmd::Store {
            width,
            address,
            value,
        } => format!(in alloc; " store {width:?} r{address} r{value}"),
        PlacedCmd::GetSlot { register, slot } => format!(in alloc; " r{register}=s{slot}"),
        PlacedCmd::PutSlot { slot, register } => format!(in alloc; " s{slot}=r{register}"),
        _ => outward_line(alloc, c),
    }
}

// A call or an access.
fn outward_line(alloc: Global, c: &PlacedCmd) -> Result<String, AllocError> {
    match c {
        PlacedCmd::Call {
            targets,
            function,
            arguments,
        } => {
            let targets = targets.as_slice();
            let arguments = arguments.as_slice();
            format!(in alloc; " {targets:?}=call {function} {arguments:?}")
        }
        PlacedCmd::Interact {
            targets,
            action,
            arguments,
        } => {
            let targets = targets.as_slice();
            let arguments = arguments.as_slice();
            format!(in alloc; " {targets:?}={action:?} {arguments:?}")
        }
        _ => String::from_str(alloc, ""),
    }
}
