// Calls that lead back to their function, and the stack that the calls need.
ghost use Rattle.std.specs.Prelude.{◌≡◌, ◌<◌, ◌≤◌, ◌^◌, [], ◌∷◌, map, length, IfOk, OnOk, IfErr};
ghost use Rattle.lb_syntax.specs.declared.limits.TheConstants.{MOST_FUNCTIONS};
ghost use Rattle.lb_memory.specs.declared.TheConstants.{MOST_STACK};
ghost use Rattle.lb_syntax.specs.Tree.{command_of, block_of};
ghost use Rattle.lb_syntax.specs.Calls.{IsStackNeed};
ghost use Rattle.lb_syntax.specs.Needs.{frame_need};
ghost use Rattle.lb_graph.specs.Paths.{IsAcyclic};
ghost use Rattle.lb_check.specs.Parts.{parts};
ghost use Rattle.lb_check.specs.InternalCallGraph.{call_graph};
ghost use Rattle.lb_check.specs.Verdict.{NoRecursion};
ghost use Rattle.lb_check.specs.InternalVerdict.{Settles};
ghost use Rattle.lb_check.specs.InternalWalks.{procedures_of, Appends, called_among, places_among, frame_needs, FramesAreSmall, SettlesStack};

use crate::fault::{CheckError, CheckFault};
use crate::needs::frame_need;
use lb_graph::{Graph, first_on_cycle, greatest_weight};
use lb_memory::MOST_STACK;
use lb_syntax::{Block, Cmd, Function, Name};
use sqlite_items::Items;
use std::alloc::{AllocError, Global};

/// The graph of calls, whose nodes are the places of these functions.
pub fn graph_of(alloc: Global, functions: &[Function]) -> Result<Graph, AllocError>
    requires { length functions.now ≤ MOST_FUNCTIONS }
    ensures { IfOk result (λ graph. graph.calls ≡ call_graph (procedures_of functions.now)) }
{
    let mut calls = Items::new(alloc);
    for f in functions {
        let mut nodes = Items::new(alloc);
        add_block(&mut nodes, functions, &f.body)?;
        calls.push(nodes)?;
    }
    Ok(Graph { calls })
}

// The places of the functions that a block calls.
#[cycle(add)]
fn add_block(
    nodes: &mut Items<u16>,
    functions: &[Function],
    block: &Block,
) -> Result<(), AllocError>
    requires { length functions.now ≤ MOST_FUNCTIONS }
    ensures { Appends nodes.old nodes.new (called_among functions.now (block_of block.now)) result }
{
    for c in block.commands.as_slice() {
        add_command(nodes, functions, c)?;
    }
    Ok(())
}

// The places of the functions that a command calls.
#[cycle(add)]
fn add_command(nodes: &mut Items<u16>, functions: &[Function], c: &Cmd) -> Result<(), AllocError>
    requires { length functions.now ≤ MOST_FUNCTIONS }
    ensures { Appends nodes.old nodes.new (called_among functions.now (command_of c.now)) result }
{
    match c {
        Cmd::Call { function, .. } => add_places(nodes, functions, function),
        Cmd::StackAlloc { body, .. } | Cmd::While { body, .. } => {
            add_block(nodes, functions, body)
        }
        Cmd::If { yes, no, .. } => {
            add_block(nodes, functions, yes)?;
            add_block(nodes, functions, no)
        }
        _ => Ok(()),
    }
}

// The places of the functions with this name.
fn add_places(nodes: &mut Items<u16>, functions: &[Function], name: &Name) -> Result<(), AllocError>
    requires { length functions.now ≤ MOST_FUNCTIONS }
    ensures { Appends nodes.old nodes.new (places_among functions.now name.now) result }
{
    let mut place = 0;
    for f in functions {
        if f.name == *name {
            nodes.push(place)?;
        }
        place += 1;
    }
    Ok(())
}

/// Whether no path of calls leads back to its function, for the graph of these functions' calls.
pub fn check_cycles(alloc: Global, functions: &[Function], graph: &Graph) -> Result<(), CheckError>
    requires { graph.now.calls ≡ call_graph (procedures_of functions.now) }
    ensures settles { Settles (procedures_of functions.now) (NoRecursion ∷ []) result }
    ensures acyclic { OnOk result (IsAcyclic graph.now.calls) }
{
    match first_on_cycle(alloc, graph)? {
        None => Ok(()),
        Some(v) => {
            let function = functions[v].name.copy(alloc)?;
            Err(CheckError::Fault(CheckFault::Recursion { function }))
        }
    }
}

/// The bytes of stack that these functions need, where they are within the limit, for the graph of their calls.
pub fn check_stack(alloc: Global, functions: &[Function], graph: &Graph) -> Result<u64, CheckError>
    requires small { parts (procedures_of functions.now) < 2 ^ 30 }
    requires few { length functions.now ≤ MOST_FUNCTIONS }
    requires frames { FramesAreSmall (procedures_of functions.now) }
    requires graph { graph.now.calls ≡ call_graph (procedures_of functions.now) }
    requires acyclic { IsAcyclic graph.now.calls }
    ensures need { IfOk result (λ bytes. IsStackNeed (procedures_of functions.now) bytes) }
    ensures within { IfOk result (λ bytes. bytes ≤ MOST_STACK) }
    ensures over { IfErr result (λ e. SettlesStack (procedures_of functions.now) e) }
{
    let frames = frames_of(alloc, functions)?;
    let bytes = greatest_weight(alloc, graph, frames.as_slice())?;
    if bytes > MOST_STACK {
        return Err(CheckError::Fault(CheckFault::StackNeed { bytes }));
    }
    Ok(bytes)
}

// The bytes of each function's frame.
fn frames_of(alloc: Global, functions: &[Function]) -> Result<Vec<u32>, AllocError>
    requires small { parts (procedures_of functions.now) < 2 ^ 30 }
    requires frames { FramesAreSmall (procedures_of functions.now) }
    ensures { IfOk result (λ frames. frames.items ≡ frame_needs functions.now) }
{
    let mut frames = Vec::new(alloc);
    for f in functions {
        frames.push(frame_need(alloc, f)? as u32)?;
    }
    Ok(frames)
}
