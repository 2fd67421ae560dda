// The layout of a checked program, the blocks of each frame one after another.
ghost use Rattle.std.specs.Prelude.{◌≡◌, ◌≤◌, ◌++◌, map, sum, All, IfOk, OnOk};
ghost use Rattle.lb_syntax.specs.declared.limits.TheConstants.{MOST_FRAME};
ghost use Rattle.lb_syntax.specs.Tree.{command_of, block_of, procedure_of, program_of};
ghost use Rattle.lb_syntax.specs.Needs.{sites, frame_need};
ghost use Rattle.lb_syntax.specs.Layouts.{IsValidLayout};
ghost use Rattle.lb_handmade.specs.Packed.{packed, packed_frames, IsPackedLayout};

use lb_check::Checked;
use lb_syntax::{Block, Cmd, FrameLayout, Function, Layout};
use sqlite_items::Items;
use std::alloc::{AllocError, Global};

/// A layout of the program: each frame has its blocks in text order, one after another, and nothing else.
pub fn packed_layout(alloc: Global, program: &Checked) -> Result<Layout, AllocError>
    ensures valid { IfOk result (λ layout. IsValidLayout layout (program_of program.now)) }
    ensures packed { IfOk result (λ layout. IsPackedLayout layout (program_of program.now)) }
{
    let frames = frames_of(alloc, program.program().functions.as_slice())?;
    Ok(Layout { frames })
}

// A frame for each function.
fn frames_of(alloc: Global, functions: &[Function]) -> Result<Items<FrameLayout>, AllocError>
    requires { All (λ f. frame_need f ≤ MOST_FRAME) (map procedure_of functions.now) }
    ensures { IfOk result (λ frames. frames ≡ packed_frames (map procedure_of functions.now)) }
{
    let mut frames = Items::new(alloc);
    for function in functions {
        frames.push(frame_of(alloc, &function.body)?)?;
    }
    Ok(frames)
}

// The frame of a body.
fn frame_of(alloc: Global, body: &Block) -> Result<FrameLayout, AllocError>
    requires { sum (sites (block_of body.now)) ≤ MOST_FRAME }
    ensures { IfOk result (λ frame. frame ≡ packed (sites (block_of body.now))) }
{
    let mut sizes = Vec::new(alloc);
    push_block_sizes(&mut sizes, body)?;
    packed(alloc, sizes.as_slice())
}

// Appends the sizes of a block's stackallocs.
#[cycle(sizes)]
fn push_block_sizes(sizes: &mut Vec<u32>, block: &Block) -> Result<(), AllocError>
    ensures { OnOk result (sizes.new.items ≡ sizes.old.items ++ sites (block_of block.now)) }
{
    for c in block.commands.as_slice() {
        push_sizes(sizes, c)?;
    }
    Ok(())
}

// Appends the sizes of a command's stackallocs.
#[cycle(sizes)]
fn push_sizes(sizes: &mut Vec<u32>, c: &Cmd) -> Result<(), AllocError>
    ensures { OnOk result (sizes.new.items ≡ sizes.old.items ++ sites (command_of c.now)) }
{
    match c {
        Cmd::StackAlloc { bytes, body, .. } => {
            sizes.push(*bytes)?;
            push_block_sizes(sizes, body)
        }
        Cmd::If { yes, no, .. } => {
            push_block_sizes(sizes, yes)?;
            push_block_sizes(sizes, no)
        }
        Cmd::While { body, .. } => push_block_sizes(sizes, body),
        Cmd::Skip
        | Cmd::Set { .. }
        | Cmd::Unset { .. }
        | Cmd::Store { .. }
        | Cmd::Call { .. }
        | Cmd::Interact { .. } => Ok(()),
    }
}

// The frame of blocks of these sizes, one after another.
fn packed(alloc: Global, sizes: &[u32]) -> Result<FrameLayout, AllocError>
    requires { sum sizes.now ≤ MOST_FRAME }
    ensures { IfOk result (λ frame. frame ≡ packed sizes.now) }
{
    let mut offsets = Items::new(alloc);
    let mut end = 0;
    for size in sizes {
        offsets.push(end)?;
        end += *size;
    }
    Ok(FrameLayout {
        size: end,
        sites: offsets,
    })
}
