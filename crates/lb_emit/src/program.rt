// The code of a program.
ghost use Rattle.std.specs.Prelude.{◌≡◌, ◌<◌, ◌≤◌, ◌+◌, [], ◌++◌, map, length, slice_index, All, IfOk, OnOk};
ghost use Rattle.lb_syntax.specs.declared.limits.TheConstants.{MOST_FRAME, MOST_WORDS};
ghost use Rattle.lb_rv.specs.Table.{IsInRange, word_of};
ghost use Rattle.lb_flat.specs.Needs.{frame_need};
ghost use Rattle.lb_flat.specs.Order.{IsPlacedInOrder};
ghost use Rattle.lb_flat.specs.Placed.{placed_executable, placed_routine};
ghost use Rattle.lb_emit_laws.specs.Code.{boot_code, entries_from, program_code, program_entry, program_words, routine_code, routine_words, routines_code};
ghost use Rattle.lb_emit_laws.specs.Correct.{IsCodeOf};
ghost use Rattle.lb_emit_laws.specs.Frames as laws;
ghost use Rattle.lb_emit.specs.InternalEmit.{AreEntries, IsFunctionPart};
ghost use Rattle.lb_emit.specs.InternalFrame.{framed_in, framed_of};
ghost use Rattle.lb_emit.specs.InternalProgram.{AreReady, IsReady, all_words};

use crate::buffer::CodeBuffer;
use crate::emitter::{Emitter, Output};
use crate::frame::Frame;
use crate::registers::{LINK, STACK, ZERO};
use lb_flat::{PlacedFunction, PlacedProgram};
use lb_memory::STACK_TOP;
use lb_rv::{Instr, encode};
use lb_syntax::{FrameLayout, Layout};
use sqlite_items::Items;
use std::alloc::{AllocError, Global};

/// How many instructions begin a program, in front of its functions.
const BOOT_WORDS: u32 = 4;

/// The number of the boot instruction that calls `loop`.
const AGAIN: u32 = 2;

/// Machine code, and where it expects the stack's blocks.
#[derive(Drop)]
pub struct Emitted {
    /// The words of the code, which stands from address 0 on.
    pub code: Vec<u32>,
    /// The frame of each function.
    pub layout: Layout,
    /// The address of the first instruction.
    pub entry: u32,
}

/// The RV32IM code of a placed program that is in order. Its layout is valid for the program. All of it
/// is in the ranges of an image. It has no more words, and among them no more loads and stores, than the
/// program asks for. Whatever words the devices reply, where the program does nothing undefined with fuel
/// n: what n instructions do to devices is a beginning of what the program does, and they don't halt; and
/// the code does what the program does within (n + 1) times as many instructions as the program asks for
/// words. Fails only for want of memory.
pub fn emit(alloc: Global, program: &PlacedProgram) -> Result<Emitted, AllocError>
    requires in_order { IsPlacedInOrder (placed_executable program.now) }
    ensures code { IfOk result (λ emitted.
        IsCodeOf (placed_executable program.now) emitted.code.items emitted.layout emitted.entry) }
{
    let emitted = emit_program(alloc, program)?;
    Ok(emitted)
}

// The code of the program, whose parts are these.
fn emit_program(alloc: Global, program: &PlacedProgram) -> Result<Emitted, AllocError>
    requires in_order { IsPlacedInOrder (placed_executable program.now) }
    ensures code { IfOk result (λ emitted.
        emitted.code.items ≡ program_words (placed_executable program.now)) }
    ensures layout { IfOk result (λ emitted.
        emitted.layout ≡ laws.layout_of (placed_executable program.now)) }
    ensures entry { IfOk result (λ emitted. emitted.entry ≡ program_entry) }
{
    let frames = frames_of(alloc, program.functions.as_slice())?;
    let code = instructions_of(alloc, program, frames.as_slice())?;
    Ok(Emitted {
        code: words_of(alloc, code.as_slice())?,
        layout: layout_of(alloc, frames.as_slice())?,
        entry: 0,
    })
}

// The frame of each function.
fn frames_of(alloc: Global, functions: &[PlacedFunction]) -> Result<Items<Frame>, AllocError>
    requires { AreReady (length functions.now) (map placed_routine functions.now) }
    ensures { IfOk result (λ frames.
        map framed_in frames ≡ map framed_of (map placed_routine functions.now)) }
{
    let mut frames = Items::new(alloc);
    for f in functions {
        frames.push(Frame::of(alloc, f)?)?;
    }
    Ok(frames)
}

// The layout that has these frames.
fn layout_of(alloc: Global, frames: &[Frame]) -> Result<Layout, AllocError>
    ensures { IfOk result (λ layout.
        layout ≡ record { frames = map (λ frame. frame.layout) frames.now }) }
{
    let mut layouts = Items::new(alloc);
    for frame in frames {
        layouts.push(FrameLayout {
            size: frame.layout.size,
            sites: Items::from_slice(alloc, frame.layout.sites.as_slice())?,
        })?;
    }
    Ok(Layout { frames: layouts })
}

// The number of the instruction at which each function begins.
fn entries_of(
    alloc: Global,
    functions: &[PlacedFunction],
    frames: &[Frame],
) -> Result<Items<u32>, AllocError>
    requires ready { AreReady (length functions.now) (map placed_routine functions.now) }
    requires framed { map framed_in frames.now ≡ map framed_of (map placed_routine functions.now) }
    requires room { 4 + all_words (map placed_routine functions.now) ≤ MOST_WORDS }
    ensures { IfOk result (λ entries. entries ≡ entries_from 4 (map placed_routine functions.now)) }
{
    let mut entries = Items::new(alloc);
    let mut next = BOOT_WORDS;
    for i in 0..functions.len() {
        entries.push(next)?;
        next += words_in(&frames[i], &functions[i]);
    }
    Ok(entries)
}

// How many instructions a function has in its frame.
fn words_in(frame: &Frame, f: &PlacedFunction) -> u32
    requires part { IsFunctionPart f.now.slots (placed_routine f.now) }
    requires framed { framed_in frame.now ≡ framed_of (placed_routine f.now) }
    requires need { frame_need (placed_routine f.now) ≤ MOST_FRAME }
    requires few { routine_words (laws.frame_of (placed_routine f.now)) (placed_routine f.now)
        ≤ MOST_WORDS }
    ensures { result ≡ routine_words (laws.frame_of (placed_routine f.now)) (placed_routine f.now) }
{
    frame.words_of_function(f)
}

// All instructions, in these frames.
fn instructions_of(
    alloc: Global,
    program: &PlacedProgram,
    frames: &[Frame],
) -> Result<CodeBuffer, AllocError>
    requires in_order { IsPlacedInOrder (placed_executable program.now) }
    requires framed { map framed_in frames.now
        ≡ map framed_of (map placed_routine program.now.functions) }
    ensures { IfOk result (λ code. code ≡ program_code (placed_executable program.now)) }
{
    let functions = program.functions.as_slice();
    let found = entries_of(alloc, functions, frames)?;
    let entries = found.as_slice();
    let mut out = Output {
        code: CodeBuffer::new(alloc),
        next_block: 0,
    };
    add_boot(
        &mut out.code,
        entries[program.init as usize],
        entries[program.again as usize],
    )?;
    add_functions(&mut out, entries, functions, frames)?;
    Ok(out.code)
}

// The instructions that begin a program, where `init` and `loop` begin at these ones.
fn add_boot(code: &mut CodeBuffer, init: u32, again: u32) -> Result<(), AllocError>
    requires empty { code.old ≡ [] }
    requires init { init ≤ MOST_WORDS }
    requires again { again ≤ MOST_WORDS }
    ensures code { OnOk result (code.new ≡ boot_code (λ entry. entry) init again) }
    ensures long { OnOk result (length code.new ≡ 4) }
{
    code.put(Instr::Lui {
        rd: STACK,
        imm: STACK_TOP,
    })?;
    code.jump_to(LINK, init)?;
    code.jump_to(LINK, again)?;
    code.jump_to(ZERO, AGAIN)
}

// The functions, one behind the other.
fn add_functions(
    out: &mut Output,
    entries: &[u32],
    functions: &[PlacedFunction],
    frames: &[Frame],
) -> Result<(), AllocError>
    requires ready { AreReady (length entries.now) (map placed_routine functions.now) }
    requires framed { map framed_in frames.now ≡ map framed_of (map placed_routine functions.now) }
    requires entries { AreEntries entries.now }
    requires room { length out.old.code + all_words (map placed_routine functions.now)
        ≤ MOST_WORDS }
    ensures { OnOk result (out.new.code ≡ out.old.code ++ routines_code
        (λ g. slice_index entries.now g) (length out.old.code) (map placed_routine functions.now)) }
{
    for i in 0..functions.len() {
        add_function(out, entries, &functions[i], &frames[i])?;
    }
    Ok(())
}

// A function in its frame.
fn add_function(
    out: &mut Output,
    entries: &[u32],
    f: &PlacedFunction,
    frame: &Frame,
) -> Result<(), AllocError>
    requires ready { IsReady (length entries.now) (placed_routine f.now) }
    requires framed { framed_in frame.now ≡ framed_of (placed_routine f.now) }
    requires entries { AreEntries entries.now }
    requires room { length out.old.code + routine_words
        (laws.frame_of (placed_routine f.now)) (placed_routine f.now) ≤ MOST_WORDS }
    ensures code { OnOk result (out.new.code ≡ out.old.code ++ routine_code
        (laws.frame_of (placed_routine f.now)) (λ g. slice_index entries.now g)
        (laws.offsets_of (placed_routine f.now)) (length out.old.code) (placed_routine f.now)) }
    ensures long { OnOk result (length out.new.code ≡ length out.old.code
        + routine_words (laws.frame_of (placed_routine f.now)) (placed_routine f.now)) }
{
    let emitter = Emitter::new(frame, entries);
    emitter.add_function(out, f)?;
    Ok(())
}

// The words of instructions.
fn words_of(alloc: Global, code: &[Instr]) -> Result<Vec<u32>, AllocError>
    requires { All IsInRange code.now }
    ensures { IfOk result (λ words. words.items ≡ map word_of code.now) }
{
    let mut words = Vec::new(alloc);
    for i in code {
        words.push(encode(i))?;
    }
    Ok(words)
}
