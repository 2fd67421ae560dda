// The commands of a program, run.
ghost use Rattle.std.specs.Prelude.{◌≡◌, ◌≤◌, ◌<◌, ◌+◌, ◌-◌, map, drop, length, IfOk, MatchOption};
ghost use Rattle.lb_memory.specs.declared.TheConstants.{STACK_TOP};
ghost use Rattle.lb_syntax.specs.Tree.{term_of, command_of, block_of, program_of, Allocates};
ghost use Rattle.lb_syntax.specs.Needs.{sites};
ghost use Rattle.lb_syntax.specs.declared.tree.Cmd.{size-Cmd};
ghost use Rattle.lb_syntax.specs.declared.tree.Block.{size-Block};
ghost use Rattle.lb_source.specs.Run.{callee};
ghost use Rattle.lb_source.specs.InternalMachine.{Follows, FollowsTurns, FollowsCall, FollowsEntry, Enters, HasVariables, BlockFits, BlocksFit, BodyFits, FrameFits, FramesFit, Found, depth_of, functions_of};

use crate::ends::SourceEnd;
use crate::machine::{
    Flow, Machine, assign_all, interact, remove, return_to, set_to, store, undefined, value, values,
};
use crate::memory::Cell;
use crate::variables::{Entry, assign};
use lb_syntax::{Block, Cmd, Expr, FrameLayout, Function, Layout, Name, Program};
use std::alloc::{AllocError, Global};
use std::marker::Model;
use std::mem;

/// What a run doesn't change: the program and its layout.
#[derive(Drop)]
pub struct Interpreter<'a> {
    alloc: Global,
    program: &'a Program,
    layout: &'a Layout,
}

impl<'a> Model for Interpreter<'a> {
    ghost use Rattle.std.specs.Coded.{codes};
    ghost use Rattle.lb_syntax.specs.Tree.{program_of};
    ghost use Rattle.lb_syntax.specs.contracts.tree.Cmd as cmd;
    ghost use Rattle.lb_source.specs.InternalMachine.{FramesFit, InterpreterContent};

    ghost Value = { InterpreterContent };

    ghost coded = { Prim.hlevel (codes, cmd.the_row.coded) };

    ghost view = { λ i. record { program = i.program.now; layout = i.layout.now } };

    ghost invariant = { λ i. FramesFit (program_of i.program.now) i.layout.now.frames };
}

impl<'a> Interpreter<'a> {
    /// An interpreter of this program, under a layout whose frames fit.
    pub fn new(alloc: Global, program: &'a Program, layout: &'a Layout) -> Interpreter<'a>
        requires { FramesFit (program_of program.now) layout.now.frames }
        ensures program { result.program ≡ program.entry.now }
        ensures layout { result.layout ≡ layout.entry.now }
    {
        Interpreter {
            alloc,
            program,
            layout,
        }
    }

    /// The first function of this name, and its frame.
    fn find_function(&self, name: &[u8]) -> Option<(&'a Function, &'a FrameLayout)>
        ensures { MatchOption result (callee (functions_of self.now) name.now ≡ None)
            (λ found. Found self.now name.now found.0.now found.1.now) }
    {
        let functions = self.program.functions.as_slice();
        let frames = self.layout.frames.as_slice();
        for (i, function) in functions.iter().enumerate() {
            let Some(frame) = frames.get(i) else {
                return None;
            };
            if function.name.as_bytes() == name {
                return Some((function, frame));
            }
        }
        None
    }

    /// Enters a function: spends one fuel, sets the parameters alone and makes the stack pointer
    /// smaller. The answer is the caller's variables.
    fn begin(
        &self,
        m: &mut Machine,
        function: &Function,
        frame: &FrameLayout,
        vs: &[u32],
    ) -> Result<Vec<Entry>, AllocError>
        requires some { 0 < m.old.fuel }
        requires stack { m.old.stack ≤ STACK_TOP }
        requires fits { FrameFits frame.now (block_of function.now.body) }
        ensures caller { IfOk result (λ caller. HasVariables m.old caller.items) }
        ensures begins { IfOk result (λ caller. Enters function.now frame.now vs.now m.old m.new) }
        ensures fuel { m.new.fuel + 1 ≡ m.old.fuel }
        ensures stack { m.new.stack ≤ STACK_TOP }
        ensures blocks { IfOk result (λ caller. BodyFits m.new function.now frame.now) }
    {
        m.fuel -= 1;
        let mut entries = Vec::new(self.alloc);
        assign_all(self.alloc, &mut entries, function.params.as_slice(), vs)?;
        let caller = mem::replace(&mut m.variables, entries);
        m.stack = m.stack.saturating_sub(frame.size);
        Ok(caller)
    }

    /// Runs a command; `offsets` are those of the sites from here on.
    #[cycle(run)]
    fn run_command(&self, m: &mut Machine, offsets: &[u32], c: &Cmd) -> Result<Flow, AllocError>
        requires stack { m.old.stack ≤ STACK_TOP }
        requires blocks { BlocksFit (STACK_TOP - m.old.stack) offsets.now (command_of c.now) }
        requires deep { size-Cmd c.now ≤ depth_of self.now }
        ensures follows { IfOk result (λ flow. Follows (functions_of self.now) offsets.now
            (command_of c.now) m.old flow m.new) }
        ensures fuel { m.new.fuel ≤ m.old.fuel }
        ensures stack { IfOk result (λ flow. m.new.stack ≡ m.old.stack) }
    {
        match c {
            Cmd::Skip => Ok(Flow::On),
            Cmd::Set { target, value } => set_to(m, self.alloc, target, value),
            Cmd::Unset { target } => Ok(remove(m, target)),
            Cmd::Store {
                width,
                address,
                value,
            } => Ok(store(m, *width, address, value)),
            Cmd::StackAlloc {
                bytes,
                target,
                body,
            } => self.run_allocated(m, offsets, body, *bytes, target),
            Cmd::If { condition, yes, no } => match value(m, condition) {
                Err(reason) => Ok(undefined(reason)),
                Ok(0) => self.run_block(m, after_block(offsets, yes), no),
                Ok(_) => self.run_block(m, offsets, yes),
            },
            Cmd::While { condition, body } => self.run_loop(m, offsets, body, condition),
            Cmd::Call {
                targets,
                function,
                arguments,
            } => {
                let name = function.as_bytes();
                self.run_call(m, name, arguments.as_slice(), targets.as_slice())
            }
            Cmd::Interact {
                targets,
                action,
                arguments,
            } => {
                let targets = targets.as_slice();
                interact(m, self.alloc, targets, *action, arguments.as_slice())
            }
        }
    }

    /// Runs the commands of a block, one after another.
    #[cycle(run)]
    fn run_block(&self, m: &mut Machine, offsets: &[u32], block: &Block) -> Result<Flow, AllocError>
        requires stack { m.old.stack ≤ STACK_TOP }
        requires blocks { BlocksFit (STACK_TOP - m.old.stack) offsets.now (block_of block.now) }
        requires deep { size-Block block.now ≤ depth_of self.now }
        ensures follows { IfOk result (λ flow. Follows (functions_of self.now) offsets.now
            (block_of block.now) m.old flow m.new) }
        ensures fuel { m.new.fuel ≤ m.old.fuel }
        ensures stack { IfOk result (λ flow. m.new.stack ≡ m.old.stack) }
    {
        let mut rest = offsets;
        for c in block.commands.as_slice() {
            match self.run_command(m, rest, c)? {
                Flow::On => {}
                Flow::End(end) => return Ok(Flow::End(end)),
            }
            rest = after_command(rest, c);
        }
        Ok(Flow::On)
    }

    /// Runs the body as long as the condition isn't zero; each turn spends one fuel.
    #[cycle(run)]
    fn run_loop(
        &self,
        m: &mut Machine,
        offsets: &[u32],
        body: &Block,
        condition: &Expr,
    ) -> Result<Flow, AllocError>
        requires stack { m.old.stack ≤ STACK_TOP }
        requires blocks { BlocksFit (STACK_TOP - m.old.stack) offsets.now (block_of body.now) }
        requires deep { size-Block body.now ≤ depth_of self.now }
        ensures follows { IfOk result (λ flow. FollowsTurns (functions_of self.now) offsets.now
            (term_of condition.now) (block_of body.now) m.old flow m.new) }
        ensures fuel { m.new.fuel ≤ m.old.fuel }
        ensures stack { IfOk result (λ flow. m.new.stack ≡ m.old.stack) }
    {
        'turns: loop {
            match value(m, condition) {
                Err(reason) => return Ok(undefined(reason)),
                Ok(0) => return Ok(Flow::On),
                Ok(_) => {}
            }
            if m.fuel == 0 {
                return Ok(Flow::End(SourceEnd::Spent));
            }
            m.fuel -= 1;
            match self.run_block(m, offsets, body)? {
                Flow::On => {}
                Flow::End(end) => return Ok(Flow::End(end)),
            }
        }
    }

    /// Runs the body of a stackalloc, whose block is owned meanwhile.
    #[cycle(run)]
    fn run_allocated(
        &self,
        m: &mut Machine,
        offsets: &[u32],
        body: &Block,
        bytes: u32,
        target: &Name,
    ) -> Result<Flow, AllocError>
        requires stack { m.old.stack ≤ STACK_TOP }
        requires block { BlockFits (STACK_TOP - m.old.stack) offsets.now bytes }
        requires blocks { BlocksFit (STACK_TOP - m.old.stack) (drop 1 offsets.now)
            (block_of body.now) }
        requires deep { size-Block body.now < depth_of self.now }
        ensures follows { IfOk result (λ flow. Follows (functions_of self.now) offsets.now
            (Allocates bytes target.now (block_of body.now)) m.old flow m.new) }
        ensures fuel { m.new.fuel ≤ m.old.fuel }
        ensures stack { IfOk result (λ flow. m.new.stack ≡ m.old.stack) }
    {
        let [offset, rest @ ..] = offsets else {
            unreachable!()
        };
        let base = m.stack + *offset;
        m.bytes.fill(base, bytes, Cell::Unset);
        assign(self.alloc, &mut m.variables, target, base)?;
        match self.run_block(m, rest, body)? {
            Flow::On => {
                m.bytes.fill(base, bytes, Cell::Absent);
                Ok(Flow::On)
            }
            Flow::End(end) => Ok(Flow::End(end)),
        }
    }

    /// Calls a function: evaluates the arguments, spends one fuel, runs the body and goes back.
    #[cycle(run)]
    pub fn run_call(
        &self,
        m: &mut Machine,
        name: &[u8],
        arguments: &[Expr],
        targets: &[Name],
    ) -> Result<Flow, AllocError>
        requires stack { m.old.stack ≤ STACK_TOP }
        ensures follows { IfOk result (λ flow. FollowsCall (functions_of self.now) name.now
            (map term_of arguments.now) targets.now m.old flow m.new) }
        ensures fuel { m.new.fuel ≤ m.old.fuel }
        ensures spends { IfOk result (λ flow. flow ≡ Flow.On → m.new.fuel < m.old.fuel) }
        ensures stack { IfOk result (λ flow. m.new.stack ≡ m.old.stack) }
    {
        match values(m, self.alloc, arguments)? {
            Err(reason) => Ok(undefined(reason)),
            Ok(vs) => self.enter(m, name, vs.as_slice(), targets),
        }
    }

    /// Calls a function with these arguments.
    #[cycle(run)]
    fn enter(
        &self,
        m: &mut Machine,
        name: &[u8],
        vs: &[u32],
        targets: &[Name],
    ) -> Result<Flow, AllocError>
        requires stack { m.old.stack ≤ STACK_TOP }
        ensures follows { IfOk result (λ flow. FollowsEntry (functions_of self.now) name.now vs.now
            targets.now m.old flow m.new) }
        ensures fuel { m.new.fuel ≤ m.old.fuel }
        ensures spends { IfOk result (λ flow. flow ≡ Flow.On → m.new.fuel < m.old.fuel) }
        ensures stack { IfOk result (λ flow. m.new.stack ≡ m.old.stack) }
    {
        let Some((function, frame)) = self.find_function(name) else {
            return Ok(Flow::End(SourceEnd::Spent));
        };
        if m.fuel == 0 {
            return Ok(Flow::End(SourceEnd::Spent));
        }
        let stack = m.stack;
        let caller = self.begin(m, function, frame, vs)?;
        let flow = self.run_block(m, frame.sites.as_slice(), &function.body)?;
        m.stack = stack;
        match flow {
            Flow::End(end) => Ok(Flow::End(end)),
            Flow::On => return_to(m, self.alloc, function.results.as_slice(), targets, caller),
        }
    }
}

/// The offsets of the sites behind a command.
#[cycle(skip)]
fn after_command<'a>(offsets: &'a [u32], c: &Cmd) -> &'a [u32]
    ensures { result.now ≡ drop (length (sites (command_of c.now))) offsets.now }
{
    let [_, rest @ ..] = offsets else {
        return offsets;
    };
    match c {
        Cmd::StackAlloc { body, .. } => after_block(rest, body),
        Cmd::If { yes, no, .. } => after_block(after_block(offsets, yes), no),
        Cmd::While { body, .. } => after_block(offsets, body),
        Cmd::Skip
        | Cmd::Set { .. }
        | Cmd::Unset { .. }
        | Cmd::Store { .. }
        | Cmd::Call { .. }
        | Cmd::Interact { .. } => offsets,
    }
}

/// The offsets of the sites behind a block.
#[cycle(skip)]
fn after_block<'a>(offsets: &'a [u32], block: &Block) -> &'a [u32]
    ensures { result.now ≡ drop (length (sites (block_of block.now))) offsets.now }
{
    let mut rest = offsets;
    for c in block.commands.as_slice() {
        rest = after_command(rest, c);
    }
    rest
}
