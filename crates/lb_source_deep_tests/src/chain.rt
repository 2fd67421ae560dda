// Programs of functions of which each calls the next, in its innermost block: checked, laid out and run.
use lb_handmade::{NotChecked, checked, packed_layout};
use lb_source::{SourceRun, interpret};
use lb_syntax::{Action, Block, Cmd, Expr, Function, Name, Program};
use sqlite_items::Items;
use std::alloc::Global;

fn only(alloc: Global, command: Cmd) -> Result<Block, NotChecked> {
    let mut commands = Items::new(alloc);
    commands.push(command)?;
    Ok(Block { commands })
}

/// Commands that hold a block.
#[derive(Clone, Copy, Debug)]
pub enum Nest {
    /// `stackalloc BYTES as x { .. }`.
    StackAlloc { bytes: u32 },
    /// `if 1 { .. }`.
    If,
    /// `while 1 { .. }`.
    While,
}

// The command that holds this block.
fn holder(alloc: Global, nest: Nest, body: Block) -> Result<Cmd, NotChecked> {
    let condition = Expr::Literal(1);
    Ok(match nest {
        Nest::StackAlloc { bytes } => Cmd::StackAlloc {
            bytes,
            target: Name::new(alloc, b"x")?,
            body,
        },
        Nest::If => Cmd::If {
            condition,
            yes: body,
            no: Block {
                commands: Items::new(alloc),
            },
        },
        Nest::While => Cmd::While { condition, body },
    })
}

// So many such commands in one another, and in the innermost this.
fn nested(alloc: Global, nest: Nest, count: u32, innermost: Block) -> Result<Block, NotChecked> {
    let mut block = innermost;
    for _count in 0..count {
        block = only(alloc, holder(alloc, nest, block)?)?;
    }
    Ok(block)
}

// `MMIOWRITE(0x1001200C, 1);`
fn report(alloc: Global) -> Result<Block, NotChecked> {
    let mut arguments = Items::new(alloc);
    arguments.push(Expr::Literal(0x1001_200C))?;
    arguments.push(Expr::Literal(1))?;
    only(
        alloc,
        Cmd::Interact {
            targets: Items::new(alloc),
            action: Action::Write,
            arguments,
        },
    )
}

fn call(alloc: Global, name: &Name) -> Result<Block, NotChecked> {
    only(
        alloc,
        Cmd::Call {
            targets: Items::new(alloc),
            function: Name::new(alloc, name.as_bytes())?,
            arguments: Items::new(alloc),
        },
    )
}

/// Functions of which each calls the next, in its innermost block. The last reports there.
#[derive(Clone, Copy)]
pub struct Chain<'a> {
    /// Their names, in order.
    pub names: &'a [Name],
    pub nest: Nest,
    /// How deep the commands of each function but the last nest.
    pub each: u32,
    /// How deep those of the last one nest.
    pub last: u32,
}

impl Chain<'_> {
    // The function of the first of these names; the rest are behind it.
    fn link(&self, alloc: Global, name: &Name, rest: &[Name]) -> Result<Function, NotChecked> {
        let body = match rest {
            [] => nested(alloc, self.nest, self.last, report(alloc)?)?,
            [next, ..] => nested(alloc, self.nest, self.each, call(alloc, next)?)?,
        };
        Ok(Function {
            name: Name::new(alloc, name.as_bytes())?,
            params: Items::new(alloc),
            results: Items::new(alloc),
            body,
        })
    }

    fn program(&self, alloc: Global) -> Result<Program, NotChecked> {
        let mut functions = Items::new(alloc);
        for (i, name) in self.names.iter().enumerate() {
            functions.push(self.link(alloc, name, &self.names[i + 1..])?)?;
        }
        Ok(Program { functions })
    }

    /// Checks and runs them. The blocks of each frame stand one after another.
    pub fn run(&self, alloc: Global, fuel: u64) -> Result<SourceRun, NotChecked> {
        let program = checked(alloc, self.program(alloc)?)?;
        let layout = packed_layout(alloc, &program)?;
        Ok(interpret(alloc, &program, &layout, fuel, &[])?)
    }
}
