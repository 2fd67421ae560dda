// Commands and blocks.
ghost use Rattle.std.specs.Prelude.{◌≡◌, IfOk, OnOk, [], ◌∷◌, map};
ghost use Rattle.lb_syntax.specs.Tree.{Sets, Repeats, Chooses, Ends};
ghost use Rattle.lb_syntax.specs.Tree.{term_of, command_of, block_of, chain};
ghost use Rattle.lb_builders.specs.Added.{AreAdded};
ghost use Rattle.lb_builders.specs.Registers.{reads, writes};

use crate::spelled::{Spelled, one_name};
use crate::term::{number, two_terms};
use lb_syntax::{Action, Block, Cmd, Expr};
use sqlite_items::Items;
use std::alloc::{AllocError, Global};

/// A variable is set. `AllocError` comes where no memory is left.
pub fn set<W: Spelled>(alloc: Global, x: W, value: Expr) -> Result<Cmd, AllocError>
    ensures { IfOk result (λ c. command_of c ≡ Sets (W.text x) (term_of value)) }
{
    Ok(Cmd::Set {
        target: x.name(alloc)?,
        value,
    })
}

/// A register of a device is read into a variable. `AllocError` comes where no memory is left.
pub fn read_register<W: Spelled>(alloc: Global, x: W, address: u32) -> Result<Cmd, AllocError>
    ensures { IfOk result (λ c. command_of c ≡ reads (W.text x) address) }
{
    Ok(Cmd::Interact {
        targets: one_name(alloc, x)?,
        action: Action::Read,
        arguments: Items::from_vec(vec![in alloc; number(address)]?),
    })
}

/// A register of a device is written. `AllocError` comes where no memory is left.
pub fn write_register(alloc: Global, address: u32, value: Expr) -> Result<Cmd, AllocError>
    ensures { IfOk result (λ c. command_of c ≡ writes address (term_of value)) }
{
    Ok(Cmd::Interact {
        targets: Items::new(alloc),
        action: Action::Write,
        arguments: two_terms(alloc, number(address), value)?,
    })
}

/// A loop: while the condition isn't 0.
pub fn repeats(condition: Expr, body: Block) -> Cmd
    ensures { command_of result ≡ Repeats (term_of condition) (block_of body) }
{
    Cmd::While { condition, body }
}

/// A command that runs a block where the condition isn't 0, and nothing else.
pub fn when(alloc: Global, condition: Expr, yes: Block) -> Cmd
    ensures { command_of result ≡ Chooses (term_of condition) (block_of yes) Ends }
{
    Cmd::If {
        condition,
        yes,
        no: block(Items::new(alloc)),
    }
}

/// A block of one command. `AllocError` comes where no memory is left.
pub fn one(alloc: Global, command: Cmd) -> Result<Block, AllocError>
    ensures { IfOk result (λ b. block_of b ≡ chain (command_of command ∷ [])) }
{
    Ok(block(Items::from_vec(vec![in alloc; command]?)))
}

/// A block of two commands. `AllocError` comes where no memory is left.
pub fn two(alloc: Global, first: Cmd, second: Cmd) -> Result<Block, AllocError>
    ensures { IfOk result (λ b. block_of b ≡ chain (command_of first ∷ command_of second ∷ [])) }
{
    Ok(block(Items::from_vec(vec![in alloc; first, second]?)))
}

/// Adds a command behind others. `AllocError` comes where no memory is left.
pub fn add(commands: &mut Items<Cmd>, command: Cmd) -> Result<(), AllocError>
    ensures { OnOk result (AreAdded commands.old commands.new (command_of command ∷ [])) }
{
    commands.push(command)
}

/// A block of these commands.
pub fn block(commands: Items<Cmd>) -> Block
    ensures { block_of result ≡ chain (map command_of commands) }
{
    Block { commands }
}
