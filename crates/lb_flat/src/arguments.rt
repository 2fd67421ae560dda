// How many arguments the calls of a function have.
ghost use Rattle.std.specs.Prelude.{◌≡◌, ◌<◌, ◌^◌};
ghost use Rattle.lb_syntax.specs.Tree.{command_of, block_of};
ghost use Rattle.lb_flat.specs.SourceCounts.{greatest_arguments};

use lb_syntax::{Block, Cmd};

/// The most arguments of a call or an access in a block, where a store counts as one with two.
#[cycle(arguments)]
pub fn arguments_of_block(block: &Block) -> u32
    requires { greatest_arguments (block_of block.now) < 2 ^ 32 }
    ensures { result ≡ greatest_arguments (block_of block.now) }
{
    let mut most = 0;
    for c in block.commands.as_slice() {
        most = arguments_of_command(c).max(most);
    }
    most
}

// The most arguments of a call or an access in a command.
#[cycle(arguments)]
fn arguments_of_command(c: &Cmd) -> u32
    requires { greatest_arguments (command_of c.now) < 2 ^ 32 }
    ensures { result ≡ greatest_arguments (command_of c.now) }
{
    match c {
        Cmd::Skip | Cmd::Set { .. } | Cmd::Unset { .. } => 0,
        Cmd::Store { .. } => 2,
        Cmd::StackAlloc { body, .. } | Cmd::While { body, .. } => arguments_of_block(body),
        Cmd::If { yes, no, .. } => arguments_of_block(yes).max(arguments_of_block(no)),
        Cmd::Call { arguments, .. } | Cmd::Interact { arguments, .. } => arguments.len() as u32,
    }
}
