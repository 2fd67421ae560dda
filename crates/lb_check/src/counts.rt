// How many words of code a function asks for, how deep its expressions are, and how many bytes its blocks of memory have.
ghost use Rattle.std.specs.Prelude.{◌≡◌, ◌<◌, ◌≤◌, ◌+◌, ◌*◌, ◌^◌, map, sum, length};
ghost use Rattle.lb_syntax.specs.Tree.{term_of, command_of, block_of, procedure_of};
ghost use Rattle.lb_syntax.specs.Needs.{nodes, terms_words, words, procedure_words, depth, greatest, greatest_depth, sites};
ghost use Rattle.lb_check.specs.Parts.{body_parts, function_parts};
ghost use Rattle.lb_check.specs.InternalWalks.{call_words};

use lb_syntax::{Block, Cmd, Expr, Function};

// Words of a function beside those of its commands.
const FUNCTION_WORDS: u64 = 80;

// Words of a command, of each node of an expression, and of each argument, target, parameter and result.
const COMMAND_WORDS: u64 = 8;

const NODE_WORDS: u64 = 6;

const PASSED_WORDS: u64 = 4;

// The literals, variables, loads and operations of an expression.
fn nodes_of(e: &Expr) -> u64
    requires { nodes (term_of e.now) < 2 ^ 30 }
    ensures value { result ≡ nodes (term_of e.now) }
    ensures some { 1 ≤ result }
{
    match e {
        Expr::Literal(_) | Expr::Var(_) => 1,
        Expr::Load { address, .. } => nodes_of(address.get()) + 1,
        Expr::Binary { left, right, .. } => nodes_of(left.get()) + nodes_of(right.get()) + 1,
    }
}

// The words of arguments, and those for passing them.
fn words_of_arguments(arguments: &[Expr]) -> u64
    requires { sum (map nodes (map term_of arguments.now)) < 2 ^ 30 }
    ensures value { result ≡ terms_words (map term_of arguments.now) + 4 * length arguments.now }
    ensures few { result ≤ 10 * sum (map nodes (map term_of arguments.now)) }
{
    let mut count = 0;
    for argument in arguments {
        count += NODE_WORDS * nodes_of(argument) + PASSED_WORDS;
    }
    count
}

// The words of a call or an access.
fn words_of_call(targets: usize, arguments: &[Expr]) -> u64
    requires { sum (map nodes (map term_of arguments.now)) + targets < 2 ^ 30 }
    ensures value { result ≡ call_words arguments.now targets }
    ensures few { result ≤ 10 * (1 + sum (map nodes (map term_of arguments.now)) + targets) }
{
    COMMAND_WORDS + words_of_arguments(arguments) + PASSED_WORDS * targets as u64
}

// The words of a block.
#[cycle(words)]
fn words_of_block(block: &Block) -> u64
    requires { body_parts (block_of block.now) < 2 ^ 30 }
    ensures value { result ≡ words (block_of block.now) }
    ensures few { result ≤ 10 * body_parts (block_of block.now) }
{
    let mut count = 0;
    for c in block.commands.as_slice() {
        count += words_of_command(c);
    }
    count
}

// The words of a command.
#[cycle(words)]
fn words_of_command(c: &Cmd) -> u64
    requires { body_parts (command_of c.now) < 2 ^ 30 }
    ensures value { result ≡ words (command_of c.now) }
    ensures few { result ≤ 10 * body_parts (command_of c.now) }
{
    match c {
        Cmd::Skip | Cmd::Unset { .. } => COMMAND_WORDS,
        Cmd::Set { value, .. } => COMMAND_WORDS + NODE_WORDS * nodes_of(value),
        Cmd::Store { address, value, .. } => {
            COMMAND_WORDS + NODE_WORDS * nodes_of(address) + NODE_WORDS * nodes_of(value)
        }
        Cmd::StackAlloc { body, .. } => COMMAND_WORDS + words_of_block(body),
        Cmd::If { condition, yes, no } => {
            COMMAND_WORDS
                + NODE_WORDS * nodes_of(condition)
                + words_of_block(yes)
                + words_of_block(no)
        }
        Cmd::While { condition, body } => {
            COMMAND_WORDS + NODE_WORDS * nodes_of(condition) + words_of_block(body)
        }
        Cmd::Call {
            targets,
            arguments,
            ..
        }
        | Cmd::Interact {
            targets,
            arguments,
            ..
        } => words_of_call(targets.len(), arguments.as_slice()),
    }
}

/// The words of a function, its slots within reach.
pub fn words_of_function(f: &Function) -> u64
    requires { function_parts (procedure_of f.now) < 2 ^ 30 }
    ensures value { result ≡ procedure_words (procedure_of f.now) }
    ensures few { result ≤ 80 * function_parts (procedure_of f.now) }
{
    let passed = f.params.len() as u64 + f.results.len() as u64;
    FUNCTION_WORDS + PASSED_WORDS * passed + words_of_block(&f.body)
}

// How deep an expression nests.
fn depth_of(e: &Expr) -> u64
    requires { nodes (term_of e.now) < 2 ^ 30 }
    ensures value { result ≡ depth (term_of e.now) }
    ensures few { result ≤ nodes (term_of e.now) }
{
    match e {
        Expr::Literal(_) | Expr::Var(_) => 1,
        Expr::Load { address, .. } => depth_of(address.get()) + 1,
        Expr::Binary { left, right, .. } => depth_of(left.get()).max(depth_of(right.get())) + 1,
    }
}

// The greatest depth of several expressions.
fn depth_of_arguments(arguments: &[Expr]) -> u64
    requires { sum (map nodes (map term_of arguments.now)) < 2 ^ 30 }
    ensures value { result ≡ greatest (map depth (map term_of arguments.now)) }
    ensures few { result ≤ sum (map nodes (map term_of arguments.now)) }
{
    let mut deepest = 0;
    for argument in arguments {
        deepest = depth_of(argument).max(deepest);
    }
    deepest
}

/// The greatest depth of an expression in a block, 0 where there is none. The block is one of a program that has been read or
/// checked, so it has fewer than 2^30 parts.
#[cycle(depth)]
pub fn depth_of_block(block: &Block) -> u64
    requires { body_parts (block_of block.now) < 2 ^ 30 }
    ensures value { result ≡ greatest_depth (block_of block.now) }
    ensures few { result ≤ body_parts (block_of block.now) }
{
    let mut deepest = 0;
    for c in block.commands.as_slice() {
        deepest = depth_of_command(c).max(deepest);
    }
    deepest
}

// The greatest depth of an expression in a command, 0 where there is none.
#[cycle(depth)]
fn depth_of_command(c: &Cmd) -> u64
    requires { body_parts (command_of c.now) < 2 ^ 30 }
    ensures value { result ≡ greatest_depth (command_of c.now) }
    ensures few { result ≤ body_parts (command_of c.now) }
{
    match c {
        Cmd::Skip | Cmd::Unset { .. } => 0,
        Cmd::Set { value, .. } => depth_of(value),
        Cmd::Store { address, value, .. } => depth_of(address).max(depth_of(value)),
        Cmd::StackAlloc { body, .. } => depth_of_block(body),
        Cmd::If { condition, yes, no } => {
            depth_of(condition).max(depth_of_block(yes).max(depth_of_block(no)))
        }
        Cmd::While { condition, body } => depth_of(condition).max(depth_of_block(body)),
        Cmd::Call { arguments, .. } | Cmd::Interact { arguments, .. } => {
            depth_of_arguments(arguments.as_slice())
        }
    }
}

// A number of bytes.
fn wide(bytes: u32) -> u64
    ensures value { result ≡ bytes }
    ensures few { result < 2 ^ 32 }
{
    u64::from(bytes)
}

/// The bytes of the blocks of memory of a block of commands.
#[cycle(memory)]
pub fn memory_of_block(block: &Block) -> u64
    requires { body_parts (block_of block.now) < 2 ^ 30 }
    ensures value { result ≡ sum (sites (block_of block.now)) }
    ensures few { result ≤ 4294967296 * body_parts (block_of block.now) }
{
    let mut count = 0;
    for c in block.commands.as_slice() {
        count += memory_of_command(c);
    }
    count
}

// The bytes of the blocks of memory of a command.
#[cycle(memory)]
fn memory_of_command(c: &Cmd) -> u64
    requires { body_parts (command_of c.now) < 2 ^ 30 }
    ensures value { result ≡ sum (sites (command_of c.now)) }
    ensures few { result ≤ 4294967296 * body_parts (command_of c.now) }
{
    match c {
        Cmd::StackAlloc { bytes, body, .. } => wide(*bytes) + memory_of_block(body),
        Cmd::If { yes, no, .. } => memory_of_block(yes) + memory_of_block(no),
        Cmd::While { body, .. } => memory_of_block(body),
        _ => 0,
    }
}
