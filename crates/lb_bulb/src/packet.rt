// The first half of a round: whether a packet waits, and its words, which go into a buffer.
ghost use Rattle.std.specs.Prelude.{◌≡◌, IfOk, OnOk};
ghost use Rattle.lb_syntax.specs.Tree.{Sets, Repeats, term_of, command_of, block_of};
ghost use Rattle.lb_builders.specs.Added.{AreAdded};
ghost use Rattle.lb_bulb.specs.InternalParts.{status_bits, receiving_commands};
ghost use Rattle.lb_bulb.specs.Supplied.{len_, store_word, keep, next_word, receive_test, receive_body};

use crate::term::shifted;
use crate::transaction::read_in;
use crate::words::Word;
use lb_builders::{add, block, number, one, operation, repeats, set, variable, when};
use lb_syntax::{Block, Cmd, Expr, Op, Width};
use sqlite_items::Items;
use std::alloc::{AllocError, Global};

// `store4((buf + i), v);`.
fn store(alloc: Global) -> Result<Cmd, AllocError>
    ensures { IfOk result (λ c. command_of c ≡ store_word) }
{
    let i = variable(alloc, Word::I)?;
    let address = operation(alloc, Op::Add, variable(alloc, Word::Buf)?, i)?;
    let value = variable(alloc, Word::V)?;
    Ok(Cmd::Store {
        width: Width::Four,
        address,
        value,
    })
}

// `if (i < 1520) { .. }`: the word is kept while there is room.
fn keep(alloc: Global) -> Result<Cmd, AllocError>
    ensures { IfOk result (λ c. command_of c ≡ keep) }
{
    let condition = operation(alloc, Op::Ltu, variable(alloc, Word::I)?, number(1520))?;
    let yes = one(alloc, store(alloc)?)?;
    Ok(when(alloc, condition, yes))
}

// `i = (i + 4);`.
fn next_word(alloc: Global) -> Result<Cmd, AllocError>
    ensures { IfOk result (λ c. command_of c ≡ next_word) }
{
    let next = operation(alloc, Op::Add, variable(alloc, Word::I)?, number(4))?;
    set(alloc, Word::I, next)
}

// One word is read.
fn receive_body(alloc: Global) -> Result<Block, AllocError>
    ensures { IfOk result (λ b. block_of b ≡ receive_body) }
{
    let mut commands = Items::new(alloc);
    add(&mut commands, read_in(alloc, Word::V, 0)?)?;
    add(&mut commands, keep(alloc)?)?;
    add(&mut commands, next_word(alloc)?)?;
    Ok(block(commands))
}

// `while (i < len) { .. }`: all words are read.
fn all_words(alloc: Global) -> Result<Cmd, AllocError>
    ensures { IfOk result (λ c. command_of c ≡ Repeats receive_test receive_body) }
{
    let body = receive_body(alloc)?;
    let len = variable(alloc, Word::Len)?;
    let condition = operation(alloc, Op::Ltu, variable(alloc, Word::I)?, len)?;
    Ok(repeats(condition, body))
}

/// `((s >> bits) & mask)`: some bits of the packet's status.
pub fn status_bits(alloc: Global, bits: u32, mask: u32) -> Result<Expr, AllocError>
    ensures { IfOk result (λ e. term_of e ≡ status_bits bits mask) }
{
    operation(alloc, Op::And, shifted(alloc, Word::S, bits)?, number(mask))
}

// `len = ((s >> 16) & 0x3FFF);`.
fn length(alloc: Global) -> Result<Cmd, AllocError>
    ensures { IfOk result (λ c. command_of c ≡ Sets len_ (status_bits 16 0x3FFF)) }
{
    set(alloc, Word::Len, status_bits(alloc, 16, 0x3FFF)?)
}

/// The packet's status and its words are read.
pub fn receive(alloc: Global, commands: &mut Items<Cmd>) -> Result<(), AllocError>
    ensures added { OnOk result (AreAdded commands.old commands.new receiving_commands) }
{
    add(commands, read_in(alloc, Word::S, 0x40)?)?;
    add(commands, length(alloc)?)?;
    add(commands, set(alloc, Word::I, number(0))?)?;
    add(commands, all_words(alloc)?)
}
