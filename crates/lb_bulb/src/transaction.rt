// The functions `lan_read` and `lan_write`: a register of the network chip is read or written.
ghost use Rattle.std.specs.Prelude.{◌≡◌, IfOk, OnOk};
ghost use Rattle.lb_syntax.specs.Tree.{Number, Variable, term_of};
ghost use Rattle.lb_syntax.specs.Tree.{command_of, block_of, procedure_of};
ghost use Rattle.lb_builders.specs.Added.{AreAdded};
ghost use Rattle.lb_builders.specs.Registers.{writes};
ghost use Rattle.lb_bulb.specs.InternalWords.{text_of};
ghost use Rattle.lb_bulb.specs.InternalParts.{next_in, opening, closing, value_read, value_sent};
ghost use Rattle.lb_bulb.specs.Supplied.{a_, v_, x_, shifted, low_byte};
ghost use Rattle.lb_bulb.specs.Supplied.{exchange_in, with_byte_at, read_in, write_out};
ghost use Rattle.lb_bulb.specs.Supplied.{read_body, write_body, read_procedure, write_procedure};

use crate::term::{low_byte, shifted};
use crate::waits::stands_still;
use crate::words::Word;
use lb_builders::{
    Spelled, add, block, number, one_name, operation, set, two_names, two_terms, variable,
    write_register,
};
use lb_syntax::{Block, Cmd, Expr, Function, Op};
use sqlite_items::Items;
use std::alloc::{AllocError, Global};

/// `x = lan_read(address);`.
pub fn read_in(alloc: Global, x: Word, address: u32) -> Result<Cmd, AllocError>
    ensures { IfOk result (λ c. command_of c ≡ read_in (text_of x) address) }
{
    Ok(Cmd::Call {
        targets: one_name(alloc, x)?,
        function: Word::LanRead.name(alloc)?,
        arguments: Items::from_vec(vec![in alloc; number(address)]?),
    })
}

/// `lan_write(address, value);`.
pub fn write_out(alloc: Global, address: u32, value: u32) -> Result<Cmd, AllocError>
    ensures { IfOk result (λ c. command_of c ≡ write_out address value) }
{
    Ok(Cmd::Call {
        targets: Items::new(alloc),
        function: Word::LanWrite.name(alloc)?,
        arguments: two_terms(alloc, number(address), number(value))?,
    })
}

// `x, e = spi_xchg(b, e);`, where these say the byte and the flag.
fn exchange(alloc: Global, x: Word, b: Expr, e: Expr) -> Result<Cmd, AllocError>
    ensures { IfOk result (λ c. command_of c ≡ exchange_in (text_of x) (term_of b) (term_of e)) }
{
    Ok(Cmd::Call {
        targets: two_names(alloc, x, Word::E)?,
        function: Word::SpiXchg.name(alloc)?,
        arguments: two_terms(alloc, b, e)?,
    })
}

// `x, e = spi_xchg(byte, e);`.
fn next(alloc: Global, x: Word, byte: Expr) -> Result<Cmd, AllocError>
    ensures command { IfOk result (λ c. command_of c ≡ next_in (text_of x) (term_of byte)) }
{
    let flag = variable(alloc, Word::E)?;
    exchange(alloc, x, byte, flag)
}

// `x, e = spi_xchg(0, e);`.
fn next_answer(alloc: Global, x: Word) -> Result<Cmd, AllocError>
    ensures { IfOk result (λ c. command_of c ≡ next_in (text_of x) (Number 0)) }
{
    next(alloc, x, number(0))
}

// `x, e = spi_xchg((a >> 8), e);`.
fn high_address(alloc: Global) -> Result<Cmd, AllocError>
    ensures { IfOk result (λ c. command_of c ≡ next_in x_ (shifted a_ 8)) }
{
    next(alloc, Word::X, shifted(alloc, Word::A, 8)?)
}

// `x, e = spi_xchg((a & 255), e);`.
fn low_address(alloc: Global) -> Result<Cmd, AllocError>
    ensures { IfOk result (λ c. command_of c ≡ next_in x_ (low_byte (Variable a_))) }
{
    next(alloc, Word::X, low_byte(alloc, variable(alloc, Word::A)?)?)
}

// `MMIOWRITE(0x10024018, mode);`.
fn select(alloc: Global, mode: u32) -> Result<Cmd, AllocError>
    ensures { IfOk result (λ c. command_of c ≡ writes 0x1002_4018 (Number mode)) }
{
    write_register(alloc, 0x1002_4018, number(mode))
}

// The transaction begins: it sends this byte and the address.
fn open(alloc: Global, commands: &mut Items<Cmd>, first: u32) -> Result<(), AllocError>
    ensures { OnOk result (AreAdded commands.old commands.new (opening first)) }
{
    add(commands, select(alloc, 2)?)?;
    add(
        commands,
        exchange(alloc, Word::X, number(first), number(0))?,
    )?;
    add(commands, high_address(alloc)?)?;
    add(commands, low_address(alloc)?)
}

// It ends, and after an exchange in vain nothing more happens.
fn close(alloc: Global, commands: &mut Items<Cmd>) -> Result<(), AllocError>
    ensures { OnOk result (AreAdded commands.old commands.new closing) }
{
    add(commands, select(alloc, 0)?)?;
    add(commands, stands_still(alloc, Word::E)?)
}

// `v = (v | (x << bits));`.
fn with_byte_at(alloc: Global, bits: u32) -> Result<Cmd, AllocError>
    ensures { IfOk result (λ c. command_of c ≡ with_byte_at bits) }
{
    let above = operation(alloc, Op::Slu, variable(alloc, Word::X)?, number(bits))?;
    let v = variable(alloc, Word::V)?;
    set(alloc, Word::V, operation(alloc, Op::Or, v, above)?)
}

// The value's bytes are read, the least significant first.
fn read_value(alloc: Global, commands: &mut Items<Cmd>) -> Result<(), AllocError>
    ensures { OnOk result (AreAdded commands.old commands.new value_read) }
{
    add(commands, next_answer(alloc, Word::V)?)?;
    add(commands, next_answer(alloc, Word::X)?)?;
    add(commands, with_byte_at(alloc, 8)?)?;
    add(commands, next_answer(alloc, Word::X)?)?;
    add(commands, with_byte_at(alloc, 16)?)?;
    add(commands, next_answer(alloc, Word::X)?)?;
    add(commands, with_byte_at(alloc, 24)?)
}

// The body of `lan_read`.
fn read_body(alloc: Global) -> Result<Block, AllocError>
    ensures { IfOk result (λ b. block_of b ≡ read_body) }
{
    let mut commands = Items::new(alloc);
    open(alloc, &mut commands, 0x0B)?;
    add(&mut commands, next_answer(alloc, Word::X)?)?;
    read_value(alloc, &mut commands)?;
    close(alloc, &mut commands)?;
    Ok(block(commands))
}

// `x, e = spi_xchg((v & 255), e);`.
fn lowest_byte(alloc: Global) -> Result<Cmd, AllocError>
    ensures { IfOk result (λ c. command_of c ≡ next_in x_ (low_byte (Variable v_))) }
{
    next(alloc, Word::X, low_byte(alloc, variable(alloc, Word::V)?)?)
}

// `x, e = spi_xchg(((v >> bits) & 255), e);`.
fn byte_from(alloc: Global, bits: u32) -> Result<Cmd, AllocError>
    ensures { IfOk result (λ c. command_of c ≡ next_in x_ (low_byte (shifted v_ bits))) }
{
    next(
        alloc,
        Word::X,
        low_byte(alloc, shifted(alloc, Word::V, bits)?)?,
    )
}

// `x, e = spi_xchg((v >> 24), e);`.
fn highest_byte(alloc: Global) -> Result<Cmd, AllocError>
    ensures { IfOk result (λ c. command_of c ≡ next_in x_ (shifted v_ 24)) }
{
    next(alloc, Word::X, shifted(alloc, Word::V, 24)?)
}

// The value's bytes are sent, the least significant first.
fn send_value(alloc: Global, commands: &mut Items<Cmd>) -> Result<(), AllocError>
    ensures { OnOk result (AreAdded commands.old commands.new value_sent) }
{
    add(commands, lowest_byte(alloc)?)?;
    add(commands, byte_from(alloc, 8)?)?;
    add(commands, byte_from(alloc, 16)?)?;
    add(commands, highest_byte(alloc)?)
}

// The body of `lan_write`.
fn write_body(alloc: Global) -> Result<Block, AllocError>
    ensures { IfOk result (λ b. block_of b ≡ write_body) }
{
    let mut commands = Items::new(alloc);
    open(alloc, &mut commands, 0x02)?;
    send_value(alloc, &mut commands)?;
    close(alloc, &mut commands)?;
    Ok(block(commands))
}

/// The function `lan_read`.
pub fn read_function(alloc: Global) -> Result<Function, AllocError>
    ensures { IfOk result (λ f. procedure_of f ≡ read_procedure) }
{
    let name = Word::LanRead.name(alloc)?;
    let params = one_name(alloc, Word::A)?;
    let results = one_name(alloc, Word::V)?;
    let body = read_body(alloc)?;
    Ok(Function {
        name,
        params,
        results,
        body,
    })
}

/// The function `lan_write`.
pub fn write_function(alloc: Global) -> Result<Function, AllocError>
    ensures { IfOk result (λ f. procedure_of f ≡ write_procedure) }
{
    let name = Word::LanWrite.name(alloc)?;
    let params = two_names(alloc, Word::A, Word::V)?;
    let body = write_body(alloc)?;
    Ok(Function {
        name,
        params,
        results: Items::new(alloc),
        body,
    })
}
