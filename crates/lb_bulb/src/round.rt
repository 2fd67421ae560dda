// The function `loop`: a round. A packet that waits is read; where it counts, the lamp is switched.
ghost use Rattle.std.specs.Prelude.{◌≡◌, IfOk, OnOk};
ghost use Rattle.lb_syntax.specs.Tree.{Number, Variable, Operation, Sets, Chooses, Ends};
ghost use Rattle.lb_syntax.specs.Tree.{term_of, command_of, block_of, procedure_of};
ghost use Rattle.lb_syntax.specs.declared.tree.Op.TheVariants.{And};
ghost use Rattle.lb_builders.specs.Added.{AreAdded};
ghost use Rattle.lb_bulb.specs.InternalParts.{byte_is, judging_commands};
ghost use Rattle.lb_bulb.specs.Supplied.{bad_, c_, ok_, is_zero, byte_of, and_byte, switched, switching};
ghost use Rattle.lb_bulb.specs.Supplied.{checking, bad_where, too_short, too_long, packet_waits};
ghost use Rattle.lb_bulb.specs.Supplied.{filled_body, round_body, loop_body, loop_procedure};

use crate::boot::now_bad;
use crate::packet::{receive, status_bits};
use crate::term::{is_zero, low_byte, shifted};
use crate::transaction::read_in;
use crate::words::Word;
use lb_builders::{
    Spelled, add, block, number, one, operation, read_register, set, two, variable, when,
    write_register,
};
use lb_syntax::{Block, Cmd, Expr, Function, Op, Width};
use sqlite_items::{Boxed, Items};
use std::alloc::{AllocError, Global};

// `load1((buf + place))`.
fn byte_of(alloc: Global, place: u32) -> Result<Expr, AllocError>
    ensures { IfOk result (λ e. term_of e ≡ byte_of place) }
{
    let address = operation(alloc, Op::Add, variable(alloc, Word::Buf)?, number(place))?;
    Ok(Expr::Load {
        width: Width::One,
        address: Boxed::new(alloc, address)?,
    })
}

// `(load1((buf + place)) == byte)`.
fn byte_is(alloc: Global, place: u32, byte: u32) -> Result<Expr, AllocError>
    ensures { IfOk result (λ e. term_of e ≡ byte_is place byte) }
{
    operation(alloc, Op::Eq, byte_of(alloc, place)?, number(byte))
}

// `ok = (ok & (load1((buf + place)) == byte));`.
fn and_byte(alloc: Global, place: u32, byte: u32) -> Result<Cmd, AllocError>
    ensures { IfOk result (λ c. command_of c ≡ and_byte place byte) }
{
    let test = byte_is(alloc, place, byte)?;
    let so_far = variable(alloc, Word::Fine)?;
    set(alloc, Word::Fine, operation(alloc, Op::And, so_far, test)?)
}

// `c = (load1((buf + 42)) & 1);`.
fn command(alloc: Global) -> Result<Cmd, AllocError>
    ensures { IfOk result (λ c. command_of c ≡ Sets c_ (Operation And (byte_of 42) (Number 1))) }
{
    let bit = operation(alloc, Op::And, byte_of(alloc, 42)?, number(1))?;
    set(alloc, Word::C, bit)
}

// `((v & 0xFF7FFFFF) | (c << 23))`.
fn switched(alloc: Global) -> Result<Expr, AllocError>
    ensures { IfOk result (λ e. term_of e ≡ switched) }
{
    let bit = operation(alloc, Op::Slu, variable(alloc, Word::C)?, number(23))?;
    let others = operation(
        alloc,
        Op::And,
        variable(alloc, Word::V)?,
        number(0xFF7F_FFFF),
    )?;
    operation(alloc, Op::Or, others, bit)
}

// The lamp is switched.
fn switching(alloc: Global) -> Result<Block, AllocError>
    ensures { IfOk result (λ b. block_of b ≡ switching) }
{
    let mut commands = Items::new(alloc);
    add(&mut commands, command(alloc)?)?;
    add(&mut commands, read_register(alloc, Word::V, 0x1001_200C)?)?;
    add(&mut commands, set(alloc, Word::V, switched(alloc)?)?)?;
    add(
        &mut commands,
        write_register(alloc, 0x1001_200C, variable(alloc, Word::V)?)?,
    )?;
    Ok(block(commands))
}

// `if ok { .. }`.
fn switch(alloc: Global) -> Result<Cmd, AllocError>
    ensures { IfOk result (λ c. command_of c ≡ Chooses (Variable ok_) switching Ends) }
{
    let condition = variable(alloc, Word::Fine)?;
    let yes = switching(alloc)?;
    Ok(when(alloc, condition, yes))
}

// The frame is of the kind that counts, and then the lamp is switched.
fn checking(alloc: Global) -> Result<Block, AllocError>
    ensures { IfOk result (λ b. block_of b ≡ checking) }
{
    let mut commands = Items::new(alloc);
    add(
        &mut commands,
        set(alloc, Word::Fine, byte_is(alloc, 12, 8)?)?,
    )?;
    add(&mut commands, and_byte(alloc, 13, 0)?)?;
    add(&mut commands, and_byte(alloc, 14, 0x45)?)?;
    add(&mut commands, and_byte(alloc, 23, 0x11)?)?;
    add(&mut commands, switch(alloc)?)?;
    Ok(block(commands))
}

// `if condition { bad = 1; }`.
fn bad_where(alloc: Global, condition: Expr) -> Result<Cmd, AllocError>
    ensures { IfOk result (λ c. command_of c ≡ bad_where (term_of condition)) }
{
    let yes = one(alloc, now_bad(alloc)?)?;
    Ok(when(alloc, condition, yes))
}

// `if (len < 43) { bad = 1; }`.
fn too_short(alloc: Global) -> Result<Cmd, AllocError>
    ensures command { IfOk result (λ c. command_of c ≡ bad_where too_short) }
{
    let short = operation(alloc, Op::Ltu, variable(alloc, Word::Len)?, number(43))?;
    bad_where(alloc, short)
}

// `if (1520 < len) { bad = 1; }`.
fn too_long(alloc: Global) -> Result<Cmd, AllocError>
    ensures { IfOk result (λ c. command_of c ≡ bad_where too_long) }
{
    let len = variable(alloc, Word::Len)?;
    let long = operation(alloc, Op::Ltu, number(1520), len)?;
    bad_where(alloc, long)
}

// `if (bad == 0) { .. }`.
fn check(alloc: Global) -> Result<Cmd, AllocError>
    ensures { IfOk result (λ c. command_of c ≡ Chooses (is_zero bad_) checking Ends) }
{
    let condition = is_zero(alloc, Word::Bad)?;
    let yes = checking(alloc)?;
    Ok(when(alloc, condition, yes))
}

// The packet is judged, and the lamp is switched where it counts.
fn judge(alloc: Global, commands: &mut Items<Cmd>) -> Result<(), AllocError>
    ensures { OnOk result (AreAdded commands.old commands.new judging_commands) }
{
    add(commands, set(alloc, Word::Bad, status_bits(alloc, 15, 1)?)?)?;
    add(commands, too_short(alloc)?)?;
    add(commands, too_long(alloc)?)?;
    add(commands, check(alloc)?)
}

// What happens where a packet waits.
fn filled_body(alloc: Global) -> Result<Block, AllocError>
    ensures { IfOk result (λ b. block_of b ≡ filled_body) }
{
    let mut commands = Items::new(alloc);
    receive(alloc, &mut commands)?;
    judge(alloc, &mut commands)?;
    Ok(block(commands))
}

// `if ((v >> 16) & 255) { .. }`.
fn where_filled(alloc: Global) -> Result<Cmd, AllocError>
    ensures { IfOk result (λ c. command_of c ≡ Chooses packet_waits filled_body Ends) }
{
    let condition = low_byte(alloc, shifted(alloc, Word::V, 16)?)?;
    let yes = filled_body(alloc)?;
    Ok(when(alloc, condition, yes))
}

// The round, with its buffer.
fn round_body(alloc: Global) -> Result<Block, AllocError>
    ensures { IfOk result (λ b. block_of b ≡ round_body) }
{
    let poll = read_in(alloc, Word::V, 0x7C)?;
    let rest = where_filled(alloc)?;
    two(alloc, poll, rest)
}

// The body of `loop`.
fn loop_body(alloc: Global) -> Result<Block, AllocError>
    ensures { IfOk result (λ b. block_of b ≡ loop_body) }
{
    let target = Word::Buf.name(alloc)?;
    let body = round_body(alloc)?;
    one(
        alloc,
        Cmd::StackAlloc {
            bytes: 1520,
            target,
            body,
        },
    )
}

/// The function.
pub fn loop_function(alloc: Global) -> Result<Function, AllocError>
    ensures { IfOk result (λ f. procedure_of f ≡ loop_procedure) }
{
    let name = Word::Loop.name(alloc)?;
    let body = loop_body(alloc)?;
    Ok(Function {
        name,
        params: Items::new(alloc),
        results: Items::new(alloc),
        body,
    })
}
