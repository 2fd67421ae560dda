// The value of an expression.
ghost use Rattle.std.specs.Prelude.{◌≡◌, map, IfOk};
ghost use Rattle.lb_syntax.specs.Tree.{term_of};
ghost use Rattle.lb_source.specs.Value.{operate, value};
ghost use Rattle.lb_source.specs.InternalMachine.{AreValues, variables_of, memory_of};

use crate::ends::Reason;
use crate::memory::Bytes;
use crate::variables::{Entry, find};
use lb_syntax::{Expr, Op};
use sqlite_items::Items;
use std::alloc::{AllocError, Global};

/// An operation on the values of its operands.
fn operate(op: Op, a: u32, b: u32) -> u32
    ensures { result ≡ operate op a b }
{
    match op {
        Op::Add => lb_word::add(a, b),
        Op::Sub => lb_word::sub(a, b),
        Op::Mul => lb_word::mul(a, b),
        Op::Mulhuu => lb_word::mulhuu(a, b),
        Op::Divu => lb_word::divu(a, b),
        Op::Remu => lb_word::remu(a, b),
        Op::And => lb_word::and_(a, b),
        Op::Or => lb_word::or_(a, b),
        Op::Xor => lb_word::xor(a, b),
        Op::Sru => lb_word::sru(a, b),
        Op::Slu => lb_word::slu(a, b),
        Op::Srs => lb_word::srs(a, b),
        Op::Lts => lb_word::lts(a, b),
        Op::Ltu => lb_word::ltu(a, b),
        Op::Eq => lb_word::eq(a, b),
    }
}

/// The value of an expression, the left operand first.
pub fn value_of(entries: &[Entry], bytes: &Bytes, e: &Expr) -> Result<u32, Reason>
    ensures { result ≡ value (variables_of entries.now) (memory_of bytes.now) (term_of e.now) }
{
    match e {
        Expr::Literal(n) => Ok(*n),
        Expr::Var(x) => find(entries, x).ok_or(Reason::UnsetVariable),
        Expr::Load { width, address } => {
            let address = value_of(entries, bytes, address.get())?;
            bytes.load(*width, address)
        }
        Expr::Binary { op, left, right } => {
            let left = value_of(entries, bytes, left.get())?;
            let right = value_of(entries, bytes, right.get())?;
            Ok(operate(*op, left, right))
        }
    }
}

/// The values of several expressions, from left to right. Fails only for want of memory.
pub fn values_of(
    alloc: Global,
    entries: &[Entry],
    bytes: &Bytes,
    es: &[Expr],
) -> Result<Result<Items<u32>, Reason>, AllocError>
    ensures { IfOk result (λ vs. AreValues entries.now bytes.now (map term_of es.now) vs) }
{
    let mut values = Items::new(alloc);
    for e in es {
        match value_of(entries, bytes, e) {
            Ok(v) => values.push(v)?,
            Err(reason) => return Ok(Err(reason)),
        }
    }
    Ok(Ok(values))
}
