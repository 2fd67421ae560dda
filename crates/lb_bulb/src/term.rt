// Expressions that occur often.
ghost use Rattle.std.specs.Prelude.{◌≡◌, IfOk};
ghost use Rattle.lb_syntax.specs.Tree.{term_of};
ghost use Rattle.lb_bulb.specs.InternalWords.{text_of};
ghost use Rattle.lb_bulb.specs.Supplied.{shifted, low_byte, is_zero};

use crate::words::Word;
use lb_builders::{number, operation, variable};
use lb_syntax::{Expr, Op};
use std::alloc::{AllocError, Global};

/// `(x >> bits)`.
pub fn shifted(alloc: Global, x: Word, bits: u32) -> Result<Expr, AllocError>
    ensures { IfOk result (λ e. term_of e ≡ shifted (text_of x) bits) }
{
    operation(alloc, Op::Sru, variable(alloc, x)?, number(bits))
}

/// `(value & 255)`.
pub fn low_byte(alloc: Global, value: Expr) -> Result<Expr, AllocError>
    ensures term { IfOk result (λ e. term_of e ≡ low_byte (term_of value)) }
{
    operation(alloc, Op::And, value, number(255))
}

/// `(x == 0)`.
pub fn is_zero(alloc: Global, x: Word) -> Result<Expr, AllocError>
    ensures { IfOk result (λ e. term_of e ≡ is_zero (text_of x)) }
{
    operation(alloc, Op::Eq, variable(alloc, x)?, number(0))
}
