// Expressions.
ghost use Rattle.std.specs.Prelude.{◌≡◌, IfOk, [], ◌∷◌, map};
ghost use Rattle.lb_syntax.specs.Tree.{Number, Variable, Operation, term_of};

use crate::spelled::Spelled;
use lb_syntax::{Expr, Op};
use sqlite_items::{Boxed, Items};
use std::alloc::{AllocError, Global};

/// A number.
pub fn number(value: u32) -> Expr
    ensures { term_of result ≡ Number value }
{
    Expr::Literal(value)
}

/// A variable. `AllocError` comes where no memory is left.
pub fn variable<W: Spelled>(alloc: Global, x: W) -> Result<Expr, AllocError>
    ensures { IfOk result (λ e. term_of e ≡ Variable (W.text x)) }
{
    Ok(Expr::Var(x.name(alloc)?))
}

/// An operation. `AllocError` comes where no memory is left.
pub fn operation(alloc: Global, op: Op, left: Expr, right: Expr) -> Result<Expr, AllocError>
    ensures { IfOk result (λ e. term_of e ≡ Operation op (term_of left) (term_of right)) }
{
    Ok(Expr::Binary {
        op,
        left: Boxed::new(alloc, left)?,
        right: Boxed::new(alloc, right)?,
    })
}

/// A list of two expressions. `AllocError` comes where no memory is left.
pub fn two_terms(alloc: Global, first: Expr, second: Expr) -> Result<Items<Expr>, AllocError>
    ensures { IfOk result (λ es. map term_of es ≡ term_of first ∷ term_of second ∷ []) }
{
    Ok(Items::from_vec(vec![in alloc; first, second]?))
}
