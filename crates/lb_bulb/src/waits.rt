// Waits that end after 1,000 turns.
ghost use Rattle.std.specs.Prelude.{◌≡◌, IfOk};
ghost use Rattle.lb_syntax.specs.Tree.{Number, Variable, Operation, Sets, term_of, command_of};
ghost use Rattle.lb_syntax.specs.declared.tree.Op.TheVariants.{Ltu};
ghost use Rattle.lb_bulb.specs.InternalWords.{text_of};
ghost use Rattle.lb_bulb.specs.Supplied.{n_, goes_on, count_down, stands_still};

use crate::words::Word;
use lb_builders::{number, one, operation, repeats, set, variable};
use lb_syntax::{Cmd, Expr, Op};
use std::alloc::{AllocError, Global};

/// `n = 1000;`: so many turns are left.
pub fn all_turns(alloc: Global) -> Result<Cmd, AllocError>
    ensures command { IfOk result (λ c. command_of c ≡ Sets n_ (Number 1000)) }
{
    set(alloc, Word::N, number(1000))
}

// `(0 < n)`.
fn turns_left(alloc: Global) -> Result<Expr, AllocError>
    ensures { IfOk result (λ e. term_of e ≡ Operation Ltu (Number 0) (Variable n_)) }
{
    let n = variable(alloc, Word::N)?;
    operation(alloc, Op::Ltu, number(0), n)
}

/// `(flag & (0 < n))`: the wait isn't over, and turns are left.
pub fn goes_on(alloc: Global, flag: Expr) -> Result<Expr, AllocError>
    ensures { IfOk result (λ e. term_of e ≡ goes_on (term_of flag)) }
{
    let left = turns_left(alloc)?;
    operation(alloc, Op::And, flag, left)
}

/// `n = (n - 1);`.
pub fn count_down(alloc: Global) -> Result<Cmd, AllocError>
    ensures { IfOk result (λ c. command_of c ≡ count_down) }
{
    let less = operation(alloc, Op::Sub, variable(alloc, Word::N)?, number(1))?;
    set(alloc, Word::N, less)
}

/// `while x { skip; }`: nothing happens any more, unless x is 0.
pub fn stands_still(alloc: Global, x: Word) -> Result<Cmd, AllocError>
    ensures { IfOk result (λ c. command_of c ≡ stands_still (text_of x)) }
{
    let condition = variable(alloc, x)?;
    let body = one(alloc, Cmd::Skip)?;
    Ok(repeats(condition, body))
}
