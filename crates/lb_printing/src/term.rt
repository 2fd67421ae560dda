// Expressions.
ghost use Rattle.std.specs.Prelude.{OnOk};
ghost use Rattle.lb_syntax.specs.Tree.{term_of};
ghost use Rattle.lb_syntax.specs.WellFormed.{IsTerm};
ghost use Rattle.lb_syntax.specs.Printing.{term_text};
ghost use Rattle.lb_printing.specs.InternalPrinting.{Appends, AreTerms, exprs_text};

use crate::words::{add_access, add_name, add_number};
use lb_spelling::sign_of;
use lb_syntax::Expr;
use std::alloc::{AllocError, Global};

/// Adds the text of an expression.
pub fn add_expr(alloc: Global, text: &mut Vec<u8>, expr: &Expr) -> Result<(), AllocError>
    ensures printed { Appends text.old text.new (term_text (term_of expr.now)) result }
    ensures well_formed { OnOk result (IsTerm (term_of expr.now)) }
{
    match expr {
        Expr::Literal(value) => add_number(alloc, text, *value),
        Expr::Var(name) => add_name(text, name),
        Expr::Load { width, address } => {
            add_access(text, b"load", *width)?;
            add_expr(alloc, text, address.get())?;
            text.push(b')')?;
            Ok(())
        }
        Expr::Binary { op, left, right } => {
            text.push(b'(')?;
            add_expr(alloc, text, left.get())?;
            text.push(b' ')?;
            text.extend_from_slice(sign_of(*op))?;
            text.push(b' ')?;
            add_expr(alloc, text, right.get())?;
            text.push(b')')?;
            Ok(())
        }
    }
}

/// Adds the texts of expressions, a comma and a blank between each and the next.
pub fn add_exprs(alloc: Global, text: &mut Vec<u8>, exprs: &[Expr]) -> Result<(), AllocError>
    ensures printed { Appends text.old text.new (exprs_text exprs.now) result }
    ensures well_formed { OnOk result (AreTerms exprs.now) }
{
    let Some((first, rest)) = exprs.split_first() else {
        return Ok(());
    };
    add_expr(alloc, text, first)?;
    for expr in rest {
        text.extend_from_slice(b", ")?;
        add_expr(alloc, text, expr)?;
    }
    Ok(())
}
