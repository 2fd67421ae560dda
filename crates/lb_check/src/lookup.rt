// Functions by their names.
ghost use Rattle.std.specs.Prelude.{◌≡◌};
ghost use Rattle.lb_syntax.specs.Names.{is_among};
ghost use Rattle.lb_syntax.specs.Tree.{procedure_of};
ghost use Rattle.lb_syntax.specs.Rules.{function_names};
ghost use Rattle.lb_check.specs.Faults.{fits, has_misfit};
ghost use Rattle.lb_check.specs.InternalWalks.{procedures_of};

use lb_syntax::{Function, Name};

/// Whether one of these functions has the name.
pub fn has_function(functions: &[Function], name: &[u8]) -> bool
    ensures { result ≡ is_among (function_names (procedures_of functions.now)) name.now }
{
    for f in functions {
        if f.name.as_bytes() == name {
            return true;
        }
    }
    false
}

/// Whether one of these functions has the name, and a call of so many arguments and targets doesn't fit it.
#[tactic(auto, unfolding(crate::specs::Faults::has_misfit))]
pub fn has_misfit(functions: &[Function], name: &Name, arguments: usize, targets: usize) -> bool
    ensures { result ≡ has_misfit (procedures_of functions.now) name.now arguments targets }
{
    for f in functions {
        if f.name == *name && !fits(f, arguments, targets) {
            return true;
        }
    }
    false
}

// Whether a call of so many arguments and targets fits the function.
fn fits(f: &Function, arguments: usize, targets: usize) -> bool
    ensures { result ≡ fits (procedure_of f.now) arguments targets }
{
    arguments == f.params.len() && targets == f.results.len()
}
