// Names, of what spells them.
ghost use Rattle.std.specs.Prelude.{◌≡◌, IfOk, [], ◌∷◌};
ghost use Rattle.lb_syntax.specs.Names.{Text};

use lb_syntax::Name;
use sqlite_items::Items;
use std::alloc::{AllocError, Global};

/// A value that spells a name of the language.
pub trait Spelled: Copy {
    // The bytes of the name.
    ghost text: { Self → Text };

    /// The name. `AllocError` comes where no memory is left.
    fn name(self, alloc: Global) -> Result<Name, AllocError>
        ensures { IfOk result (λ n. n ≡ text self) };
}

/// A list of one name. `AllocError` comes where no memory is left.
pub fn one_name<W: Spelled>(alloc: Global, x: W) -> Result<Items<Name>, AllocError>
    ensures { IfOk result (λ names. names ≡ W.text x ∷ []) }
{
    Ok(Items::from_vec(vec![in alloc; x.name(alloc)?]?))
}

/// A list of two names. `AllocError` comes where no memory is left.
pub fn two_names<W: Spelled>(alloc: Global, x: W, y: W) -> Result<Items<Name>, AllocError>
    ensures { IfOk result (λ names. names ≡ W.text x ∷ W.text y ∷ []) }
{
    let first = x.name(alloc)?;
    let second = y.name(alloc)?;
    Ok(Items::from_vec(vec![in alloc; first, second]?))
}
