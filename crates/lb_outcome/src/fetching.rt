// What stands at an address of the code.
ghost use Rattle.std.specs.Prelude.{◌≡◌, map, IfOk};
ghost use Rattle.lb_rv.specs.Decoding.{instruction_of};
ghost use Rattle.lb_outcome.specs.Fetching.{item_at};

use lb_rv::{Instr, decode};
use std::alloc::{AllocError, Global};

/// What stands at a byte address, where `items` has one item for each word of the code; none where the address is no
/// multiple of 4 or isn't below the end.
pub fn at_address<T: Copy>(items: &[T], address: u32) -> Option<T>
    ensures { result ≡ item_at items.now address }
{
    if address % 4 != 0 {
        return None;
    }
    items.get((address / 4) as usize).copied()
}

/// The instruction of each word of a code, none where a word has none. Fails only for want of memory.
pub fn decode_all(alloc: Global, code: &[u32]) -> Result<Vec<Option<Instr>>, AllocError>
    ensures { IfOk result (λ instructions. instructions.items ≡ map instruction_of code.now) }
{
    code.iter().map(|word| decode(*word)).collect(alloc)
}
