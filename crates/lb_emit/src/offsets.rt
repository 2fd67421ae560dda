// The offsets of the blocks of memory of a frame, in text order.
ghost use Rattle.std.specs.Prelude.{◌≡◌, ◌<◌, ◌+◌, ◌^◌, ◌++◌, sum, IfOk, OnOk};
ghost use Rattle.lb_flat.specs.Code.{sites};
ghost use Rattle.lb_flat.specs.Placed.{placed_block, placed_command};
ghost use Rattle.lb_emit_laws.specs.Frames.{offsets_from};

use lb_flat::{PlacedBlock, PlacedCmd};
use sqlite_items::Items;
use std::alloc::AllocError;

/// Adds the offsets of the blocks of memory in a block of code, the first one at `at`, and gives the
/// offset behind the last one.
#[cycle(offsets)]
#[tactic(auto, using(crate::proofs::Sums::sum_both, crate::proofs::Sums::offsets_both))]
pub fn push_offsets(
    offsets: &mut Items<u32>,
    block: &PlacedBlock,
    at: u32,
) -> Result<u32, AllocError>
    requires { at + sum (sites (placed_block block.now)) < 2 ^ 32 }
    ensures offsets { OnOk result (offsets.new
        ≡ offsets.old ++ offsets_from at (sites (placed_block block.now))) }
    ensures end { IfOk result (λ end. end ≡ at + sum (sites (placed_block block.now))) }
{
    let mut end = at;
    for c in block.commands.as_slice() {
        end = push_command(offsets, c, end)?;
    }
    Ok(end)
}

#[cycle(offsets)]
#[tactic(auto, using(crate::proofs::Sums::sum_both, lb_emit_laws::proofs::FrameLemmas::sum_cons))]
fn push_command(offsets: &mut Items<u32>, c: &PlacedCmd, at: u32) -> Result<u32, AllocError>
    requires { at + sum (sites (placed_command c.now)) < 2 ^ 32 }
    ensures offsets { OnOk result (offsets.new
        ≡ offsets.old ++ offsets_from at (sites (placed_command c.now))) }
    ensures end { IfOk result (λ end. end ≡ at + sum (sites (placed_command c.now))) }
{
    match c {
        PlacedCmd::StackAlloc { bytes, body, .. } => {
            offsets.push(at)?;
            push_offsets(offsets, body, at + *bytes)
        }
        PlacedCmd::If { yes, no, .. } => push_two(offsets, yes, no, at),
        PlacedCmd::While { before, body, .. } => push_two(offsets, before, body, at),
        _ => Ok(at),
    }
}

#[cycle(offsets)]
#[tactic(auto, using(crate::proofs::Sums::sum_both, crate::proofs::Sums::offsets_both))]
fn push_two(
    offsets: &mut Items<u32>,
    first: &PlacedBlock,
    second: &PlacedBlock,
    at: u32,
) -> Result<u32, AllocError>
    requires { at + sum (sites (placed_block first.now))
        + sum (sites (placed_block second.now)) < 2 ^ 32 }
    ensures offsets { OnOk result (offsets.new ≡ offsets.old
        ++ offsets_from at (sites (placed_block first.now) ++ sites (placed_block second.now))) }
    ensures end { IfOk result (λ end.
        end ≡ at + sum (sites (placed_block first.now)) + sum (sites (placed_block second.now))) }
{
    let middle = push_offsets(offsets, first, at)?;
    let end = push_offsets(offsets, second, middle)?;
    Ok(end)
}
