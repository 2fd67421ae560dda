// The kinds that a worker draws.
ghost use Rattle.std.specs.Prelude.{◌≡◌};
ghost use Rattle.lb_draws.specs.Draws.{next_state};
ghost use Rattle.lb_crew.specs.Drawn.{kind_of as told_kind, next_kind as kind_after};

use lb_draws::Draws;
use lb_trace::Kind;

/// How many kinds there are.
pub(crate) const KINDS: u32 = 9;

// The kind behind this one, and behind the last one the first.
pub(crate) fn next_kind(kind: Kind) -> Kind
    ensures { result ≡ kind_after kind }
{
    match kind {
        Kind::Fetch => Kind::Decode,
        Kind::Decode => Kind::Execute,
        Kind::Execute => Kind::Ram,
        Kind::Ram => Kind::Mmio,
        Kind::Mmio => Kind::Writeback,
        Kind::Writeback => Kind::Boot,
        Kind::Boot => Kind::Shift,
        Kind::Shift => Kind::Arrive,
        Kind::Arrive => Kind::Fetch,
    }
}

// The kind that the next draw tells.
pub(crate) fn draw_kind(draws: &mut Draws) -> Kind
    ensures kind { result ≡ told_kind (next_state draws.old) }
    ensures draws { draws.new ≡ next_state draws.old }
{
    kind_of(draws.next())
}

// The kind that a draw tells.
fn kind_of(draw: u32) -> Kind
    ensures { result ≡ told_kind draw }
{
    match draw % KINDS {
        0 => Kind::Fetch,
        1 => Kind::Decode,
        2 => Kind::Execute,
        3 => Kind::Ram,
        4 => Kind::Mmio,
        5 => Kind::Writeback,
        6 => Kind::Boot,
        7 => Kind::Shift,
        _ => Kind::Arrive,
    }
}
