// What is drawn for a function.
ghost use Rattle.std.specs.Prelude.{◌≡◌};
ghost use Rattle.lb_gen.specs.Made.{operation_of, turns_of};
ghost use Rattle.lb_gen.specs.InternalDraws.{DrawsFunction};

use lb_draws::Draws;
use lb_syntax::Op;

/// What is drawn for a function, in the order in which it is drawn.
#[derive(Clone, Copy, Debug, PartialEq, Eq)]
pub struct DrawnFunction {
    /// OP1, the operation before the loop.
    pub first_operation: Op,
    /// K1, its right operand.
    pub first_number: u32,
    /// N, how often the loop turns: 1 to 8.
    pub turns: u32,
    /// OP2, the inner operation of a turn.
    pub second_operation: Op,
    /// OP3, the outer operation of a turn.
    pub third_operation: Op,
    /// K2, its right operand.
    pub second_number: u32,
    /// K3, the second argument of the call.
    pub third_number: u32,
}

// The operations, in the order of the language's table of signs.
const OPERATIONS: [Op; 15] = [
    Op::Add,
    Op::Sub,
    Op::Mul,
    Op::Mulhuu,
    Op::Divu,
    Op::Remu,
    Op::And,
    Op::Or,
    Op::Xor,
    Op::Sru,
    Op::Slu,
    Op::Srs,
    Op::Lts,
    Op::Ltu,
    Op::Eq,
];

// The operation that a draw chooses.
fn operation_of(draw: u32) -> Op
    ensures { result ≡ operation_of draw }
{
    OPERATIONS[(draw % 15) as usize]
}

// How often a loop turns, by a draw.
fn turns_of(draw: u32) -> u32
    ensures { result ≡ turns_of draw }
{
    1 + draw % 8
}

/// What the next seven draws are for a function.
pub fn draw_function(draws: &mut Draws) -> DrawnFunction
    ensures { DrawsFunction draws.old draws.new result }
{
    DrawnFunction {
        first_operation: operation_of(draws.next()),
        first_number: draws.next(),
        turns: turns_of(draws.next()),
        second_operation: operation_of(draws.next()),
        third_operation: operation_of(draws.next()),
        second_number: draws.next(),
        third_number: draws.next(),
    }
}
