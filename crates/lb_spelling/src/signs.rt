// How operations are spelled.
ghost use Rattle.std.specs.Prelude.{◌≡◌};
ghost use Rattle.lb_syntax.specs.Printing.{op_text};

use lb_syntax::Op;

/// The sign of an operation.
pub fn sign_of(op: Op) -> &'static [u8]
    ensures { result.now ≡ op_text op }
{
    match op {
        Op::Add => b"+",
        Op::Sub => b"-",
        Op::Mul => b"*",
        Op::Mulhuu => b"*^",
        Op::Divu => b"/",
        Op::Remu => b"%",
        Op::And => b"&",
        Op::Or => b"|",
        Op::Xor => b"^",
        Op::Sru => b">>",
        Op::Slu => b"<<",
        Op::Srs => b">>.",
        Op::Lts => b"<.",
        Op::Ltu => b"<",
        Op::Eq => b"==",
    }
}
