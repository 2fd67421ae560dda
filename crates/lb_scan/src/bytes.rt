// Tests on bytes.
ghost use Rattle.std.specs.Prelude.{◌≡◌};
ghost use Rattle.std.specs.Char.{is_digit};
ghost use Rattle.lb_spelling.specs.Tokens.{is_blank, begins_with, same};
ghost use Rattle.lb_spelling.specs.InternalMachine.{unexpected};

use lb_spelling::TextKind;

/// Whether it is a space, a tab, LF or CR.
#[tactic(auto, unfolding(lb_spelling::specs::Tokens::is_blank))]
pub fn is_blank(b: u8) -> bool
    ensures { result ≡ is_blank b }
{
    b == b' ' || b == b'\t' || b == b'\n' || b == b'\r'
}

/// Whether it is a decimal digit.
pub fn is_digit(b: u8) -> bool
    ensures { result ≡ is_digit b 10 }
{
    (b as char).is_digit(10)
}

/// The kind of the fault at a byte that begins nothing.
#[tactic(auto, unfolding(lb_spelling::specs::Places::is_plain))]
pub fn unexpected(b: u8) -> TextKind
    ensures { result ≡ unexpected b }
{
    if b == b'\t' || b == b'\n' || b == b'\r' || (b' ' <= b && b <= b'~') {
        TextKind::Unexpected
    } else {
        TextKind::BadByte
    }
}

/// Whether both are the same bytes.
#[tactic(auto, unfolding(lb_spelling::specs::Tokens::same))]
pub fn same(a: &[u8], b: &[u8]) -> bool
    ensures { result ≡ same a.now b.now }
{
    begins_with(a, b) && begins_with(b, a)
}

/// Whether `front` begins the bytes.
pub fn begins_with(front: &[u8], bytes: &[u8]) -> bool
    ensures { result ≡ begins_with front.now bytes.now }
{
    bytes.starts_with(front)
}
