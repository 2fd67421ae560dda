// Words and offsets as the immediates of instructions.
ghost use Rattle.std.specs.Prelude.{◌≡◌};
ghost use Rattle.lb_emit_laws.specs.Instructions as laws;

// Offsets from here on are out of the reach of an immediate of 12 bits.
const REACH: u32 = 2048;

/// Whether an immediate reaches an offset from the stack pointer.
pub fn is_reached(offset: u32) -> bool
    ensures { result ≡ laws.is_reached offset }
{
    offset < REACH
}

/// Whether an immediate of 12 bits, read with a sign, is the word.
pub fn is_short(n: u32) -> bool
    ensures { result ≡ laws.is_short n }
{
    n.wrapping_add(REACH) < 2 * REACH
}

/// Whether the upper 20 bits are the word.
pub fn is_upper(n: u32) -> bool
    ensures { result ≡ laws.is_upper n }
{
    n % 4096 == 0
}

/// The multiple of 4096 that is next to the word.
pub fn upper_part(n: u32) -> u32
    ensures { result ≡ laws.upper_part n }
{
    n.wrapping_add(REACH) / 4096 * 4096
}

/// What is left of the word, read with a sign.
pub fn lower_part(n: u32) -> i32
    ensures { result ≡ laws.immediate (laws.lower_part n) }
{
    n.wrapping_sub(upper_part(n)).cast_signed()
}
