// Words in hexadecimal.
ghost use Rattle.std.specs.Prelude.{◌≡◌, ◌<◌};
ghost use Rattle.std.specs.Char.{digit_char};
ghost use Rattle.lb_trace.specs.Hex.{hex_word};

/// A word as eight hexadecimal digits in lower case, the highest first.
pub fn hex_digits(word: u32) -> [u8; 8]
    ensures { result ≡ hex_word word }
{
    [
        digit(word >> 28),
        digit(word >> 24 & 15),
        digit(word >> 20 & 15),
        digit(word >> 16 & 15),
        digit(word >> 12 & 15),
        digit(word >> 8 & 15),
        digit(word >> 4 & 15),
        digit(word & 15),
    ]
}

// The digit's character.
fn digit(d: u32) -> u8
    requires { d < 16 }
    ensures { result ≡ digit_char d }
{
    if d < 10 {
        b'0' + d as u8
    } else {
        b'a' + (d - 10) as u8
    }
}
