// Blanks and comments.
ghost use Rattle.std.specs.Prelude.{◌<◌, ◌≤◌, ◌≡◌, ◌∷◌, [], ⊤, MatchOption, length};
ghost use Rattle.lb_spelling.specs.Tokens.{Outside, Comment};
ghost use Rattle.lb_scan.specs.InternalScanning.{Skips, SkipsOne, BeginsToken};

use crate::bytes::is_blank;

/// The first byte, and the bytes behind it.
pub fn first(bytes: &[u8]) -> Option<(u8, &[u8])>
    ensures { MatchOption result (bytes.now ≡ []) (λ x. bytes.now ≡ x.0 ∷ x.1.now) }
{
    let (b, rest) = bytes.split_first()?;
    Some((*b, rest))
}

// The bytes behind the comment in which the front of these bytes stands.
fn after_comment(bytes: &[u8]) -> &[u8]
    ensures skips { Skips Comment bytes.now result.now }
    ensures shorter { length result.now ≤ length bytes.now }
{
    let mut rest = bytes;
    while let Some((b, after)) = first(rest) {
        if b == b'\n' {
            return after;
        }
        rest = after;
    }
    rest
}

// The bytes behind one blank or one comment.
fn skip_one(bytes: &[u8]) -> Option<&[u8]>
    ensures skips { SkipsOne bytes.now result }
    ensures shorter { MatchOption result ⊤ (λ rest. length rest.now < length bytes.now) }
{
    let (b, rest) = first(bytes)?;
    if is_blank(b) {
        return Some(rest);
    }
    let (c, rest) = first(rest)?;
    if b != b'/' {
        return None;
    }
    if c != b'/' {
        return None;
    }
    Some(after_comment(rest))
}

/// The bytes behind all blanks and comments at the front.
pub fn skip(bytes: &[u8]) -> &[u8]
    ensures skips { Skips Outside bytes.now result.now }
    ensures token { BeginsToken result.now }
{
    let mut rest = bytes;
    while let Some(after) = skip_one(rest) {
        rest = after;
    }
    rest
}
