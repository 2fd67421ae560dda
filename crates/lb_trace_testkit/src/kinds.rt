// Kinds by their letters.
use lb_trace::Kind;

/// All kinds, each behind its letter.
pub const KINDS: [(char, Kind); 9] = [
    ('F', Kind::Fetch),
    ('D', Kind::Decode),
    ('X', Kind::Execute),
    ('R', Kind::Ram),
    ('M', Kind::Mmio),
    ('W', Kind::Writeback),
    ('B', Kind::Boot),
    ('S', Kind::Shift),
    ('A', Kind::Arrive),
];

/// The kind of a letter, in either case.
pub fn kind_of(letter: char) -> Option<Kind> {
    let upper = letter.to_ascii_uppercase();
    for (own, kind) in KINDS {
        if own == upper {
            return Some(kind);
        }
    }
    None
}
