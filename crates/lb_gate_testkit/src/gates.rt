// Gates that hold workers, or count them.
use lb_ports::Gate;
use std::sync::atomic::{AtomicU64, Ordering};

/// How many turns of each worker are held.
const HELD_TURNS: u64 = 100;

/// How often a held worker looks before it goes on.
const MOST_LOOKS: u64 = 100_000_000;

/// A gate that makes two workers take turns in their first 100 turns each: worker 0 is held at turn t until worker 1 has
/// come to turn t, and worker 1 until worker 0 has come to turn t + 1. Once a hold has lasted too long, nobody is held
/// any more.
#[derive(Drop)]
pub struct Alternation {
    of_first: AtomicU64,
    of_second: AtomicU64,
    gave_up: AtomicU64,
}

impl Alternation {
    /// A gate to which nobody has come.
    pub fn new() -> Alternation {
        Alternation {
            of_first: AtomicU64::new(0),
            of_second: AtomicU64::new(0),
            gave_up: AtomicU64::new(0),
        }
    }

    /// Whether both workers came to all turns that are held, and no hold lasted too long.
    pub fn held_both(&self) -> bool {
        self.of_first.load(Ordering::SeqCst) >= HELD_TURNS
            && self.of_second.load(Ordering::SeqCst) >= HELD_TURNS
            && !self.gave_up()
    }

    // Whether a hold has lasted too long.
    fn gave_up(&self) -> bool {
        self.gave_up.load(Ordering::SeqCst) != 0
    }

    // Holds the caller until the word has come to the number.
    fn hold(&self, word: &AtomicU64, number: u64) {
        for _ in 0..MOST_LOOKS {
            if self.gave_up() || word.load(Ordering::SeqCst) >= number {
                return;
            }
        }
        self.gave_up.store(1, Ordering::SeqCst);
    }
}

impl Gate for Alternation {
    // The words tell how many turns each worker has come to.
    fn pass(&self, worker: u8, turn: u64) {
        let come = turn.saturating_add(1);
        if worker == 0 {
            self.of_first.store(come, Ordering::SeqCst);
            if turn < HELD_TURNS {
                self.hold(&self.of_second, come);
            }
        } else {
            self.of_second.store(come, Ordering::SeqCst);
            if turn < HELD_TURNS {
                self.hold(&self.of_first, come.saturating_add(1));
            }
        }
    }
}

/// A gate that counts the calls of worker 0 that come in their order, and notes whether another came.
#[derive(Drop)]
pub struct Count {
    in_order: AtomicU64,
    others: AtomicU64,
}

impl Count {
    /// A gate to which nobody has come.
    pub fn new() -> Count {
        Count {
            in_order: AtomicU64::new(0),
            others: AtomicU64::new(0),
        }
    }

    /// How many calls came in their order.
    pub fn in_order(&self) -> u64 {
        self.in_order.load(Ordering::SeqCst)
    }

    /// Whether another came.
    pub fn has_others(&self) -> bool {
        self.others.load(Ordering::SeqCst) != 0
    }
}

impl Gate for Count {
    fn pass(&self, worker: u8, turn: u64) {
        if worker == 0 && turn == self.in_order() {
            self.in_order
                .store(turn.saturating_add(1), Ordering::SeqCst);
        } else {
            self.others.store(1, Ordering::SeqCst);
        }
    }
}
