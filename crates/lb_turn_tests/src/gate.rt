// A gate that an act passes.
use std::sync::atomic::{AtomicU64, Ordering};

/// How often a thread looks at the gate before it goes on by itself.
const MOST_LOOKS: u64 = 1_000_000_000;

/// A gate inside an act: it tells that an act has begun, and holds it until the gate is open.
#[derive(Drop)]
pub struct Gate {
    begun: AtomicU64,
    open: AtomicU64,
}

impl Gate {
    /// A gate that is open.
    pub fn opened() -> Gate {
        Gate {
            begun: AtomicU64::new(0),
            open: AtomicU64::new(1),
        }
    }

    /// A gate that isn't.
    pub fn shut() -> Gate {
        Gate {
            begun: AtomicU64::new(0),
            open: AtomicU64::new(0),
        }
    }

    /// Opens the gate.
    pub fn open(&self) {
        self.open.store(1, Ordering::SeqCst);
    }

    /// Tells that an act has begun, and goes on once the gate is open.
    pub fn pass(&self) {
        self.begun.store(1, Ordering::SeqCst);
        look(&self.open);
    }

    /// Goes on once an act has begun.
    pub fn await_act(&self) {
        look(&self.begun);
    }
}

// Looks until the word isn't 0.
fn look(word: &AtomicU64) {
    for _ in 0..MOST_LOOKS {
        if word.load(Ordering::SeqCst) != 0 {
            return;
        }
    }
}
