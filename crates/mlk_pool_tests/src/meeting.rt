// Two walks that wait for each other.

use mlk_text::LineNumber;
use mlk_walk::Pieces;
use std::sync::atomic::{AtomicU64, Ordering};
use std::thread;

// How often a part looks whether another has begun, before it gives up.
const LOOKS: u32 = 10_000_000;

/// Two parts that wait for each other, and how many of them have seen the other.
#[derive(Drop)]
pub(crate) struct Meeting {
    lines: (LineNumber, LineNumber),
    first: AtomicU64,
    second: AtomicU64,
    seen: AtomicU64,
}

impl Meeting {
    /// The parts that begin at these lines.
    pub(crate) fn new(first: u32, second: u32) -> Meeting {
        Meeting {
            lines: (LineNumber::new(first), LineNumber::new(second)),
            first: AtomicU64::new(0),
            second: AtomicU64::new(0),
            seen: AtomicU64::new(0),
        }
    }

    // One of the two has begun, and waits for the other.
    fn wait(&self, own: &AtomicU64, other: &AtomicU64) {
        own.store(1, Ordering::SeqCst);
        for _ in 0..LOOKS {
            if other.load(Ordering::SeqCst) == 1 {
                self.seen.fetch_add(1, Ordering::SeqCst);
                return;
            }
            thread::yield_now();
        }
    }

    /// Whether each has seen the other.
    pub(crate) fn have_met(&self) -> bool {
        self.seen.load(Ordering::SeqCst) == 2
    }
}

impl Pieces for Meeting {
    fn on_begin(&self, line: LineNumber) {
        if line == self.lines.0 {
            self.wait(&self.first, &self.second);
        } else if line == self.lines.1 {
            self.wait(&self.second, &self.first);
        }
    }
}
