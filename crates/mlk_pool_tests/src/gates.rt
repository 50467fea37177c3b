// Gates before the walks of tasks.

use mlk_pool::Gate;
use std::sync::atomic::{AtomicU64, Ordering};
use std::thread;

/// A gate that is always open.
#[derive(Drop)]
pub(crate) struct Open;

impl Gate for Open {
    ghost is_open = { λ _. Unit {0} };

    fn pass(&self, _worker: usize, _task: usize) -> bool {
        true
    }

    fn on_post(&self, _worker: usize, _task: usize) {}
}

// How often the gate looks before it gives up.
const LOOKS: u32 = 10_000_000;

// A decimal digit for each of twelve tasks.
const DIGITS: [u64; 12] = [
    1,
    10,
    100,
    1_000,
    10_000,
    100_000,
    1_000_000,
    10_000_000,
    100_000_000,
    1_000_000_000,
    10_000_000_000,
    100_000_000_000,
];

/// What is counted where each of the twelve tasks was counted once.
pub(crate) const EACH_ONCE: u64 = 111_111_111_111;

// Counts a task by its number.
fn count(counts: &AtomicU64, task: usize) {
    if let Some(digit) = DIGITS.get(task) {
        counts.fetch_add(*digit, Ordering::SeqCst);
    }
}

/// Where a gate holds the workers.
#[derive(Clone, Copy, Drop)]
pub(crate) enum Holds {
    Nowhere,
    /// It holds task 0 until it was asked for task 1, and task 1 until it was asked for task 0.
    FirstTwo,
    /// It is shut before these tasks.
    Before(usize, usize),
}

/// A gate that counts which tasks it was asked for and which were posted. Where it has held a worker in vain, it is shut for the
/// first two tasks from then on.
#[derive(Drop)]
pub(crate) struct Turnstile {
    holds: Holds,
    passed: AtomicU64,
    posted: AtomicU64,
    zero: AtomicU64,
    one: AtomicU64,
    given_up: AtomicU64,
}

impl Turnstile {
    /// A gate that was asked for nothing yet.
    pub(crate) fn new(holds: Holds) -> Turnstile {
        Turnstile {
            holds,
            passed: AtomicU64::new(0),
            posted: AtomicU64::new(0),
            zero: AtomicU64::new(0),
            one: AtomicU64::new(0),
            given_up: AtomicU64::new(0),
        }
    }

    /// Which tasks it was asked for, each as often as its digit says.
    pub(crate) fn passed_tasks(&self) -> u64 {
        self.passed.load(Ordering::SeqCst)
    }

    /// Which tasks were posted, each as often as its digit says.
    pub(crate) fn posted_tasks(&self) -> u64 {
        self.posted.load(Ordering::SeqCst)
    }

    // Whether the gate was asked for the other task in time.
    fn meets(&self, own: &AtomicU64, other: &AtomicU64) -> bool {
        own.store(1, Ordering::SeqCst);
        for _ in 0..LOOKS {
            if self.given_up.load(Ordering::SeqCst) == 1 {
                return false;
            }
            if other.load(Ordering::SeqCst) == 1 {
                return true;
            }
            thread::yield_now();
        }
        self.given_up.store(1, Ordering::SeqCst);
        false
    }
}

impl Gate for Turnstile {
    ghost is_open = { λ _. ⊥ };

    fn pass(&self, _worker: usize, task: usize) -> bool {
        count(&self.passed, task);
        match (self.holds, task) {
            (Holds::FirstTwo, 0) => self.meets(&self.zero, &self.one),
            (Holds::FirstTwo, 1) => self.meets(&self.one, &self.zero),
            (Holds::Before(first, second), _) => task != first && task != second,
            _ => true,
        }
    }

    fn on_post(&self, _worker: usize, task: usize) {
        count(&self.posted, task);
    }
}
