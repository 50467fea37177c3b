// How far long work has come, shown on a terminal.

use mlk_app::{Stage, Watch};
use std::cell::Cell;
use std::io::IsTerminal;
use std::mem::forget;
use std::time::{Duration, Instant};

// Work that takes fewer milliseconds is not shown.
const FIRST_SHOWN: u64 = 500;

// The line is written anew after this number of milliseconds at the soonest.
const NEXT_SHOWN: u64 = 100;

/// Shows on the error stream how far work has come, in one line that is written over and taken away at the end; nothing
/// where that stream is no terminal.
#[derive(Drop)]
pub(crate) struct Progress<'a> {
    rt: &'a HostRuntime,
    is_shown: Cell<bool>,
    // when the line is to be written next; none where it never is
    due: Cell<Option<Instant>>,
}

impl<'a> Progress<'a> {
    /// Work begins now.
    pub(crate) fn new(rt: &'a HostRuntime) -> Progress<'a> {
        let due = if rt.stderr().is_terminal() {
            moment_after(rt, FIRST_SHOWN)
        } else {
            None
        };
        Progress {
            rt,
            is_shown: Cell::new(false),
            due: Cell::new(due),
        }
    }

    // Writes the line.
    fn show(&self, stage: Stage, done: usize, of: usize) {
        let _ = match stage {
            Stage::Reading => eprint!(self.rt; "\r\x1b[Kreading: routine {done} of {of}"),
            Stage::Making(round) => {
                eprint!(self.rt;
                    "\r\x1b[Kmaking a certificate, round {round}: routine {done} of {of}"
                )
            }
            Stage::Checking => eprint!(self.rt; "\r\x1b[Kchecking: entry {done} of {of}"),
        };
        self.is_shown.set(true);
        self.due.set(moment_after(self.rt, NEXT_SHOWN));
    }
}

impl Watch for Progress<'_> {
    fn see(&self, stage: Stage, done: usize, of: usize) {
        let Some(due) = self.due.get() else {
            return;
        };
        let Ok(now) = Instant::now(self.rt) else {
            return;
        };
        if now >= due {
            self.show(stage, done, of);
        }
    }

    fn end(&self) {
        if self.is_shown.get() {
            let _ = eprint!(self.rt; "\r\x1b[K");
            self.is_shown.set(false);
        }
    }

    // The process ends soon, and to give back tree by tree takes a fifth of the time of a check.
    fn discard<T: Drop>(&self, value: T) {
        forget(value);
    }
}

// The moment this number of milliseconds later than now, if there is a clock.
fn moment_after(rt: &HostRuntime, wait: u64) -> Option<Instant> {
    let Ok(now) = Instant::now(rt) else {
        return None;
    };
    now.checked_add(Duration::from_millis(wait))
}
