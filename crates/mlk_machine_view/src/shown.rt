// What a job does next, as a short description.

use mlk_machine_jobs::Touch;
use mlk_names::LockName;

/// What a job does next.
#[derive(Clone, Copy, Drop)]
pub enum State<'j> {
    /// It touches a reference.
    Ready(&'j Touch),
    /// It claims these names; whether with a timeout.
    Claims(&'j [LockName], bool),
    /// It releases locks.
    Releases,
    /// A value or a truth value has to be chosen.
    AsksChoice,
    /// It can only be aborted.
    Stuck,
    /// It makes a step by itself.
    Silent,
    /// Nothing is left to do.
    Ended,
    /// It was aborted.
    Stopped,
}
