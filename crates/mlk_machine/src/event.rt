// Events.

ghost use Rattle.std.specs.Prelude.{◌≡◌, IfOk};

use mlk_machine_jobs::Choice;
use mlk_program::EntryId;
use mlk_text::{List, Value};
use std::alloc::AllocError;

/// What a job does at an event.
#[derive(Drop)]
pub enum Act {
    /// It begins at an entry, with the given `$TEST` and values for the first formals.
    Begin(EntryId, bool, List<Value>),
    /// It makes a step, with the given choice.
    Go(Choice),
    /// It is aborted, and then holds no lock.
    Abort,
}

/// An event: the number of a job, and what that job does.
#[derive(Drop)]
pub struct Event {
    pub job: u32,
    pub act: Act,
}

/// Copies `choice`.
pub(crate) fn copy_of_choice(choice: &Choice) -> Result<Choice, AllocError>
    ensures { IfOk result (λ copy. copy ≡ choice.now) }
{
    match choice {
        Choice::None => Ok(Choice::None),
        Choice::Value(value) => Ok(Choice::Value(value.copy()?)),
        Choice::Truth(truth) => Ok(Choice::Truth(*truth)),
    }
}
