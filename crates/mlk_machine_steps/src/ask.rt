// Choices of steps that may also run out of memory.

ghost use Rattle.std.specs.Prelude.{◌≡◌, List, ℕ, Bool, Ok};
ghost use Rattle.mlk_text.specs.Failures.{Answers};
ghost use Rattle.mlk_machine_jobs.specs.Tasks.{Job};
ghost use Rattle.mlk_machine_jobs.specs.Choices.{without_choice};

use mlk_machine_jobs::{Choice, not_asked};
use mlk_machine_locks::Refusal;
use mlk_text::Failure;

/// `answer`, with its error as `Refused`.
pub fn or_refused<T>(answer: Result<T, Refusal>) -> Result<T, Failure<Refusal>>
    ensures { Answers (λ x. x) result answer }
{
    match answer {
        Ok(value) => Ok(value),
        Err(why) => Err(Failure::Refused(why)),
    }
}

/// Checks that nothing is chosen. Refused otherwise.
pub fn nothing_asked(choice: &Choice) -> Result<(), Failure<Refusal>>
    ensures { (j : Job) → Answers (λ _. j) result (without_choice choice.now (Ok j)) }
{
    or_refused(not_asked(choice))
}
