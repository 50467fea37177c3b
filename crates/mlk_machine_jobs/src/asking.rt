// What a step asks for, and the choice that it is given.

ghost use Rattle.std.specs.Prelude.{◌≡◌, List, ℕ, Bool, Ok};
ghost use Rattle.mlk_machine_locks.specs.Systems.{and_then};
ghost use Rattle.mlk_machine_jobs.specs.Tasks.{Job};
ghost use Rattle.mlk_machine_jobs.specs.Choices.{Stepped, without_choice, with_value, with_truth};

use crate::choice::Choice;
use mlk_machine_locks::Refusal;
use mlk_text::Value;

/// Checks that nothing is chosen. Refused as `BadChoice` otherwise.
pub fn not_asked(choice: &Choice) -> Result<(), Refusal>
    ensures { (j : Job) → without_choice choice.now (Ok j) ≡ and_then (λ _. Ok j) result }
{
    match choice {
        Choice::None => Ok(()),
        Choice::Value(_) | Choice::Truth(_) => Err(Refusal::BadChoice),
    }
}

/// The value that is chosen. Refused as `BadChoice` if the choice is not a value.
pub fn asked_value(choice: Choice) -> Result<Value, Refusal>
    ensures { (f : List ℕ → Stepped) → with_value choice f ≡ and_then f result }
{
    match choice {
        Choice::Value(value) => Ok(value),
        Choice::None | Choice::Truth(_) => Err(Refusal::BadChoice),
    }
}

/// The truth value that is chosen. Refused as `BadChoice` if the choice is not one.
pub fn asked_truth(choice: &Choice) -> Result<bool, Refusal>
    ensures { (f : Bool → Stepped) → with_truth choice.now f ≡ and_then f result }
{
    match choice {
        Choice::Truth(truth) => Ok(*truth),
        Choice::None | Choice::Value(_) => Err(Refusal::BadChoice),
    }
}
