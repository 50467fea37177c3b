// The only value that a job's next step can have.

use crate::function::value_of_function;
use crate::operator::value_between;
use mlk_machine_jobs::Job;
use mlk_replay_places::Part;
use mlk_text::Value;
use std::alloc::{AllocError, Global};

/// The value of `part`, which `job` computes next, if the job has all of its operands and the value is known: of the relations
/// `=`, `[`, `]`, of `<` and `>` between whole numbers, of `&` and `!`, of `_`, of `$LENGTH`, `$PIECE` and `$EXTRACT`.
pub fn known_value(
    alloc: Global,
    job: &Job<'_>,
    part: Part<'_>,
) -> Result<Option<Value>, AllocError> {
    match part {
        Part::Operator(op) => {
            let (Some(first), Some(second)) = (job.values.value_at(1), job.values.value_at(0))
            else {
                return Ok(None);
            };
            value_between(alloc, op, first, second)
        }
        Part::Function(function, count) => {
            value_of_function(alloc, function, job.values.last(count))
        }
        _ => Ok(None),
    }
}
