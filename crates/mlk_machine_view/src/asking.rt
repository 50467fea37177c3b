// The state of a job whose next task is not visible to other jobs.

ghost use Rattle.std.specs.Prelude.{◌≡◌};
ghost use Rattle.mlk_syntax.specs.ExprTrees.{choices, choices_from};
ghost use Rattle.mlk_machine_jobs.specs.Bindings.{look};
ghost use Rattle.mlk_machine_jobs.specs.JobViews.{frame_of, job_of};
ghost use Rattle.mlk_machine_view.specs.Asked.{by_value, by_last, by_unary, by_binary, by_last_truth, by_frame, if_enabled, has_choices};
ghost use Rattle.mlk_machine_view.specs.StateViews.{state_of};

use crate::known::{is_known_before, is_known_between};
use crate::shown::State;
use mlk_machine_jobs::{Frame, Job};
use mlk_numbers::known_truth;
use mlk_syntax::Expr;
use mlk_text::{Name, Op, UnaryOp};

/// The state of a job that reads the local `name` next.
pub(crate) fn fetch_state<'j>(job: &Job, name: &Name) -> State<'j>
    ensures { state_of result ≡ by_value ((job_of job.now).cells (look (job_of job.now).bindings name.now)) }
{
    match job.value_of(name.as_bytes()) {
        Some(_) => State::Silent,
        None => State::Stuck,
    }
}

/// The state of a job that uses its last value next.
pub(crate) fn uses_last<'j>(job: &Job) -> State<'j>
    ensures { state_of result ≡ by_last (job_of job.now).values }
{
    match job.values.value_at(0) {
        Some(_) => State::Silent,
        None => State::Stuck,
    }
}

/// The state of a job that applies a unary operator to its last value next.
pub(crate) fn applies_unary<'j>(job: &Job, op: UnaryOp) -> State<'j>
    ensures { state_of result ≡ by_unary op (job_of job.now).values }
{
    let Some(operand) = job.values.value_at(0) else {
        return State::Stuck;
    };
    if is_known_before(op, operand) {
        State::Silent
    } else {
        State::AsksChoice
    }
}

/// The state of a job that applies a binary operator to its last two values next.
pub(crate) fn applies_binary<'j>(job: &Job, op: Op) -> State<'j>
    ensures { state_of result ≡ by_binary op (job_of job.now).values }
{
    let Some(second) = job.values.value_at(0) else {
        return State::Stuck;
    };
    let Some(first) = job.values.value_at(1) else {
        return State::Stuck;
    };
    if is_known_between(op, first, second) {
        State::Silent
    } else {
        State::AsksChoice
    }
}

/// The state of a job at `$SELECT`, where `branches` are left.
pub(crate) fn select_state<'j>(branches: &[(Expr, Expr)]) -> State<'j>
    ensures { state_of result ≡ if_enabled (has_choices (choices_from (choices branches.now))) }
{
    match branches.split_first() {
        Some(_) => State::Silent,
        None => State::Stuck,
    }
}

/// The state of a job that depends on the truth value of its last value.
pub(crate) fn uses_truth<'j>(job: &Job, if_true: State<'j>, if_false: State<'j>) -> State<'j>
    ensures { state_of result ≡ by_last_truth (job_of job.now).values (state_of if_true.entry) (state_of if_false.entry) }
{
    let Some(value) = job.values.value_at(0) else {
        return State::Stuck;
    };
    match known_truth(value) {
        Some(true) => if_true,
        Some(false) => if_false,
        None => State::AsksChoice,
    }
}

/// The state of a job at the end of a frame.
pub(crate) fn ends_frame<'j>(frame: Frame) -> State<'j>
    ensures { state_of result ≡ by_frame (frame_of frame) }
{
    match frame {
        Frame::NoValue | Frame::HasValue(_) => State::Silent,
        Frame::AwaitsValue(_) => State::AsksChoice,
    }
}
