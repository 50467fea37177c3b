// The answers of conditions.

use mlk_stale_steps::Condition;

/// Whether `condition` may have the answer `answer` if `$TEST` is `test`.
pub(crate) fn may_answer(condition: Condition, test: Option<bool>, answer: bool) -> bool {
    match condition {
        Condition::Always(holds) => holds == answer,
        Condition::Open => true,
        Condition::Test(is_set) => match test {
            Some(test) => (test == is_set) == answer,
            None => true,
        },
    }
}

/// `$TEST` after a condition, for each of its answers.
#[derive(Clone, Copy, Drop)]
pub(crate) struct Tests {
    pub(crate) if_true: Option<bool>,
    pub(crate) if_false: Option<bool>,
}

impl Tests {
    /// `$TEST` after IF: the answer.
    pub(crate) const ANSWER: Tests = Tests {
        if_true: Some(true),
        if_false: Some(false),
    };

    /// `$TEST` after a postconditional: it stays as it is, and a condition on it shows what it is.
    pub(crate) fn after(condition: Condition, test: Option<bool>) -> Tests {
        match condition {
            Condition::Test(is_set) => Tests {
                if_true: Some(is_set),
                if_false: Some(!is_set),
            },
            _ => Tests {
                if_true: test,
                if_false: test,
            },
        }
    }
}
