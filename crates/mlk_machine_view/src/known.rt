// Operators whose result is known.

ghost use Rattle.std.specs.Prelude.{◌≡◌, ℤ, Some, is_some};
ghost use Rattle.mlk_numbers.specs.Folding.{IsWhole, folded};
ghost use Rattle.mlk_numbers.specs.Outcome.{Finds};
ghost use Rattle.mlk_numbers.specs.Operators.{fold_before, fold_between};
ghost use Rattle.mlk_text.specs.declared.operator.Op.TheVariants as operator;
ghost use Rattle.mlk_text.specs.declared.operator.UnaryOp.TheVariants.{Plus, Minus};

use mlk_numbers::{fold_number, known_truth, whole_number};
use mlk_text::{Op, UnaryOp, Value};

// The maximum length of two joined texts whose result is known.
const LONGEST_JOIN: usize = 255;

// Whether `text` is that of a whole number of at most 15 digits.
fn is_number(text: &Value) -> bool
    ensures plus { result ≡ is_some (fold_before Plus text.now) }
    ensures minus { result ≡ is_some (fold_before Minus text.now) }
{
    whole_number(text.as_bytes()).is_some()
}

/// Whether the result of a unary operator is known. Allocates nothing.
#[tactic(auto, using(crate::proofs::KnownLemmas::truth_known))]
pub(crate) fn is_known_before(op: UnaryOp, operand: &Value) -> bool
    ensures { result ≡ is_some (fold_before op operand.now) }
{
    match op {
        UnaryOp::Plus => is_number(operand),
        UnaryOp::Minus => is_number(operand),
        UnaryOp::Not => known_truth(operand).is_some(),
    }
}

// Whether the join of two texts is known.
fn is_joined(first: &Value, second: &Value) -> bool
    ensures { result ≡ is_some (fold_between operator.Concatenate first.now second.now) }
{
    let (first, second) = (first.as_bytes(), second.as_bytes());
    first.len() <= LONGEST_JOIN && first.len() + second.len() <= LONGEST_JOIN
}

// The result of `op` on the texts of two whole numbers, or `None`.
fn number_between(op: Op, first: &Value, second: &Value) -> Option<i64>
    ensures { Finds (λ z. (x y : ℤ) × IsWhole x first.now × IsWhole y second.now × (folded op x y ≡ Some z)) result }
{
    let x = whole_number(first.as_bytes())?;
    let y = whole_number(second.as_bytes())?;
    fold_number(op, x, y)
}

/// Whether the result of a binary operator is known. Allocates nothing.
pub(crate) fn is_known_between(op: Op, first: &Value, second: &Value) -> bool
    ensures { result ≡ is_some (fold_between op first.now second.now) }
{
    if let Op::Concatenate = op {
        return is_joined(first, second);
    }
    number_between(op, first, second).is_some()
}
