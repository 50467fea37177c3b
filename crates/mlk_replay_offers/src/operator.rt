// Values of operators.

use bstr::ByteSlice;
use mlk_numbers::{known_truth, whole_number};
use mlk_text::{Op, Relation, Value};
use std::alloc::{AllocError, Global};
use std::cmp::Ordering;

// Whether a relation holds between two texts; `None` if that is not known, as for numbers that are not whole.
fn holds(relation: Relation, first: &Value, second: &Value) -> Option<bool> {
    let (left, right) = (first.as_bytes(), second.as_bytes());
    match relation {
        Relation::Equals => Some(left == right),
        Relation::Less => Some(whole_number(left)? < whole_number(right)?),
        Relation::Greater => Some(whole_number(left)? > whole_number(right)?),
        Relation::Contains => Some(left.contains_str(right)),
        Relation::Follows => Some(left.cmp(right) == Ordering::Greater),
        Relation::And => Some(known_truth(first)? && known_truth(second)?),
        Relation::Or => Some(known_truth(first)? || known_truth(second)?),
        Relation::SortsAfter | Relation::Matches => None,
    }
}

// The text of a truth value.
fn truth_text(alloc: Global, truth: bool) -> Result<Value, AllocError> {
    let text: &[u8] = if truth { b"1" } else { b"0" };
    Value::of(alloc, text)
}

/// The value of `op` between two texts; `None` if it is not known.
pub(crate) fn value_between(
    alloc: Global,
    op: Op,
    first: &Value,
    second: &Value,
) -> Result<Option<Value>, AllocError> {
    let found = match op {
        Op::Is(relation) => holds(relation, first, second),
        Op::IsNot(relation) => match holds(relation, first, second) {
            Some(holds) => Some(!holds),
            None => None,
        },
        Op::Concatenate => return concatenation(alloc, first, second),
        _ => None,
    };
    match found {
        Some(truth) => Ok(Some(truth_text(alloc, truth)?)),
        None => Ok(None),
    }
}

// The join of two texts.
fn concatenation(
    alloc: Global,
    first: &Value,
    second: &Value,
) -> Result<Option<Value>, AllocError> {
    let mut text = Vec::from_slice(alloc, first.as_bytes())?;
    text.extend_from_slice(second.as_bytes())?;
    Ok(Some(Value::new(text)))
}
