// What is known of conditions.

use crate::step::Condition;
use mlk_syntax::{Expr, Special};
use mlk_text::UnaryOp;

/// What is known of the condition `e`: it is known if it is `$TEST`, `0`, `1`, or `'` before one of these.
pub(crate) fn condition_of(e: &Expr) -> Condition {
    match e {
        Expr::Special(Special::Test) => Condition::Test(true),
        Expr::Lit(value) if value.as_bytes() == b"0".as_slice() => Condition::Always(false),
        Expr::Lit(value) if value.as_bytes() == b"1".as_slice() => Condition::Always(true),
        Expr::Unary(UnaryOp::Not, operand) => condition_of(operand).opposite(),
        _ => Condition::Open,
    }
}
