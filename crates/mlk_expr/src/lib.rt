//! M's expressions: the exact readers of their grammar.
#![tactic(auto)]

mod context;
mod fault;
mod law;
mod named;
mod part;
mod pattern;
mod public;
mod quiet;
mod read;
mod refusal;

pub use context::{Allows, Passing};
pub use law::one_tree;
pub use mlk_syntax::{Actual, Callee, Expr, Function, Special, Subscript};
pub use mlk_text::{Op, Relation, UnaryOp};
pub use named::{read_callee, read_label, read_name};
pub use public::{
    read_actuals, read_actuals_where, read_expr, read_expr_where, read_ref, read_ref_where,
};
pub use quiet::{are_subscripts_quiet, is_quiet_expr};
