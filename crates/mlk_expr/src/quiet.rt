// Expressions that touch no global and call nothing.

ghost use Rattle.std.specs.Prelude.{◌≡◌};
ghost use Rattle.std.specs.List.{list_all};
ghost use Rattle.mlk_syntax.specs.ExprTrees.{tree_of};
ghost use Rattle.mlk_expr.specs.declared.context.Allows.TheVariants.{NoTouches};
ghost use Rattle.mlk_expr.specs.Touches.{may_stand, subs_stand};
ghost use Rattle.mlk_expr.specs.Quiet.{quiet, quiet_subscript, quiet_link, quiet_choice};

use crate::context::Allows;
use mlk_syntax::{Expr, Subscript};
use mlk_text::Op;

/// Whether `e` touches no global and calls nothing.
#[cycle(quiet)]
#[tactic(auto, using(crate::proofs::QuietParts::of_func, crate::proofs::QuietParts::of_local, crate::proofs::QuietParts::of_binary, crate::proofs::QuietParts::of_select))]
pub fn is_quiet_expr(e: &Expr) -> bool
    ensures { result ≡ may_stand NoTouches (tree_of e.now) }
{
    match e {
        Expr::Lit(_) | Expr::Free | Expr::Special(_) | Expr::Pattern(_) => true,
        Expr::Local(_, subscripts) => are_quiet_subscripts(subscripts),
        Expr::Global(_, _, _) | Expr::Call(_, _, _) => false,
        Expr::Unary(_, operand) => is_quiet_expr(operand),
        Expr::Binary(first, rest) => is_quiet_expr(first) && is_quiet_chain(rest),
        Expr::Func(function, arguments) => {
            Allows::NoTouches.function(*function) && are_quiet(arguments)
        }
        Expr::Select(choices) => are_quiet_choices(choices),
    }
}

#[cycle(quiet)]
fn are_quiet(es: &[Expr]) -> bool
    ensures { result ≡ list_all quiet es.now }
{
    for e in es {
        if !is_quiet_expr(e) {
            return false;
        }
    }
    true
}

#[cycle(quiet)]
fn are_quiet_subscripts(subscripts: &[Subscript]) -> bool
    ensures { result ≡ list_all quiet_subscript subscripts.now }
{
    for subscript in subscripts {
        if !is_quiet_expr(&subscript.value) {
            return false;
        }
    }
    true
}

#[cycle(quiet)]
fn is_quiet_chain(rest: &[(Op, Expr)]) -> bool
    ensures { result ≡ list_all quiet_link rest.now }
{
    for (_, operand) in rest {
        if !is_quiet_expr(operand) {
            return false;
        }
    }
    true
}

#[cycle(quiet)]
fn are_quiet_choices(choices: &[(Expr, Expr)]) -> bool
    ensures { result ≡ list_all quiet_choice choices.now }
{
    for (condition, value) in choices {
        if !is_quiet_expr(condition) || !is_quiet_expr(value) {
            return false;
        }
    }
    true
}

/// Whether the subscripts of the local or global `name` touch no global and call nothing.
pub fn are_subscripts_quiet(name: &Expr) -> bool
    ensures { result ≡ subs_stand NoTouches (tree_of name.now) }
{
    match name {
        Expr::Local(_, subscripts) | Expr::Global(_, _, subscripts) => are_quiet_subscripts(
            subscripts,
        ),
        _ => true,
    }
}
