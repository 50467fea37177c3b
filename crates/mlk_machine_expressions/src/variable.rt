// Variables: their subscripts, and the names of locals without subscripts.

ghost use Rattle.std.specs.Prelude.{◌≡◌, option_map};
ghost use Rattle.mlk_syntax.specs.Views.{variable_of};
ghost use Rattle.mlk_machine_jobs.specs.Commands.{subs_in};
ghost use Rattle.mlk_machine_expressions.specs.PartViews.{subs_of, bare_name};

use mlk_syntax::{Expr, Subscript, Variable};
use mlk_text::Name;

/// The subscripts of a variable; empty unless it is a local or a global.
#[tactic(auto, using(crate::proofs::VariableParts::local_subs, crate::proofs::VariableParts::global_subs, crate::proofs::VariableParts::other_subs))]
pub fn subscripts_of(variable: &Variable) -> &[Subscript]
    ensures { subs_of result.now ≡ subs_in (variable_of variable.now) }
{
    match &variable.name {
        Expr::Local(_, subscripts) | Expr::Global(_, _, subscripts) => subscripts,
        Expr::Lit(_)
        | Expr::Free
        | Expr::Special(_)
        | Expr::Unary(_, _)
        | Expr::Binary(_, _)
        | Expr::Pattern(_)
        | Expr::Func(_, _)
        | Expr::Select(_)
        | Expr::Call(_, _, None)
        | Expr::Call(_, _, Some(_)) => &[],
    }
}

/// The name of a local without subscripts, or `None` for any other variable.
#[tactic(auto, using(crate::proofs::VariableParts::bare_local, crate::proofs::VariableParts::no_bare_local))]
pub fn bare_name(variable: &Variable) -> Option<&Name>
    ensures { option_map (λ n. n.now) result ≡ bare_name (variable_of variable.now) }
{
    match &variable.name {
        Expr::Local(name, subscripts) => match subscripts.split_first() {
            None => Some(name),
            Some(_) => None,
        },
        Expr::Global(_, _, _)
        | Expr::Lit(_)
        | Expr::Free
        | Expr::Special(_)
        | Expr::Unary(_, _)
        | Expr::Binary(_, _)
        | Expr::Pattern(_)
        | Expr::Func(_, _)
        | Expr::Select(_)
        | Expr::Call(_, _, None)
        | Expr::Call(_, _, Some(_)) => None,
    }
}
