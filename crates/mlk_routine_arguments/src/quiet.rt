// What is evaluated beside a timeout: whether a call in the timeout could make a difference to it.

ghost use Rattle.std.specs.Prelude.{◌≡◌, if◌then◌else◌, option_map};
ghost use Rattle.mlk_syntax.specs.ExprTrees.{tree_of};
ghost use Rattle.mlk_syntax.specs.Views.{variable_of};
ghost use Rattle.mlk_expr.specs.declared.context.Allows.TheVariants.{Everything, NoCalls};
ghost use Rattle.mlk_routine_arguments.specs.CommandGrammar.{is_quiet, is_quiet_value};

use mlk_expr::{Allows, are_subscripts_quiet, is_quiet_expr};
use mlk_syntax::{Expr, Variable};

/// Whether the subscripts of `variable` touch no global and call nothing.
pub(crate) fn is_quiet(variable: &Variable) -> bool
    ensures { result ≡ is_quiet (variable_of variable.now) }
{
    are_subscripts_quiet(&variable.name)
}

/// Whether `value`, if there is one, touches no global and calls nothing.
pub(crate) fn is_quiet_value(value: &Option<Expr>) -> bool
    ensures { result ≡ is_quiet_value (option_map tree_of value.now) }
{
    match value {
        Some(value) => is_quiet_expr(value),
        None => true,
    }
}

/// What is allowed in a timeout in the extended dialect, by whether all that is evaluated beside it is quiet.
pub(crate) fn in_timeout(is_quiet: bool) -> Allows
    ensures { result ≡ if is_quiet then Everything else NoCalls }
{
    if is_quiet {
        Allows::Everything
    } else {
        Allows::NoCalls
    }
}
