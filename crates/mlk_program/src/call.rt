// Calls, where they occur in trees.

ghost use Rattle.std.specs.Prelude.{◌≡◌, ◌∷◌, [], OnOk, option_map};
ghost use Rattle.mlk_syntax.specs.ExprTrees.{actual_trees};
ghost use Rattle.mlk_syntax.specs.Trees.{Called};
ghost use Rattle.mlk_program.specs.Found.{Finds};

use mlk_syntax::{Actual, Callee};
use mlk_text::Column;
use std::alloc::AllocError;

/// A call in a tree: its column, its callee, and its actuals.
#[derive(Clone, Copy, Drop)]
pub struct CallSite<'a> {
    pub column: Column,
    pub callee: &'a Callee,
    pub actuals: &'a Option<Vec<Actual>>,
}

/// Adds a call to `found`.
pub(crate) fn add_call<'a>(
    found: &mut Vec<CallSite<'a>>,
    column: Column,
    callee: &'a Callee,
    actuals: &'a Option<Vec<Actual>>,
) -> Result<(), AllocError>
    ensures { OnOk result (Finds
        (Called column callee.now (option_map (λ v. actual_trees v.items) actuals.now) ∷ [])
        found.old.items found.new.items) }
{
    let site = CallSite {
        column,
        callee,
        actuals,
    };
    let Ok(()) = found.push(site) else {
        return Err(AllocError);
    };
    Ok(())
}
