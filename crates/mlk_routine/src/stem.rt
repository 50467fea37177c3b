// The names that the stems of files spell.

ghost use Rattle.std.specs.Prelude.{◌≡◌, IfOk};
ghost use Rattle.mlk_routine.specs.RoutineGrammar.{percent};
ghost use Rattle.mlk_routine.specs.Lines.{IsStemName};

use mlk_text::Name;
use mlk_text::spelling::is_name;
use std::alloc::{AllocError, Global};

// The stem with `%` for a `_` at its front.
fn percent(alloc: Global, stem: &[u8]) -> Result<Vec<u8>, AllocError>
    ensures { IfOk result (λ v. v.items ≡ percent stem.now) }
{
    let mut spelled = Vec::new(alloc);
    if let Some((first, more)) = stem.split_first() {
        spelled.push(if *first == b'_' { b'%' } else { *first })?;
        spelled.extend_from_slice(more)?;
    }
    Ok(spelled)
}

/// The name that a file's stem spells, or `None` if it spells none.
pub(crate) fn stem_name(alloc: Global, stem: &[u8]) -> Result<Option<Name>, AllocError>
    ensures { IfOk result (IsStemName stem.now) }
{
    let spelled = percent(alloc, stem)?;
    if !is_name(&spelled) {
        return Ok(None);
    }
    Ok(Some(Name::of(alloc, spelled.as_slice())?))
}
