// Lock terms as keys of a set.

use mlk_names::LockTerm;
use mlk_text::{Root, copy_of};
use std::alloc::AllocError;
use std::hash::{Hash, Hasher};

/// A lock term as a key.
#[derive(Drop, PartialEq, Eq)]
pub(crate) struct TermKey {
    pub(crate) term: LockTerm,
}

// The name of the root alone is hashed: few terms of a routine have the same root.
impl Hash for TermKey {
    ghost use Rattle.std.specs.Prelude.{[], ◌∷◌};
    ghost use Rattle.mlk_cert_terms.specs.Keys.{root_name};
    ghost use Rattle.std.proofs.Common.{ap};
    ghost use Rattle.mlk_cert_parts.proofs.EqualCases.{term-equal};

    ghost hash_input = { λ k. root_name k.term.root ∷ [] };

    ghost respects_eq = { λ x y h. ap (λ t. root_name t.root ∷ []) ((term-equal x.term y.term).0 h) };

    fn hash<H: Hasher>(&self, state: &mut H) {
        match &self.term.root {
            Root::Global(name) => name.hash(state),
            Root::Local(name) => name.hash(state),
        }
    }
}

impl Clone for TermKey {
    ghost use Rattle.std.specs.Prelude.{◌≡◌};

    ghost is_clone = { λ source clone. clone ≡ source };

    fn clone(&self) -> Result<TermKey, AllocError> {
        Ok(TermKey {
            term: copy_of(&self.term)?,
        })
    }
}
