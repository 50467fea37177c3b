// Names of routines, labels, globals and locals.

ghost use Rattle.std.specs.Prelude.{◌≡◌, IfOk};

use crate::text::NameText;
use std::alloc::{AllocError, Global};
use std::hash::{Hash, Hasher};
use std::marker::Model;

/// A name in M, without the `^` of a global: `%` or a letter, then letters and digits; case matters.
///
/// A label may be digits instead. The readers ensure this form; the type itself takes any bytes.
#[derive(Drop)]
pub struct Name {
    text: NameText,
}

impl Model for Name {
    ghost use Rattle.std.specs.Prelude.{List, ℕ};
    ghost use Rattle.mlk_text.specs.Texts.{name_bytes_of};

    ghost Value = { List ℕ };

    ghost view = { λ n. name_bytes_of n.text };
}

impl Name {
    /// The name with the bytes `bytes`. Up to 14 bytes need no heap memory.
    #[inline(always)]
    pub fn of(alloc: Global, bytes: &[u8]) -> Result<Name, AllocError>
        ensures { IfOk result (λ name. name ≡ bytes.now) }
    {
        Ok(Name {
            text: NameText::new(alloc, bytes)?,
        })
    }

    /// The name's bytes.
    pub fn as_bytes(&self) -> &[u8]
        ensures { result.now ≡ self.now }
    {
        self.text.as_bytes()
    }

    /// Copies the name, in the same allocator.
    #[inline(always)]
    pub fn copy(&self) -> Result<Name, AllocError>
        ensures { IfOk result (λ copy. copy ≡ self.now) }
    {
        self.clone()
    }
}

impl Clone for Name {
    ghost is_clone = { λ source clone. clone ≡ source };

    #[inline(always)]
    fn clone(&self) -> Result<Name, AllocError> {
        Ok(Name {
            text: self.text.copy()?,
        })
    }
}

impl PartialEq for Name {
    ghost use Rattle.std.specs.Prelude.{bytes_eq};
    ghost use Rattle.std.specs.Cmp.Rules.{comparing};
    ghost use Rattle.std.proofs.Common.{rules};

    ghost eq = { bytes_eq };

    ghost laws = { Prim.search (comparing, rules) };

    #[inline(always)]
    fn eq(&self, other: &Name) -> bool {
        self.text.is_same(&other.text)
    }
}

// A name is hashed in one piece.
impl Hash for Name {
    ghost use Rattle.std.specs.Prelude.{[], ◌∷◌};
    ghost use Rattle.std.specs.Cmp.Rules.{comparing};
    ghost use Rattle.std.proofs.Common.{rules};

    ghost hash_input = { λ n. n ∷ [] };

    ghost respects_eq = { Prim.search (comparing, rules) };

    #[inline(always)]
    fn hash<H: Hasher>(&self, state: &mut H) {
        state.write(self.as_bytes());
    }
}

impl Eq for Name {
    ghost use Rattle.std.specs.Cmp.Rules.{comparing};
    ghost use Rattle.std.proofs.Common.{rules};

    ghost laws = { Prim.search (comparing, rules) };
}
