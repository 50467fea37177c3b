// Values.

ghost use Rattle.std.specs.Prelude.{◌≡◌, IfOk};

use crate::text::Text;
use std::alloc::{AllocError, Global};
use std::default::MadeWith;
use std::marker::Model;

/// A value in M: a text of any bytes. A number is its canonical text.
#[derive(Debug, Drop)]
pub struct Value {
    text: Text,
}

impl Model for Value {
    ghost use Rattle.std.specs.Prelude.{List, ℕ};
    ghost use Rattle.mlk_text.specs.Texts.{bytes_of};

    ghost Value = { List ℕ };

    ghost view = { λ v. bytes_of v.text };
}

impl Value {
    /// The value with the bytes `bytes`.
    pub fn new(bytes: Vec<u8>) -> Value
        ensures { result ≡ bytes.items }
    {
        Value {
            text: Text::Long(bytes),
        }
    }

    /// The value with the bytes `bytes`. Up to 16 bytes need no heap memory.
    #[inline(always)]
    pub fn of(alloc: Global, bytes: &[u8]) -> Result<Value, AllocError>
        ensures { IfOk result (λ value. value ≡ bytes.now) }
    {
        Ok(Value {
            text: Text::new(alloc, bytes)?,
        })
    }

    /// The value's bytes.
    pub fn as_bytes(&self) -> &[u8]
        ensures { result.now ≡ self.now }
    {
        self.text.as_bytes()
    }

    /// Copies the value, in the same allocator.
    #[inline(always)]
    pub fn copy(&self) -> Result<Value, AllocError>
        ensures { IfOk result (λ copy. copy ≡ self.now) }
    {
        self.clone()
    }
}

// The filler of inline slots that hold no subscript yet.
impl MadeWith<Global> for Value {
    fn made_with(alloc: Global) -> Value {
        Value::new(Vec::new(alloc))
    }
}

impl Clone for Value {
    ghost is_clone = { λ source clone. clone ≡ source };

    #[inline(always)]
    fn clone(&self) -> Result<Value, AllocError> {
        Ok(Value {
            text: self.text.copy()?,
        })
    }
}

impl PartialEq for Value {
    ghost use Rattle.std.specs.Prelude.{bytes_eq};
    ghost use Rattle.std.specs.Cmp.Rules.{comparing};
    ghost use Rattle.std.proofs.Common.{rules};

    ghost eq = { bytes_eq };

    ghost laws = { Prim.search (comparing, rules) };

    fn eq(&self, other: &Value) -> bool {
        self.text.is_same(&other.text)
    }
}

impl Eq for Value {
    ghost use Rattle.std.specs.Cmp.Rules.{comparing};
    ghost use Rattle.std.proofs.Common.{rules};

    ghost laws = { Prim.search (comparing, rules) };
}
