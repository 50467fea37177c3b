// Lists that occur at many places and are stored once.

ghost use Rattle.std.specs.Prelude.{◌≡◌, IfOk};

use mlk_text::{List, are_equal};
use std::alloc::{AllocError, Global};
use std::marker::Model;
use std::sync::Arc;

/// An immutable list that several owners may share. A contract sees the list of its elements.
#[derive(Drop)]
pub struct Shared<T> {
    list: Arc<List<T>>,
}

impl<T> Model for Shared<T> {
    ghost use Rattle.std.specs.Prelude.{List as Elements};
    ghost use Rattle.std.specs.Coded.{coded_list};

    ghost Value = { Elements T };

    ghost coded = { coded_list T.code };

    ghost view = { λ s. s.list.value };
}

impl<T: Drop> Shared<T> {
    /// A list of `items` with one owner, in as little memory as they need.
    pub fn new(alloc: Global, mut items: Vec<T>) -> Result<Shared<T>, AllocError>
        ensures { IfOk result (λ s. s ≡ items.items) }
    {
        items.shrink_to_fit();
        let list = Arc::new(alloc, List::of(items))?;
        Ok(Shared { list })
    }
}

impl<T: Drop> Shared<T> {
    /// The elements as a slice.
    pub fn as_slice(&self) -> &[T]
        ensures { result.now ≡ self.now }
    {
        let list: &List<T> = &self.list;
        list.as_slice()
    }
}

impl<T: PartialEq + Drop> PartialEq for Shared<T> {
    ghost use Rattle.std.specs.Cmp.Lexicographic.{pointwise, lists_per};

    ghost eq = { pointwise T.eq };

    ghost laws = { lists_per T.laws };

    fn eq(&self, other: &Shared<T>) -> bool {
        are_equal(self.as_slice(), other.as_slice())
    }
}

impl<T: Eq + Drop> Eq for Shared<T> {
    ghost use Rattle.std.specs.Cmp.Lexicographic.{lists_equiv};

    ghost laws = { lists_equiv T.Eq.laws };
}

impl<T: Drop> Clone for Shared<T> {
    ghost is_clone = { λ source clone. clone ≡ source };

    fn clone(&self) -> Result<Shared<T>, AllocError> {
        Ok(Shared {
            list: self.list.clone()?,
        })
    }
}
