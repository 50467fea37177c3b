// Subscripts: short lists, most of which are stored inline.

ghost use Rattle.std.specs.Prelude.{◌≡◌, ◌∷◌, ◌++◌, [], OnOk};

use crate::list::are_equal;
use smallvec::SmallVec;
use std::alloc::{AllocError, Global};
use std::default::MadeWith;
use std::marker::Model;

/// The subscripts of a name, a term or a reference; up to `N` of them are stored inline. A contract sees the list of them.
#[derive(Drop)]
pub struct Subscripts<T, const N: usize> {
    items: SmallVec<T, N>,
}

impl<T, const N: usize> Model for Subscripts<T, N> {
    ghost use Rattle.std.specs.Prelude.{List};
    ghost use Rattle.std.specs.Coded.{coded_list};

    ghost Value = { List T };

    ghost coded = { coded_list T.code };

    ghost view = { λ l. l.items.items };
}

impl<T: MadeWith<Global> + Drop, const N: usize> Subscripts<T, N> {
    /// An empty list.
    pub fn new(alloc: Global) -> Subscripts<T, N>
        ensures { result ≡ [] }
    {
        Subscripts {
            items: SmallVec::new(alloc),
        }
    }

    /// The list of the subscripts `items`.
    pub fn of(items: Vec<T>) -> Subscripts<T, N>
        ensures { result ≡ items.items }
    {
        Subscripts {
            items: SmallVec::from_vec(items),
        }
    }

    /// Appends `item`.
    pub fn push(&mut self, item: T) -> Result<(), AllocError>
        ensures ok { OnOk result (self.new ≡ self.old ++ item ∷ []) }
    {
        self.items.push(item)?;
        Ok(())
    }
}

impl<T, const N: usize> Subscripts<T, N> {
    /// The subscripts as a slice.
    pub fn as_slice(&self) -> &[T]
        ensures { result.now ≡ self.now }
    {
        self.items.as_slice()
    }
}

impl<T: Clone + MadeWith<Global>, const N: usize> Clone for Subscripts<T, N> {
    ghost use Rattle.std.specs.List.{AllZip};

    ghost is_clone = { λ a b. AllZip T.is_clone a b };

    fn clone(&self) -> Result<Subscripts<T, N>, AllocError> {
        Ok(Subscripts {
            items: self.items.clone()?,
        })
    }
}

impl<T: PartialEq, const N: usize> PartialEq for Subscripts<T, N> {
    ghost use Rattle.std.specs.Cmp.Lexicographic.{pointwise, lists_per};

    ghost eq = { pointwise T.eq };

    ghost laws = { lists_per T.laws };

    fn eq(&self, other: &Subscripts<T, N>) -> bool {
        are_equal(self.as_slice(), other.as_slice())
    }
}

impl<T: Eq, const N: usize> Eq for Subscripts<T, N> {
    ghost use Rattle.std.specs.Cmp.Lexicographic.{lists_equiv};

    ghost laws = { lists_equiv T.Eq.laws };
}
