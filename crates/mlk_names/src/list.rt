// Prefixes of lists.

ghost use Rattle.std.specs.Prelude.{◌≡◌, ◌↔◌, IsTrue};
ghost use Rattle.std.specs.Bool.{Decides};
ghost use Rattle.mlk_names.specs.Lists.{Begins};

// Whether `second` is `first` followed by any tail.
pub(crate) fn begins<T: PartialEq>(first: &[T], second: &[T]) -> bool
    requires { (x y : T) → Decides (T.eq x y) (x ≡ y) }
    ensures { IsTrue result ↔ Begins first.now second.now }
{
    second.starts_with(first)
}
