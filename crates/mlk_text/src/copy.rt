// Copies that are known to be equal.

ghost use Rattle.std.specs.Prelude.{◌≡◌, IfOk};

use std::alloc::AllocError;

/// Copies `value`. A derived `clone` promises equality part by part; here it is one equation.
#[inline(always)]
pub fn copy_of<T: Clone>(value: &T) -> Result<T, AllocError>
    requires { (x y : T) → T.is_clone x y → y ≡ x }
    ensures { IfOk result (λ copy. copy ≡ value.now) }
{
    value.clone()
}
