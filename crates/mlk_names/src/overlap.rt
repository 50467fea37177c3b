// Which references may overlap.

ghost use Rattle.std.specs.Prelude.{◌≡◌, ◌↔◌, ◌⊎◌, length, IsTrue};
ghost use Rattle.mlk_names.specs.References.{SymsMayMeet, SubsMayMeet, MayOverlap};

use crate::reference::{Extent, Reference};
use crate::symbol::Sym;

// Whether both symbols may have the same value.
fn syms_may_meet(first: &Sym, second: &Sym) -> bool
    ensures { IsTrue result ↔ SymsMayMeet first.now second.now }
{
    let Sym::Const(a) = first else {
        return true;
    };
    let Sym::Const(b) = second else {
        return true;
    };
    a == b
}

// Whether two subscript lists, one of which is empty, may reach a common node: if both are empty, or if the reference with
// the empty one is a tree.
fn ends_may_meet(first: &[Sym], far: Extent, second: &[Sym], wide: Extent) -> bool
    requires { (length first.now ≡ 0) ⊎ (length second.now ≡ 0) }
    ensures { IsTrue result ↔ SubsMayMeet first.now far second.now wide }
{
    match (first.split_first(), second.split_first()) {
        (None, None) => true,
        (None, Some(_)) => matches!(far, Extent::Tree),
        _ => matches!(wide, Extent::Tree),
    }
}

// Whether the subscripts of both references may reach a common node.
fn subs_may_meet(first: &[Sym], far: Extent, second: &[Sym], wide: Extent) -> bool
    ensures { IsTrue result ↔ SubsMayMeet first.now far second.now wide }
{
    let (mut firsts, mut seconds) = (first, second);
    while let (Some((x, xs)), Some((y, ys))) = (firsts.split_first(), seconds.split_first()) {
        if !syms_may_meet(x, y) {
            return false;
        }
        firsts = xs;
        seconds = ys;
    }
    ends_may_meet(firsts, far, seconds, wide)
}

/// Whether both references may reach a common node, if each subscript that is not a constant may have any value. Allocates
/// nothing.
pub fn may_overlap(first: &Reference, second: &Reference) -> bool
    ensures { IsTrue result ↔ MayOverlap first.now second.now }
{
    first.root == second.root
        && subs_may_meet(
            first.subs.as_slice(),
            first.extent,
            second.subs.as_slice(),
            second.extent,
        )
}
