// Touches of a common node.

ghost use Rattle.std.specs.Prelude.{◌≡◌, ◌⊎◌, length};
ghost use Rattle.mlk_machine_jobs.specs.TaskViews.{touch_of};
ghost use Rattle.mlk_machine_view.specs.Regions as regions;

use mlk_machine_jobs::Touch;
use mlk_names::Extent;
use mlk_text::Value;

// Whether two subscripts have the same value.
fn same_value(first: &Value, second: &Value) -> bool
    ensures { result ≡ regions.same_value first.now second.now }
{
    first.as_bytes() == second.as_bytes()
}

// Whether a reference reaches everything below its node.
fn is_tree(extent: Extent) -> bool
    ensures { result ≡ regions.is_tree extent }
{
    matches!(extent, Extent::Tree)
}

// Whether two lists of subscripts, one of which is empty, reach a common node.
fn ends_meet(first: &[Value], far: Extent, second: &[Value], wide: Extent) -> bool
    requires { (length first.now ≡ 0) ⊎ (length second.now ≡ 0) }
    ensures { result ≡ regions.subs_meet first.now far second.now wide }
{
    match (first.split_first(), second.split_first()) {
        (None, None) => true,
        (None, Some(_)) => is_tree(far),
        _ => is_tree(wide),
    }
}

// Whether two lists of subscripts reach a common node.
fn subs_meet(first: &[Value], far: Extent, second: &[Value], wide: Extent) -> bool
    ensures { result ≡ regions.subs_meet first.now far second.now wide }
{
    let (mut firsts, mut seconds) = (first, second);
    while let (Some((x, xs)), Some((y, ys))) = (firsts.split_first(), seconds.split_first()) {
        if !same_value(x, y) {
            return false;
        }
        firsts = xs;
        seconds = ys;
    }
    ends_meet(firsts, far, seconds, wide)
}

/// Whether both touch a common node. Allocates nothing.
pub(crate) fn have_common_node(first: &Touch, second: &Touch) -> bool
    ensures { result ≡ regions.overlap (touch_of first.now).region (touch_of second.now).region }
{
    first.root == second.root
        && subs_meet(
            first.subs.as_slice(),
            first.extent,
            second.subs.as_slice(),
            second.extent,
        )
}
