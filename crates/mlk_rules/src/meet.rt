// Which references a pattern may meet.

ghost use Rattle.std.specs.Prelude.{◌≡◌, ◌↔◌, IsTrue, map};
ghost use Rattle.mlk_names.specs.References.{SymsMayMeet, SubsMayMeet};
ghost use Rattle.mlk_rules.specs.Patterns.{MayMeet};
ghost use Rattle.mlk_rules.specs.Fronts.{symbol_of};

use crate::lent::Lent;
use crate::pattern::{Element, Pattern};
use mlk_names::{Extent, Reference, Sym};

// Whether `element` takes some value that `symbol` may have.
#[inline(always)]
fn element_may_meet(element: &Element, symbol: &Sym) -> bool
    ensures { IsTrue result ↔ SymsMayMeet (symbol_of element.now) symbol.now }
{
    let Element::Literal(value) = element else {
        return true;
    };
    let Sym::Const(constant) = symbol else {
        return true;
    };
    value == constant
}

// Whether subscripts that the elements take reach a node that the symbols may reach too.
fn elements_may_meet(elements: &[Element], wide: Extent, symbols: &[Sym], far: Extent) -> bool
    ensures { IsTrue result ↔ SubsMayMeet (map symbol_of elements.now) wide symbols.now far }
{
    let mut elements = elements;
    let mut symbols = symbols;
    while let Some((element, other_elements)) = elements.split_first() {
        let Some((symbol, other_symbols)) = symbols.split_first() else {
            return matches!(far, Extent::Tree);
        };
        if !element_may_meet(element, symbol) {
            return false;
        }
        elements = other_elements;
        symbols = other_symbols;
    }
    symbols.is_empty() || matches!(wide, Extent::Tree)
}

// `may_meet`, for a reference whose parts are borrowed.
pub(crate) fn meets(pattern: &Pattern, reference: &Lent<'_>) -> bool
    ensures { IsTrue result ↔ MayMeet pattern.now reference.now }
{
    pattern.global == *reference.root()
        && elements_may_meet(
            pattern.elements.as_slice(),
            pattern.extent,
            reference.subs(),
            reference.extent(),
        )
}

/// Whether `reference` may reach some node of `pattern`, if each subscript that is not a constant may have any value.
/// Allocates nothing.
pub fn may_meet(pattern: &Pattern, reference: &Reference) -> bool
    ensures { IsTrue result ↔ MayMeet pattern.now reference.now }
{
    meets(pattern, &Lent::of(reference))
}
