// Which references surely lie in a pattern, or are trees that surely lie above one.

ghost use Rattle.std.specs.Prelude.{◌≡◌, ◌⊎◌, ◌↔◌, IsTrue};
ghost use Rattle.mlk_rules.specs.Patterns.{Suits, StaysIn, SurelyLies, SurelyAbove};
ghost use Rattle.mlk_rules.specs.Fronts.{SubsLie, SubsAbove};

use crate::lent::Lent;
use crate::pattern::{Element, Pattern};
use mlk_names::{Extent, Sym};

// Whether `symbol` surely is a value that `element` takes.
#[inline(always)]
fn suits(element: &Element, symbol: &Sym) -> bool
    ensures { IsTrue result ↔ Suits element.now symbol.now }
{
    match element {
        Element::Literal(value) => { matches!(symbol, Sym::Const(constant) if constant == value) }
        Element::Variable => true,
        Element::Job => matches!(symbol, Sym::Job),
    }
}

// Whether a reference with `symbols` left after the elements of the pattern reaches no further than the pattern.
fn stays_in(wide: Extent, far: Extent, symbols: &[Sym]) -> bool
    ensures { IsTrue result ↔ StaysIn wide far symbols.now }
{
    match (wide, far) {
        (Extent::Tree, _) => true,
        (Extent::Node, Extent::Node) => symbols.is_empty(),
        (Extent::Node, Extent::Tree) => false,
    }
}

fn subs_lie(elements: &[Element], wide: Extent, symbols: &[Sym], far: Extent) -> bool
    ensures { IsTrue result ↔ SubsLie elements.now wide symbols.now far }
{
    let mut elements = elements;
    let mut symbols = symbols;
    while let Some((element, other_elements)) = elements.split_first() {
        let Some((symbol, other_symbols)) = symbols.split_first() else {
            return false;
        };
        if !suits(element, symbol) {
            return false;
        }
        elements = other_elements;
        symbols = other_symbols;
    }
    stays_in(wide, far, symbols)
}

fn subs_above(elements: &[Element], symbols: &[Sym]) -> bool
    ensures { IsTrue result ↔ SubsAbove elements.now symbols.now }
{
    let mut elements = elements;
    let mut symbols = symbols;
    while let Some((symbol, other_symbols)) = symbols.split_first() {
        let Some((element, other_elements)) = elements.split_first() else {
            return false;
        };
        if !suits(element, symbol) {
            return false;
        }
        elements = other_elements;
        symbols = other_symbols;
    }
    true
}

// Whether everything that `reference` may reach lies in `pattern`.
fn surely_lies(pattern: &Pattern, reference: &Lent<'_>) -> bool
    ensures { IsTrue result ↔ SurelyLies pattern.now reference.now }
{
    *reference.root() == pattern.global
        && subs_lie(
            pattern.elements.as_slice(),
            pattern.extent,
            reference.subs(),
            reference.extent(),
        )
}

// Whether `reference` is a tree that surely has nodes of `pattern`.
fn surely_above(pattern: &Pattern, reference: &Lent<'_>) -> bool
    ensures { IsTrue result ↔ SurelyAbove pattern.now reference.now }
{
    matches!(reference.extent(), Extent::Tree)
        && *reference.root() == pattern.global
        && subs_above(pattern.elements.as_slice(), reference.subs())
}

// Whether `pattern` is a rule for all of `reference`.
pub(crate) fn is_ruled_by(pattern: &Pattern, reference: &Lent<'_>) -> bool
    ensures { IsTrue result ↔ SurelyLies pattern.now reference.now ⊎ SurelyAbove pattern.now reference.now }
{
    surely_lies(pattern, reference) || surely_above(pattern, reference)
}
