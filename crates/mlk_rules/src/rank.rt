// The ranks of terms.

ghost use Rattle.std.specs.Prelude.{◌≡◌, ◌↔◌, IsTrue, ℕ, Some, map};
ghost use Rattle.mlk_names.specs.declared.known_symbol.KnownSym.TheVariants.{Const};
ghost use Rattle.mlk_names.specs.Lists.{Begins};
ghost use Rattle.mlk_names.specs.Terms.{IsPrefix};
ghost use Rattle.mlk_rules.specs.Ranks.{constant_term, HasRank, FamiliesApart};

use crate::family::Family;
use crate::rules::Rules;
use mlk_names::{KnownSym, LockName, LockTerm};
use mlk_text::Value;

// Whether `symbols` begin with the constants `values`.
fn begin_with(values: &[Value], symbols: &[KnownSym]) -> bool
    ensures { IsTrue result ↔ Begins (map Const values.now) symbols.now }
{
    let mut values = values;
    let mut symbols = symbols;
    while let Some((value, other_values)) = values.split_first() {
        let Some((symbol, other_symbols)) = symbols.split_first() else {
            return false;
        };
        if !matches!(symbol, KnownSym::Const(constant) if constant == value) {
            return false;
        }
        values = other_values;
        symbols = other_symbols;
    }
    true
}

// Whether `name` is `term` or above it, by equal constants.
fn is_above(name: &LockName, term: &LockTerm) -> bool
    ensures { IsTrue result ↔ IsPrefix (constant_term name.now) term.now }
{
    name.root == term.root && begin_with(name.subs.as_slice(), term.subs.as_slice())
}

fn rank_among(families: &[Family], term: &LockTerm) -> Option<u32>
    requires { FamiliesApart families.now }
    ensures { (k : ℕ) → (result ≡ Some k) ↔ HasRank families.now term.now k }
{
    for family in families {
        if is_above(&family.name, term) {
            return Some(family.rank);
        }
    }
    None
}

/// The rank of the one family that is `term` or above it, by equal constants; `None` if there is none. Allocates nothing.
pub fn rank_of(rules: &Rules, term: &LockTerm) -> Option<u32>
    ensures { (k : ℕ) → (result ≡ Some k) ↔ HasRank rules.now.families term.now k }
{
    rank_among(rules.families(), term)
}
