// Names in the order of their bytes.

ghost use Rattle.std.specs.Prelude.{◌≡◌, IfOk, OnOk, map};
ghost use Rattle.std.specs.BTreeSet.{insert_key};
ghost use Rattle.std.specs.Ordering.{nat_cmp};
ghost use Rattle.std.specs.Cmp.Lexicographic.{slice_cmp};
ghost use Rattle.mlk_calls.specs.Order.{in_order};

use mlk_text::{List, Name};
use std::alloc::{AllocError, Global};
use std::collections::BTreeSet;

fn put_name(alloc: Global, found: &mut BTreeSet<Vec<u8>>, name: &Name) -> Result<(), AllocError>
    ensures { OnOk result (map (λ k. k.items) found.new.keys
        ≡ insert_key (slice_cmp nat_cmp) (map (λ k. k.items) found.old.keys) name.now) }
{
    let bytes = Vec::from_slice(alloc, name.as_bytes())?;
    found.insert(bytes)?;
    Ok(())
}

fn sorted_names(alloc: Global, names: &[Name]) -> Result<BTreeSet<Vec<u8>>, AllocError>
    ensures { IfOk result (λ s. map (λ k. k.items) s.keys ≡ in_order names.now) }
{
    let mut found = BTreeSet::new(alloc);
    for name in names {
        put_name(alloc, &mut found, name)?;
    }
    Ok(found)
}

/// The names in the order of their bytes, without duplicates.
pub fn in_order(alloc: Global, names: &[Name]) -> Result<List<Name>, AllocError>
    ensures { IfOk result (λ l. l ≡ in_order names.now) }
{
    let mut found = List::new(alloc);
    for bytes in sorted_names(alloc, names)? {
        found.push(Name::of(alloc, bytes.as_slice())?)?;
    }
    Ok(found)
}
