// The order of own names.

ghost use Rattle.std.specs.Prelude.{◌≡◌, ◌++◌, IfOk, OnOk, filter};
ghost use Rattle.mlk_cert_lexemes.specs.Lists.{upto, more, joined};
ghost use Rattle.mlk_cert_lexemes.specs.Texts.{name_text};
ghost use Rattle.mlk_cert_parts.specs.Texts.{names_text};
ghost use Rattle.mlk_cert_parts.specs.Limits.{names_below, own_below};
ghost use Rattle.mlk_walk_commands.specs.Order.{is_before, put_own};

use mlk_calls::is_same_own;
use mlk_cert_parts::{NameSet, Own};
use mlk_text::{List, Name, copy_of};
use std::alloc::{AllocError, Global};

fn push_more(text: &mut Vec<u8>, names: &[Name]) -> Result<(), AllocError>
    ensures { OnOk result (text.new.items ≡ text.old.items ++ more 44 name_text names.now) }
{
    for name in names {
        text.push(b',')?;
        text.extend_from_slice(name.as_bytes())?;
    }
    Ok(())
}

fn push_joined(text: &mut Vec<u8>, names: &[Name]) -> Result<(), AllocError>
    ensures { OnOk result (text.new.items ≡ text.old.items ++ joined 44 name_text names.now) }
{
    let Some((first, others)) = names.split_first() else {
        return Ok(());
    };
    text.extend_from_slice(first.as_bytes())?;
    push_more(text, others)
}

fn names_text(alloc: Global, names: &NameSet) -> Result<Vec<u8>, AllocError>
    ensures { IfOk result (λ v. v.items ≡ names_text names.now) }
{
    match names {
        NameSet::Only(name) => Vec::from_slice(alloc, name.as_bytes()),
        NameSet::AllBut(names) => {
            let mut text = Vec::new(alloc);
            text.extend_from_slice(b"~(")?;
            push_joined(&mut text, names.as_slice())?;
            text.push(b')')?;
            Ok(text)
        }
    }
}

fn is_upto(x: &[u8], y: &[u8]) -> bool
    ensures { result ≡ upto x.now y.now }
{
    x <= y
}

// Usually both are single names, whose texts are their bytes.
fn is_below(alloc: Global, first: &NameSet, second: &NameSet) -> Result<bool, AllocError>
    ensures { IfOk result (λ b. b ≡ names_below first.now second.now) }
{
    if let NameSet::Only(name) = first {
        if let NameSet::Only(other) = second {
            return Ok(!is_upto(other.as_bytes(), name.as_bytes()));
        }
    }
    let text = names_text(alloc, first)?;
    let other = names_text(alloc, second)?;
    Ok(!is_upto(other.as_slice(), text.as_slice()))
}

fn own_below(alloc: Global, first: &Own, second: &Own) -> Result<bool, AllocError>
    ensures { IfOk result (λ b. b ≡ own_below first.now second.now) }
{
    if first.level < second.level {
        return Ok(true);
    }
    if first.level != second.level {
        return Ok(false);
    }
    is_below(alloc, &first.names, &second.names)
}

// Whether `item` differs from `other` and is not after it.
fn is_before(alloc: Global, item: &Own, other: &Own) -> Result<bool, AllocError>
    ensures { IfOk result (λ b. b ≡ is_before item.now other.now) }
{
    if is_same_own(other, item) {
        return Ok(false);
    }
    Ok(!own_below(alloc, item, other)?)
}

fn own_before(alloc: Global, own: &[Own], item: &Own) -> Result<Vec<Own>, AllocError>
    ensures { IfOk result (λ v. v.items ≡ filter (is_before item.now) own.now) }
{
    let room = Vec::with_capacity(alloc, own.len().saturating_add(1))?;
    let mut found = List::of(room);
    for other in own {
        if is_before(alloc, item, other)? {
            found.push(copy_of(other)?)?;
        }
    }
    Ok(found.into_vec())
}

fn own_after(alloc: Global, own: &[Own], item: &Own) -> Result<Vec<Own>, AllocError>
    ensures { IfOk result (λ v. v.items ≡ filter (own_below item.now) own.now) }
{
    let mut found = List::new(alloc);
    for other in own {
        if own_below(alloc, item, other)? {
            found.push(copy_of(other)?)?;
        }
    }
    Ok(found.into_vec())
}

/// Inserts `item` into own names, in order.
pub fn put_own(alloc: Global, own: &[Own], item: Own) -> Result<Vec<Own>, AllocError>
    ensures { IfOk result (λ v. v.items ≡ put_own item own.now) }
{
    let mut all = own_before(alloc, own, &item)?;
    let mut others = own_after(alloc, own, &item)?;
    all.push(item)?;
    all.append(&mut others)?;
    Ok(all)
}
