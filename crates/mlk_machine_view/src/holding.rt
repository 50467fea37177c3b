// The locks of a job as text.

ghost use Rattle.std.specs.Prelude.{◌≡◌, ◌++◌, IfOk, OnOk, map};
ghost use Rattle.mlk_machine_view.specs.StateTexts.{ascending, holds_text};
ghost use Rattle.mlk_machine_view.specs.Spelling.{holding_of};

use crate::spelling::text_of;
use mlk_cert_lexemes::{Written, WrittenText, push_listed};
use mlk_machine_locks::Held;
use mlk_names::LockName;
use std::alloc::{AllocError, Global};

// A held name as text, and its count.
#[derive(Drop)]
struct Holding {
    name: WrittenText,
    count: u32,
}

impl Written for Holding {
    ghost use Rattle.mlk_machine_view.specs.Spelling.{holding_text};

    ghost written = { holding_text };

    fn push_to(&self, text: &mut WrittenText) -> Result<(), AllocError> {
        text.push(self.name.as_bytes())?;
        text.push_byte(b'*')?;
        text.push_number(self.count)?;
        Ok(())
    }
}

// The entry `entry` as text.
fn holding_from(alloc: Global, entry: &(LockName, u32)) -> Result<Holding, AllocError>
    ensures { IfOk result (λ h. h ≡ holding_of entry.now) }
{
    Ok(Holding {
        name: text_of(alloc, &entry.0)?,
        count: entry.1,
    })
}

// Held names as texts, in the order in which they were first claimed.
fn holdings(alloc: Global, entries: &[(LockName, u32)]) -> Result<Vec<Holding>, AllocError>
    ensures { IfOk result (λ found. found.items ≡ map holding_of entries.now) }
{
    let mut found = Vec::new(alloc);
    for entry in entries {
        found.push(holding_from(alloc, entry)?)?;
    }
    Ok(found)
}

// Sorts `holdings` by their texts.
fn sort(holdings: &mut Vec<Holding>) -> Result<(), AllocError>
    ensures { OnOk result (holdings.new.items ≡ ascending (λ h. h.name) holdings.old.items) }
{
    holdings.sort_by(|first, second| first.name.as_bytes().cmp(second.name.as_bytes()))?;
    Ok(())
}

/// Appends the names that a job holds, in the order of their texts, each with its count.
#[tactic(auto, using(crate::proofs::HeldLemmas::held_as_texts))]
pub(crate) fn push_held(
    alloc: Global,
    text: &mut WrittenText,
    held: &Held,
) -> Result<(), AllocError>
    ensures { OnOk result (text.new ≡ text.old ++ holds_text held.now) }
{
    let mut holdings = holdings(alloc, held.entries())?;
    sort(&mut holdings)?;
    push_listed(text, holdings.as_slice())?;
    Ok(())
}
