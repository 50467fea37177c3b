// Families in rule files.

ghost use Rattle.std.specs.Prelude.{◌≡◌, ◌++◌, IfOk, OnOk};
ghost use Rattle.toml.specs.View.{view};
ghost use Rattle.mlk_text.specs.Failures.{Answers};
ghost use Rattle.mlk_rules_file.specs.RuleKinds.{values_of, family_name};
ghost use Rattle.mlk_rules_file.specs.RuleSections.{rank_of, family_by, family_of};

use crate::read::fault::{RulesFault, Section, refusal_at};
use crate::read::kinds::{SpelledItem, Spelling, is_family_name, is_long};
use crate::read::spelling::spelled_name;
use crate::read::tables::family_keys;
use mlk_names::LockName;
use mlk_rules::Family;
use mlk_text::limit::GREATEST_RANK;
use mlk_text::{Code, Failure, Subscripts, Value, copy_of};
use std::alloc::{AllocError, Global};

fn push_values(found: &mut Vec<Value>, items: &[SpelledItem]) -> Result<(), AllocError>
    ensures { OnOk result (found.new.items ≡ found.old.items ++ values_of items.now) }
{
    for item in items {
        match item {
            SpelledItem::Literal(value) => found.push(value.copy()?)?,
            SpelledItem::Variable(_) => {}
            SpelledItem::Job => {}
        }
    }
    Ok(())
}

fn family_name(alloc: Global, s: &Spelling) -> Result<LockName, AllocError>
    ensures { IfOk result (λ n. n ≡ family_name s.now) }
{
    let mut found = Vec::new(alloc);
    push_values(&mut found, s.items.as_slice())?;
    Ok(LockName {
        root: copy_of(&s.root)?,
        subs: Subscripts::of(found),
    })
}

fn rank_of(rank: i64) -> Option<u32>
    ensures { result ≡ rank_of rank }
{
    if 0 <= rank && rank <= GREATEST_RANK as i64 {
        return Some(rank as u32);
    }
    None
}

fn family_by(
    alloc: Global,
    index: usize,
    name: Option<Spelling>,
    rank: i64,
) -> Result<Family, Failure<RulesFault>>
    ensures { Answers (λ x. x) result (family_by index name rank) }
{
    if is_long(&name) {
        return Err(refusal_at(Code::RulesLimit, Section::Lock, index));
    }
    let Some(rank) = rank_of(rank) else {
        return Err(refusal_at(Code::RulesLimit, Section::Lock, index));
    };
    let Some(s) = name else {
        return Err(refusal_at(Code::Pattern, Section::Lock, index));
    };
    if !is_family_name(&s) {
        return Err(refusal_at(Code::Pattern, Section::Lock, index));
    }
    Ok(Family {
        name: family_name(alloc, &s)?,
        rank,
    })
}

/// Reads the family `element`, which has the index `index`.
#[tactic(auto, unfolding(crate::specs::RuleSections::family_of))]
pub fn family(
    alloc: Global,
    index: usize,
    element: &toml::Value,
) -> Result<Family, Failure<RulesFault>>
    ensures { Answers (λ x. x) result (family_of index (view element.now)) }
{
    let Some((name, rank)) = family_keys(element) else {
        return Err(refusal_at(Code::Key, Section::Lock, index));
    };
    let name = spelled_name(alloc, name.as_bytes())?;
    family_by(alloc, index, name, rank)
}
