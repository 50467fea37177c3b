// Covers in rule files.

ghost use Rattle.std.specs.Prelude.{◌≡◌, IfOk, option_map};
ghost use Rattle.toml.specs.View.{view};
ghost use Rattle.mlk_text.specs.Failures.{Answers};
ghost use Rattle.mlk_rules_file.specs.RuleTexts.{spelling_of};
ghost use Rattle.mlk_rules_file.specs.RuleKinds.{place_of, part_of, parts_of, template_of, second_template};
ghost use Rattle.mlk_rules_file.specs.RuleSections.{cover_placed, cover_kinds, cover_by, cover_of};

use crate::read::fault::{RulesFault, Section, refusal_at};
use crate::read::kinds::{
    SpelledItem, Spelling, is_item, is_long, is_long_second, is_pattern, is_second_template,
    is_template,
};
use crate::read::pattern::pattern;
use crate::read::spelling::{spelled_name, spelled_pattern};
use crate::read::tables::cover_keys;
use mlk_rules::{Cover, ReadPolicy, Template, TemplatePart};
use mlk_text::{Code, Failure, List, Name, copy_of};
use std::alloc::{AllocError, Global};

fn place_of(name: &Name, items: &[SpelledItem]) -> Option<usize>
    ensures { result ≡ place_of name.now items.now }
{
    items.iter().position(|item| is_item(name, item))
}

fn part_of(items: &[SpelledItem], item: &SpelledItem) -> Result<Option<TemplatePart>, AllocError>
    ensures { IfOk result (λ p. p ≡ part_of items.now item.now) }
{
    match item {
        SpelledItem::Literal(value) => Ok(Some(TemplatePart::Literal(value.copy()?))),
        SpelledItem::Variable(name) => match place_of(name, items) {
            Some(place) => Ok(Some(TemplatePart::Place(place))),
            None => Ok(None),
        },
        SpelledItem::Job => Ok(None),
    }
}

fn parts_of(
    alloc: Global,
    items: &[SpelledItem],
    lock: &[SpelledItem],
) -> Result<Option<List<TemplatePart>>, AllocError>
    ensures { IfOk result (λ p. p ≡ parts_of items.now lock.now) }
{
    let mut found = Vec::new(alloc);
    for item in lock {
        let Some(part) = part_of(items, item)? else {
            return Ok(None);
        };
        found.push(part)?;
    }
    Ok(Some(List::of(found)))
}

// The lock of the spelling `s`, or `None` if it has a variable that the pattern does not have.
fn template_of(
    alloc: Global,
    items: &[SpelledItem],
    s: &Spelling,
) -> Result<Option<Template>, AllocError>
    ensures { IfOk result (λ t. t ≡ template_of items.now s.now) }
{
    let Some(parts) = parts_of(alloc, items, s.items.as_slice())? else {
        return Ok(None);
    };
    Ok(Some(Template {
        root: copy_of(&s.root)?,
        parts,
    }))
}

// The second lock, which is optional in a cover; `None` if it has a variable that the pattern does not have.
fn second_template(
    alloc: Global,
    items: &[SpelledItem],
    second: &Option<Spelling>,
) -> Result<Option<Option<Template>>, AllocError>
    ensures { IfOk result (λ t. t ≡ second_template items.now second.now) }
{
    let Some(s) = second else {
        return Ok(Some(None));
    };
    let Some(template) = template_of(alloc, items, s)? else {
        return Ok(None);
    };
    Ok(Some(Some(template)))
}

fn cover_placed(
    alloc: Global,
    index: usize,
    p: &Spelling,
    l: &Spelling,
    second: &Option<Spelling>,
    reads: ReadPolicy,
) -> Result<Cover, Failure<RulesFault>>
    ensures { Answers (λ x. x) result (cover_placed index p.now l.now second.now reads) }
{
    let Some(lock) = template_of(alloc, p.items.as_slice(), l)? else {
        return Err(refusal_at(Code::TemplateVariable, Section::Cover, index));
    };
    let Some(also) = second_template(alloc, p.items.as_slice(), second)? else {
        return Err(refusal_at(Code::TemplateVariable, Section::Cover, index));
    };
    Ok(Cover {
        pattern: pattern(alloc, p)?,
        lock,
        also,
        reads,
    })
}

fn cover_kinds(
    alloc: Global,
    index: usize,
    p: &Spelling,
    l: &Spelling,
    second: &Option<Spelling>,
    reads: ReadPolicy,
) -> Result<Cover, Failure<RulesFault>>
    ensures { Answers (λ x. x) result (cover_kinds index p.now l.now second.now reads) }
{
    if !is_pattern(Section::Cover, p) || !is_template(l) || !is_second_template(second) {
        return Err(refusal_at(Code::Pattern, Section::Cover, index));
    }
    cover_placed(alloc, index, p, l, second, reads)
}

// The cover with the given pattern, lock and optional second lock. Refused if one of them is spelled wrongly or is too long.
fn cover_by(
    alloc: Global,
    index: usize,
    pattern: Option<Spelling>,
    lock: Option<Spelling>,
    also: Option<Option<Spelling>>,
    reads: ReadPolicy,
) -> Result<Cover, Failure<RulesFault>>
    ensures { Answers (λ x. x) result (cover_by index pattern lock also reads) }
{
    if is_long(&pattern) || is_long(&lock) || is_long_second(&also) {
        return Err(refusal_at(Code::RulesLimit, Section::Cover, index));
    }
    let Some(p) = pattern else {
        return Err(refusal_at(Code::Pattern, Section::Cover, index));
    };
    let Some(l) = lock else {
        return Err(refusal_at(Code::Pattern, Section::Cover, index));
    };
    match also {
        None => cover_kinds(alloc, index, &p, &l, &None, reads),
        Some(None) => Err(refusal_at(Code::Pattern, Section::Cover, index)),
        Some(second) => cover_kinds(alloc, index, &p, &l, &second, reads),
    }
}

// The spelling of the second lock, if it is given.
fn spelled_second(alloc: Global, also: Option<&str>) -> Result<Option<Option<Spelling>>, AllocError>
    ensures { IfOk result (λ s. s ≡ option_map spelling_of (option_map (λ t. t.now) also.entry)) }
{
    match also {
        None => Ok(None),
        Some(text) => Ok(Some(spelled_name(alloc, text.as_bytes())?)),
    }
}

/// Reads the cover `element`, which has the index `index`.
#[tactic(auto, unfolding(crate::specs::RuleSections::cover_of))]
pub fn cover(
    alloc: Global,
    index: usize,
    element: &toml::Value,
) -> Result<Cover, Failure<RulesFault>>
    ensures { Answers (λ x. x) result (cover_of index (view element.now)) }
{
    let Some(keys) = cover_keys(element) else {
        return Err(refusal_at(Code::Key, Section::Cover, index));
    };
    let pattern = spelled_pattern(alloc, keys.global.as_bytes())?;
    let lock = spelled_name(alloc, keys.lock.as_bytes())?;
    let also = spelled_second(alloc, keys.also)?;
    cover_by(alloc, index, pattern, lock, also, keys.reads)
}
