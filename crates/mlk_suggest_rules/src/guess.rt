// All suggested rules.

use crate::cover::CoverGuess;
use crate::entry::{EntryGuess, entries_of};
use crate::global::{GlobalGuess, GlobalGuesses, Judge, Undecided};
use crate::known::KnownRules;
use crate::suspect::Suspect;
use indexmap::IndexMap;
use mlk_suggest::{Evidence, ReleaseAt};
use mlk_suggest_ranks::{
    Against, FamilyGuess, FamilyName, Nesting, families_of, nestings_of, order_of,
};
use mlk_suggest_steps::{Program, UnitId, Word};
use mlk_text::limit::GREATEST_RANK;
use mlk_text::push_sparing;
use std::alloc::{AllocError, Global};

/// The difference between the ranks of two families, unless ranks are given.
const RANK_STEP: usize = 10;

/// The rules that are suggested for a program, and the places that do not follow them.
#[derive(Drop)]
pub struct Guess {
    /// the families of locks that the known rules do not rank, in the order of their ranks
    pub families: Vec<FamilyGuess>,
    /// the families that are claimed while others are held
    pub nestings: Vec<Nesting>,
    /// claims that no order allows, or not this one
    pub against: Vec<Against>,
    /// the covers, in the order of their globals' names
    pub covers: Vec<CoverGuess>,
    pub private: Vec<GlobalGuess>,
    pub readonly: Vec<GlobalGuess>,
    pub undecided: Vec<Undecided>,
    /// the places at which a lock is missing, in the order of the covers
    pub suspects: Vec<Suspect>,
    /// releases of locks that aren't held
    pub releases: Vec<ReleaseAt>,
    pub entries: Vec<EntryGuess>,
    /// labels that other routines call without holding a lock, and that claim or release locks
    pub free: Vec<UnitId>,
    /// labels and first lines that are not called and that only quit
    pub bare: Vec<UnitId>,
}

// Adds a touch to those of its global.
fn add_place(
    alloc: Global,
    numbers: &mut IndexMap<Word, usize>,
    groups: &mut Vec<(Word, Vec<usize>)>,
    global: Word,
    place: usize,
) -> Result<(), AllocError> {
    let number = match numbers.get(&global) {
        Some(number) => *number,
        None => groups.len(),
    };
    if number == groups.len() {
        let Ok(_) = numbers.insert(global, number) else {
            return Err(AllocError);
        };
        push_sparing(groups, (global, Vec::new(alloc)))?;
    }
    match groups.get_mut(number) {
        Some(group) => push_sparing(&mut group.1, place),
        None => Ok(()),
    }
}

// The indexes of each global's touches, in the order of the globals' names.
fn by_global(
    alloc: Global,
    program: &Program<'_>,
    evidence: &Evidence<'_>,
) -> Result<Vec<(Word, Vec<usize>)>, AllocError> {
    let mut numbers = IndexMap::new(alloc);
    let mut groups = Vec::new(alloc);
    for (place, touch) in evidence.touches.iter().enumerate() {
        let global = touch.reference.global;
        add_place(alloc, &mut numbers, &mut groups, global, place)?;
    }
    let words = &program.words;
    groups.sort_by(|group, other| words.text(group.0).cmp(words.text(other.0)))?;
    Ok(groups)
}

// The rules for the globals for which none is known.
fn globals_of<'j>(
    alloc: Global,
    program: &'j Program<'j>,
    evidence: &'j Evidence<'j>,
    known: KnownRules<'_>,
) -> Result<GlobalGuesses, AllocError> {
    let mut guesses = GlobalGuesses::new(alloc);
    for (global, places) in by_global(alloc, program, evidence)? {
        if !known.have_global(program.words.text(global)) {
            let judge = Judge {
                alloc,
                program,
                evidence,
                global,
            };
            judge.judge(&mut guesses, places.as_slice())?;
        }
    }
    Ok(guesses)
}

// The rank after `last` for the first of `count` families that come before one with the rank `next`, if there is one.
fn rank_after(last: usize, next: Option<usize>, count: usize) -> usize {
    match next {
        Some(next) if next > last => {
            let room = next.saturating_sub(last);
            let step = room.checked_div(count.saturating_add(1)).unwrap_or(1);
            last.saturating_add(step.max(1).min(RANK_STEP))
        }
        _ => last.saturating_add(RANK_STEP),
    }
}

// The number of families before the first whose rank is given, and that rank.
fn next_known(ranks: &[Option<usize>]) -> (usize, Option<usize>) {
    match ranks.iter().position(|rank| rank.is_some()) {
        Some(place) => (place, ranks.get(place).copied().flatten()),
        None => (ranks.len(), None),
    }
}

// The families in `order`, each with its rank.
fn rank_families(
    alloc: Global,
    program: &Program<'_>,
    names: &[FamilyName],
    claims: &IndexMap<FamilyName, usize>,
    order: &[usize],
    known: KnownRules<'_>,
) -> Result<Vec<FamilyGuess>, AllocError> {
    let mut ranks = Vec::new(alloc);
    let mut ordered = Vec::new(alloc);
    for place in order {
        if let Some(name) = names.get(*place) {
            push_sparing(&mut ordered, *name)?;
            push_sparing(&mut ranks, known.rank(program, name.root))?;
        }
    }
    let mut families = Vec::new(alloc);
    let mut last: usize = 0;
    for (place, name) in ordered.iter().enumerate() {
        let given = ranks.get(place).copied().flatten();
        let others = ranks.get(place..).unwrap_or(&[]);
        let (count, next) = next_known(others);
        let rank = given.unwrap_or(rank_after(last, next, count).min(GREATEST_RANK as usize));
        last = rank.max(last);
        let family = FamilyGuess {
            name: *name,
            rank,
            claims: claims.get(name).copied().unwrap_or(0),
            is_known: given.is_some(),
        };
        push_sparing(&mut families, family)?;
    }
    Ok(families)
}

// The rank of a family.
fn rank_of(ranks: &IndexMap<FamilyName, usize>, name: &FamilyName) -> usize {
    ranks.get(name).copied().unwrap_or(0)
}

// The nestings against the ranks, each with the nesting in the other direction, if there is one.
fn inversions_of(
    alloc: Global,
    families: &[FamilyGuess],
    nestings: &[Nesting],
) -> Result<Vec<Against>, AllocError> {
    let mut ranks = IndexMap::new(alloc);
    for family in families {
        let Ok(_) = ranks.insert(family.name, family.rank) else {
            return Err(AllocError);
        };
    }
    let mut pairs = IndexMap::new(alloc);
    for nesting in nestings {
        let Ok(_) = pairs.insert((nesting.held, nesting.claimed), *nesting) else {
            return Err(AllocError);
        };
    }
    let mut against = Vec::new(alloc);
    for nesting in nestings {
        if rank_of(&ranks, &nesting.held) >= rank_of(&ranks, &nesting.claimed) {
            let other = pairs.get(&(nesting.claimed, nesting.held)).copied();
            push_sparing(&mut against, Against::Inverted(*nesting, other))?;
        }
    }
    Ok(against)
}

/// The rules that `evidence` suggests for `program`, without rules for what `known` covers.
pub fn guess_of<'j>(
    alloc: Global,
    program: &'j Program<'j>,
    evidence: &'j Evidence<'j>,
    known: KnownRules<'_>,
) -> Result<Guess, AllocError> {
    let families = families_of(alloc, program, evidence)?;
    let nestings = nestings_of(alloc, &families, evidence)?;
    let names = families.names(alloc)?;
    let order = order_of(alloc, names.as_slice(), nestings.all.as_slice())?;
    let mut ranked = rank_families(
        alloc,
        program,
        names.as_slice(),
        &families.claims,
        order.as_slice(),
        known,
    )?;
    let mut against = inversions_of(alloc, ranked.as_slice(), nestings.all.as_slice())?;
    for second in &nestings.seconds {
        push_sparing(&mut against, *second)?;
    }
    let globals = globals_of(alloc, program, evidence, known)?;
    let entries = entries_of(alloc, program, evidence, known)?;
    ranked.retain(|family| !family.is_known);
    Ok(Guess {
        families: ranked,
        nestings: nestings.all,
        against,
        covers: globals.covers,
        private: globals.private,
        readonly: globals.readonly,
        undecided: globals.undecided,
        suspects: globals.suspects,
        releases: Vec::from_slice(alloc, evidence.releases.as_slice())?,
        entries: entries.entries,
        free: entries.free,
        bare: entries.bare,
    })
}
