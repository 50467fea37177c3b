// The families that are claimed while others are held.

use crate::family::{Families, FamilyName};
use indexmap::IndexMap;
use mlk_suggest::{ClaimAt, Evidence, Holding, Lock, Spot, is_above};
use mlk_suggest_steps::LockName;
use mlk_text::push_sparing;
use std::alloc::{AllocError, Global};

/// Claims of locks of one family while a lock of another is held.
#[derive(Clone, Copy, Drop)]
pub struct Nesting {
    pub held: FamilyName,
    pub claimed: FamilyName,
    /// the number of places with such a claim
    pub places: usize,
    /// the number of those without a timeout
    pub untimed: usize,
    /// the first of the places
    pub first: Spot,
    /// the last of the places
    pub last: Spot,
}

impl Nesting {
    // Adds a place, unless it is the last one that was added.
    fn count(&mut self, spot: &Spot, untimed: usize) {
        if self.last != *spot {
            self.places = self.places.saturating_add(1);
            self.untimed = self.untimed.saturating_add(untimed);
            self.last = *spot;
        }
    }
}

/// Claims against the order of the ranks.
#[derive(Clone, Copy, Drop)]
pub enum Against {
    /// claims of a lock of a lower rank while one of a higher rank is held, and those in the other direction, if there are any
    Inverted(Nesting, Option<Nesting>),
    /// a claim without a timeout while another lock of the same family is held
    Second {
        family: FamilyName,
        spot: Spot,
        held: Lock,
        claimed: Lock,
    },
}

// Two families, the first of which is held when the second is claimed.
#[derive(Clone, Copy, Drop, PartialEq, Eq, Hash)]
struct Pair {
    held: FamilyName,
    claimed: FamilyName,
}

/// All nestings of claims, in the order of their first places, and claims of a second lock of one family.
#[derive(Drop)]
pub struct Nestings {
    // the index of a pair's nesting in `all`
    places: IndexMap<Pair, usize>,
    pub all: Vec<Nesting>,
    pub seconds: Vec<Against>,
}

// Whether a claimed lock is held already, or is below a held one: its claim then waits for no other job.
fn is_below(held: &LockName, claimed: &LockName) -> bool {
    is_above(held, claimed.root, claimed.subscripts.as_slice())
}

impl Nestings {
    // Adds a place at which a family is claimed while another is held.
    fn add(&mut self, pair: Pair, claim: &ClaimAt) -> Result<(), AllocError> {
        let untimed = usize::from(!claim.is_timed);
        if let Some(place) = self.places.get(&pair) {
            if let Some(nesting) = self.all.get_mut(*place) {
                nesting.count(&claim.spot, untimed);
            }
            return Ok(());
        }
        let Ok(_) = self.places.insert(pair, self.all.len()) else {
            return Err(AllocError);
        };
        let nesting = Nesting {
            held: pair.held,
            claimed: pair.claimed,
            places: 1,
            untimed,
            first: claim.spot,
            last: claim.spot,
        };
        push_sparing(&mut self.all, nesting)
    }

    // Adds a claim if a second lock of its family is held in `holding`. Returns whether one is.
    fn add_second(
        &mut self,
        families: &Families,
        evidence: &Evidence<'_>,
        claim: &ClaimAt,
        holding: Holding,
        name: &LockName,
    ) -> Result<bool, AllocError> {
        let family = families.family(name);
        for lock in evidence.tables.locks(holding) {
            let Some(held) = evidence.tables.name(*lock) else {
                continue;
            };
            if families.family(held) == family && !is_below(held, name) {
                let second = Against::Second {
                    family,
                    spot: claim.spot,
                    held: *lock,
                    claimed: claim.lock,
                };
                push_sparing(&mut self.seconds, second)?;
                return Ok(true);
            }
        }
        Ok(false)
    }

    // Adds a claim without a timeout if a second lock of its family is held in one of the ways that lead to it.
    fn add_seconds(
        &mut self,
        families: &Families,
        evidence: &Evidence<'_>,
        claim: &ClaimAt,
        name: &LockName,
    ) -> Result<(), AllocError> {
        if claim.is_timed {
            return Ok(());
        }
        for moment in &claim.moments {
            if self.add_second(families, evidence, claim, moment.holding, name)? {
                return Ok(());
            }
        }
        Ok(())
    }

    // Adds a claim.
    fn add_claim(
        &mut self,
        alloc: Global,
        families: &Families,
        evidence: &Evidence<'_>,
        claim: &ClaimAt,
    ) -> Result<(), AllocError> {
        let Some(name) = evidence.tables.name(claim.lock) else {
            return Ok(());
        };
        let claimed = families.family(name);
        for held in held_families(alloc, families, evidence, claim)? {
            if held != claimed {
                self.add(Pair { held, claimed }, claim)?;
            }
        }
        self.add_seconds(families, evidence, claim, name)
    }
}

// Adds a family, unless it is there already.
fn add_family(families: &mut Vec<FamilyName>, family: FamilyName) -> Result<(), AllocError> {
    if families.contains(&family) {
        return Ok(());
    }
    push_sparing(families, family)
}

// The families that have a lock held at a claim, each once.
fn held_families(
    alloc: Global,
    families: &Families,
    evidence: &Evidence<'_>,
    claim: &ClaimAt,
) -> Result<Vec<FamilyName>, AllocError> {
    let mut found = Vec::new(alloc);
    for moment in &claim.moments {
        for lock in evidence.tables.locks(moment.holding) {
            if let Some(family) = families.family_of(evidence, *lock) {
                add_family(&mut found, family)?;
            }
        }
    }
    Ok(found)
}

/// The nestings of the claims of `evidence`, whose families are `families`.
pub fn nestings_of(
    alloc: Global,
    families: &Families,
    evidence: &Evidence<'_>,
) -> Result<Nestings, AllocError> {
    let mut nestings = Nestings {
        places: IndexMap::new(alloc),
        all: Vec::new(alloc),
        seconds: Vec::new(alloc),
    };
    for claim in &evidence.claims {
        if claim.is_nested {
            nestings.add_claim(alloc, families, evidence, claim)?;
        }
    }
    Ok(nestings)
}
