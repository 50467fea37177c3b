// Families of locks: their names, and how often they are claimed.

use indexmap::IndexMap;
use mlk_suggest::{ClaimAt, Evidence, Lock};
use mlk_suggest_steps::{LockName, LockRoot, Program, Symbol, Word};
use mlk_text::push_sparing;
use std::alloc::{AllocError, Global};

/// The maximum number of families of a rule file.
const MOST_FAMILIES: usize = 1024;

/// Whether `text` has only printable ASCII characters, so that it can be used in a rule unchanged.
pub fn is_plain(text: &[u8]) -> bool {
    text.iter().all(|byte| matches!(*byte, b' '..=b'~'))
}

/// The name of a family: a root, and a first subscript if the locks with that root are in several families.
#[derive(Clone, Copy, Drop, PartialEq, Eq, PartialOrd, Ord, Hash)]
pub struct FamilyName {
    pub root: LockRoot,
    pub constant: Option<Word>,
}

/// A family of locks, with its rank.
#[derive(Clone, Copy, Drop)]
pub struct FamilyGuess {
    pub name: FamilyName,
    pub rank: usize,
    /// the number of places that claim a lock of it
    pub claims: usize,
    /// whether the rank is that of the known rules
    pub is_known: bool,
}

// What is known of the locks with a given root.
#[derive(Clone, Copy, Drop)]
struct RootFacts {
    // whether all claimed ones have a constant as their first subscript
    are_constant: bool,
    // whether one is claimed while one with another first subscript is held
    are_nested: bool,
}

/// The families of the locks that are claimed.
#[derive(Drop)]
pub struct Families {
    roots: IndexMap<LockRoot, RootFacts>,
    /// the number of claims of each family, in the order of their first claims
    pub claims: IndexMap<FamilyName, usize>,
}

// The first subscript of a lock name, if it is a constant.
fn first_constant(name: &LockName) -> Option<Word> {
    match name.subscripts.first() {
        Some(Symbol::Constant(word)) => Some(*word),
        _ => None,
    }
}

// Whether a claim of a name is made while a lock of the same root with another first subscript is held.
fn is_nested(evidence: &Evidence<'_>, claim: &ClaimAt, name: &LockName) -> bool {
    let tables = &evidence.tables;
    claim.is_nested
        && claim.moments.iter().any(|moment| {
            tables
                .locks(moment.holding)
                .iter()
                .any(|lock| match tables.name(*lock) {
                    Some(held) => {
                        held.root == name.root && first_constant(held) != first_constant(name)
                    }
                    None => false,
                })
        })
}

impl Families {
    // Adds a claim of a name to the facts of its root.
    fn add_to_root(
        &mut self,
        evidence: &Evidence<'_>,
        program: &Program<'_>,
        claim: &ClaimAt,
        name: &LockName,
    ) -> Result<(), AllocError> {
        let is_constant = match first_constant(name) {
            Some(word) => is_plain(program.words.text(word)),
            None => false,
        };
        let before = self.roots.get(&name.root).copied().unwrap_or(RootFacts {
            are_constant: true,
            are_nested: false,
        });
        let facts = RootFacts {
            are_constant: before.are_constant && is_constant,
            are_nested: before.are_nested || is_nested(evidence, claim, name),
        };
        let Ok(_) = self.roots.insert(name.root, facts) else {
            return Err(AllocError);
        };
        Ok(())
    }

    /// The family of the lock name `name`.
    pub fn family(&self, name: &LockName) -> FamilyName {
        let constant = match self.roots.get(&name.root) {
            Some(facts) if facts.are_constant && facts.are_nested => first_constant(name),
            _ => None,
        };
        FamilyName {
            root: name.root,
            constant,
        }
    }

    /// The family of `lock`; `None` if it is not in the tables of `evidence`.
    pub fn family_of(&self, evidence: &Evidence<'_>, lock: Lock) -> Option<FamilyName> {
        let name = evidence.tables.name(lock)?;
        Some(self.family(name))
    }

    // Adds one to the claims of a family.
    fn count(&mut self, name: FamilyName) -> Result<(), AllocError> {
        let count = self.claims.get(&name).copied().unwrap_or(0);
        let Ok(_) = self.claims.insert(name, count.saturating_add(1)) else {
            return Err(AllocError);
        };
        Ok(())
    }

    /// The names of the families in the order of their first claims, at most as many as a rule file can have.
    pub fn names(&self, alloc: Global) -> Result<Vec<FamilyName>, AllocError> {
        let mut names = Vec::with_capacity(alloc, self.claims.len())?;
        for (name, _) in self.claims.iter().take(MOST_FAMILIES) {
            push_sparing(&mut names, *name)?;
        }
        Ok(names)
    }
}

/// The families of the locks that are claimed in `program`, given its `evidence`.
pub fn families_of(
    alloc: Global,
    program: &Program<'_>,
    evidence: &Evidence<'_>,
) -> Result<Families, AllocError> {
    let mut families = Families {
        roots: IndexMap::new(alloc),
        claims: IndexMap::new(alloc),
    };
    for claim in &evidence.claims {
        if let Some(name) = evidence.tables.name(claim.lock) {
            families.add_to_root(evidence, program, claim, name)?;
        }
    }
    for claim in &evidence.claims {
        if let Some(name) = families.family_of(evidence, claim.lock) {
            families.count(name)?;
        }
    }
    Ok(families)
}
