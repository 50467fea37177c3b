// The globals that are used.

use indexmap::IndexMap;
use mlk_survey_trees::{Mention, MentionAt, Usage};
use std::alloc::{AllocError, Global};

/// How often a global is read, written and killed in the texts.
#[derive(Clone, Copy, Drop)]
pub struct Uses {
    pub reads: usize,
    pub writes: usize,
    pub kills: usize,
}

impl Uses {
    fn none() -> Uses {
        Uses {
            reads: 0,
            writes: 0,
            kills: 0,
        }
    }

    // Counts one more use.
    fn add(&mut self, usage: Usage) {
        match usage {
            Usage::Read => self.reads = self.reads.saturating_add(1),
            Usage::Write => self.writes = self.writes.saturating_add(1),
            Usage::Kill => self.kills = self.kills.saturating_add(1),
        }
    }
}

/// A global, by its name without the caret, and its uses.
#[derive(Clone, Copy, Drop)]
pub struct GlobalUse<'a> {
    pub name: &'a [u8],
    pub uses: Uses,
}

// The globals that were found.
#[derive(Drop)]
struct Globals<'a> {
    uses: IndexMap<&'a [u8], Uses>,
}

impl<'a> Globals<'a> {
    fn new(alloc: Global) -> Globals<'a> {
        Globals {
            uses: IndexMap::new(alloc),
        }
    }

    // Counts one more use of a global.
    fn add(&mut self, name: &'a [u8], usage: Usage) -> Result<(), AllocError> {
        let mut uses = self.uses.get(name).copied().unwrap_or(Uses::none());
        uses.add(usage);
        let Ok(_) = self.uses.insert(name, uses) else {
            return Err(AllocError);
        };
        Ok(())
    }

    // The globals, by name.
    fn in_order(&self, alloc: Global) -> Result<Vec<GlobalUse<'a>>, AllocError> {
        let mut globals = Vec::with_capacity(alloc, self.uses.len())?;
        for (name, uses) in &self.uses {
            let Ok(()) = globals.push(GlobalUse {
                name: *name,
                uses: *uses,
            }) else {
                return Err(AllocError);
            };
        }
        globals.sort_by(|global, other| global.name.cmp(other.name))?;
        Ok(globals)
    }
}

/// The globals that `mentions` use, by name.
pub(crate) fn globals_in<'a>(
    alloc: Global,
    mentions: &[MentionAt<'a>],
) -> Result<Vec<GlobalUse<'a>>, AllocError> {
    let mut globals = Globals::new(alloc);
    for at in mentions.iter().copied() {
        if let Mention::Touch(touch) = at.mention {
            globals.add(touch.global.as_bytes(), touch.usage)?;
        }
    }
    globals.in_order(alloc)
}
