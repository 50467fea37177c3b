// The verdict of an entry.

ghost use Rattle.std.specs.Prelude.{◌≡◌, [], OnOk, map};
ghost use Rattle.std.specs.BTreeMap.{keys};
ghost use Rattle.mlk_walk.specs.Faults.{put_fault, put_faults};
ghost use Rattle.mlk_walk.specs.Verdicts.{fault_in};

use mlk_walk_exprs::{Fault, Faults, Found, Note};
use mlk_walk_lines::LineFault;
use std::alloc::{AllocError, Global};
use std::collections::BTreeMap;
use std::collections::btree_map::Keys;
use std::marker::Model;

/// The faults of an entry, each once, ascending by line, column and number, each with a note: if several cases have the same
/// fault, with the note of the first. A contract sees the faults.
#[derive(Drop)]
pub struct Verdict {
    notes: BTreeMap<Fault, Note>,
}

impl Model for Verdict {
    ghost use Rattle.std.specs.Prelude.{List};
    ghost use Rattle.std.specs.BTreeMap.{keys};
    ghost use Rattle.mlk_walk_exprs.specs.declared.walk.Fault.{Fault};
    ghost use Rattle.mlk_walk.specs.Laws.{IsAscending};

    ghost Value = { List Fault };

    ghost view = { λ v. keys v.notes };

    ghost invariant = { λ v. IsAscending (keys v.notes) };
}

impl Verdict {
    /// No faults.
    pub(crate) fn new(alloc: Global) -> Verdict
        ensures { result ≡ [] }
    {
        Verdict {
            notes: BTreeMap::new(alloc),
        }
    }

    /// Adds a fault. Its note replaces an older one.
    #[tactic(auto, using(crate::proofs::Ordered::put_ascends))]
    pub(crate) fn put(&mut self, fault: Fault, note: Note) -> Result<(), AllocError>
        ensures { OnOk result (self.new ≡ put_fault fault self.old) }
    {
        self.notes.insert(fault, note)?;
        Ok(())
    }

    /// Adds the faults of an entry's line.
    #[tactic(auto, using(crate::proofs::Ascending::put_last_of))]
    pub(crate) fn put_own(&mut self, faults: Faults) -> Result<(), AllocError>
        ensures { OnOk result (self.new ≡ put_faults faults self.old) }
    {
        let mut left = faults.into_vec();
        while let Some(Found { fault, note }) = left.pop() {
            self.put(fault, note)?;
        }
        Ok(())
    }

    /// Adds the faults that the walks of lines found.
    #[tactic(auto, using(crate::proofs::Ascending::put_last_of))]
    pub(crate) fn put_found(&mut self, faults: Vec<(LineFault, Note)>) -> Result<(), AllocError>
        ensures { OnOk result (self.new ≡ put_faults (map fault_in (map (λ f. f.0) faults.items)) self.old) }
    {
        let mut left = faults;
        while let Some((found, note)) = left.pop() {
            self.put(found.fault, note)?;
        }
        Ok(())
    }

    /// The faults, in order.
    pub fn iter(&self) -> Keys<'_, Fault, Note>
        ensures { result ≡ self.now }
    {
        self.notes.keys()
    }

    /// The faults with their notes, in order.
    pub fn into_notes(self) -> BTreeMap<Fault, Note>
        ensures { keys result ≡ self }
    {
        self.notes
    }
}
