// The faults of lines.

ghost use Rattle.std.specs.Prelude.{◌≡◌, [], ◌∷◌, ◌++◌, OnOk, map};
ghost use Rattle.mlk_walk_lines.specs.Lines.{found_in};

use mlk_text::LineNumber;
use mlk_walk_exprs::{Fault, Faults, Note};
use std::alloc::{AllocError, Global};
use std::marker::Model;

/// A fault, and the number of the line whose walk found it, counted from 1.
#[derive(Drop)]
pub struct LineFault {
    pub walked: LineNumber,
    pub fault: Fault,
}

/// Faults of lines with their notes, in the order in which they were found. A contract sees the faults.
#[derive(Drop)]
pub struct LineFaults {
    items: Vec<(LineFault, Note)>,
}

impl Model for LineFaults {
    ghost use Rattle.std.specs.Prelude.{List as Elements, map};
    ghost use Rattle.mlk_walk_lines.specs.declared.found.LineFault.{LineFault};

    ghost Value = { Elements LineFault };

    ghost view = { λ l. map (λ f. f.0) l.items.items };
}

impl LineFaults {
    /// No faults.
    pub fn new(alloc: Global) -> LineFaults
        ensures { result ≡ [] }
    {
        LineFaults {
            items: Vec::new(alloc),
        }
    }

    fn push(&mut self, fault: LineFault, note: Note) -> Result<(), AllocError>
        ensures { OnOk result (self.new ≡ self.old ++ fault ∷ []) }
    {
        self.items.push((fault, note))?;
        Ok(())
    }

    /// Adds the faults that the walk of the line `walked` found.
    pub(crate) fn add(&mut self, walked: LineNumber, faults: Faults) -> Result<(), AllocError>
        ensures { OnOk result (self.new ≡ self.old ++ map (found_in walked) faults) }
    {
        for found in faults.into_vec() {
            let fault = LineFault {
                walked,
                fault: found.fault,
            };
            self.push(fault, found.note)?;
        }
        Ok(())
    }

    /// The faults with their notes.
    pub fn into_vec(self) -> Vec<(LineFault, Note)>
        ensures { map (λ f. f.0) result.items ≡ self }
    {
        self.items
    }
}
