// The result of a line's end.

ghost use Rattle.std.specs.Prelude.{◌≡◌, [], OnOk};
ghost use Rattle.mlk_walk_lines.specs.Endings.{Faulty, Leaves, add_ending};

use mlk_cert_parts::Case;
use mlk_text::{Code, Column, LineNumber, List};
use mlk_walk_exprs::{Fault, Faults, Note};
use std::alloc::{AllocError, Global};

/// The faults of a line, and the cases in which its block may end there.
#[derive(Drop)]
pub(crate) struct Ends {
    pub(crate) faults: Faults,
    pub(crate) cases: List<Case>,
}

impl Ends {
    /// The result with `faults` and without cases.
    pub(crate) fn new(alloc: Global, faults: Faults) -> Ends
        ensures faults { result.faults ≡ faults }
        ensures cases { result.cases ≡ [] }
    {
        Ends {
            faults,
            cases: List::new(alloc),
        }
    }

    /// Adds the fault of a case that is refused.
    pub(crate) fn refuse(
        &mut self,
        line: LineNumber,
        column: Column,
        code: Code,
        note: Note,
    ) -> Result<(), AllocError>
        ensures { OnOk result (self.new ≡ add_ending self.old (Faulty line column code)) }
    {
        self.faults.push(Fault { line, column, code }, note)
    }

    /// Adds a case in which the block may end.
    pub(crate) fn leave(&mut self, case: Case) -> Result<(), AllocError>
        ensures { OnOk result (self.new ≡ add_ending self.old (Leaves case)) }
    {
        self.cases.push(case)
    }
}
