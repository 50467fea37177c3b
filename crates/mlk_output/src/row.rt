// A row of a report, as it is written for other programs.

use mlk_program::EntryId;
use mlk_report_text::Piece::{Bytes, Words};
use mlk_report_text::text_of;
use mlk_syntax::Routine;
use std::alloc::{AllocError, Global};
use std::collections::BTreeMap;

/// What a report is about: the routines of a program, the path and the text of the file of each, in their order, and the rule file.
#[derive(Clone, Copy, Drop)]
pub struct ReportSources<'a> {
    pub routines: &'a [Routine],
    pub paths: &'a [&'a str],
    /// the path of the rule file
    pub rules_path: &'a str,
    pub rule_text: &'a [u8],
    /// SARIF counts columns in characters of them; other forms need none
    pub texts: &'a [Vec<u8>],
    /// the patterns of the covers that free reads, as the rule file has them
    pub free_reads: &'a [Vec<u8>],
}

/// The numbers of routines, by their names.
#[derive(Drop)]
pub(crate) struct RoutineNumbers {
    numbers: BTreeMap<Vec<u8>, usize>,
}

impl RoutineNumbers {
    /// Numbers `routines` in their order.
    pub(crate) fn of(alloc: Global, routines: &[Routine]) -> Result<RoutineNumbers, AllocError> {
        let mut numbers = BTreeMap::new(alloc);
        for (number, routine) in routines.iter().enumerate() {
            let name = Vec::from_slice(alloc, routine.name.as_bytes())?;
            numbers.insert(name, number)?;
        }
        Ok(RoutineNumbers { numbers })
    }

    /// The number of the routine of this name, or one that no routine has.
    pub(crate) fn number(&self, name: &Vec<u8>) -> usize {
        self.numbers.get(name).copied().unwrap_or(usize::MAX)
    }
}

impl<'a> ReportSources<'a> {
    /// The path of the file of the routine of this number; empty if there is no such routine.
    pub(crate) fn path_at(&self, number: usize) -> &'a str {
        match self.paths.get(number) {
            Some(path) => path,
            None => "",
        }
    }

    /// The path of the file that an entry is in.
    pub fn path(&self, entry: EntryId) -> &'a str {
        self.path_at(entry.routine())
    }

    /// The name of the routine that an entry is in.
    pub(crate) fn routine(&self, entry: EntryId) -> &'a [u8] {
        match self.routines.get(entry.routine()) {
            Some(routine) => routine.name.as_bytes(),
            None => b"",
        }
    }

    // The label of an entry, which has none where it is a routine's first line.
    fn label(&self, entry: EntryId) -> &'a [u8] {
        let Some(routine) = self.routines.get(entry.routine()) else {
            return b"";
        };
        match routine.lines.as_slice().get(entry.line()) {
            Some(line) => match line.label.as_ref() {
                Some(label) => label.as_bytes(),
                None => b"",
            },
            None => b"",
        }
    }

    /// `LABEL^ROUTINE`.
    pub(crate) fn entry(&self, alloc: Global, entry: EntryId) -> Result<Vec<u8>, AllocError> {
        let routine = Bytes(self.routine(entry));
        text_of(alloc, &[Bytes(self.label(entry)), Words("^"), routine])
    }
}
