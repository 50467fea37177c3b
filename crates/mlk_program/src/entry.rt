// Entries of a program.

ghost use Rattle.std.specs.Prelude.{◌≡◌};

/// An entry of a program: a line of a routine at which a job or a call may begin. Entries are ordered by their routines,
/// then by their lines.
#[derive(Clone, Copy, Debug, Drop, PartialEq, Eq, PartialOrd, Ord, Hash)]
pub struct EntryId {
    /// the index of the routine, from 0
    pub(crate) routine: usize,
    /// the index of the line among the routine's lines of level 1, from 0
    pub(crate) line: usize,
}

impl EntryId {
    /// Line `line` of routine `routine`, both counted from 0, the line among those of level 1. The program may not have it, or
    /// it may not be an entry there.
    pub fn new(routine: usize, line: usize) -> EntryId
        ensures { result ≡ record { routine = routine; line = line } }
    {
        EntryId { routine, line }
    }

    /// The index of the routine in the program, from 0.
    pub fn routine(self) -> usize
        ensures { result ≡ self.routine }
    {
        self.routine
    }

    /// The index of the line among the routine's lines of level 1, from 0.
    pub fn line(self) -> usize
        ensures { result ≡ self.line }
    {
        self.line
    }
}
