// Laws of replays.

ghost use Rattle.mlk_machine.specs.Laws.{LinesAreEvents, ReplaysAreRuns};

/// Each line of a file denotes events, and the lines have the same effect on jobs as these events: `run` denotes the steps
/// without a choice that its job makes.
pub fn lines_are_events()
    ensures { LinesAreEvents }
{}

/// The result of events, or of all lines of a file of them, is a moment of a run of the program whose jobs begin at these
/// entries.
pub fn replays_are_runs()
    ensures { ReplaysAreRuns }
{}
