// Reports without faults.

ghost use Rattle.mlk_soundness_walk.specs.Clean.{CleanEntries};
ghost use Rattle.mlk_soundness_walk.specs.Laws.{EntriesByCommands};
ghost use Rattle.mlk_soundness_walk.specs.Theorem.{OneJob};

/// If a report has no row, no certified entry has a fault: neither in its begin, its needs or its exits, nor in a walk of its
/// lines from the cases that are listed for them.
pub fn clean_entries()
    ensures { CleanEntries }
{}

/// If a report has no row, each certified entry is safe for any number of steps from its begin to its exits, provided that the
/// walk of single commands is right: if for each number of steps, commands are safe whenever all entries are safe for each
/// smaller number.
pub fn entries_by_commands()
    ensures { EntriesByCommands }
{}

/// If a report has no row, the following holds for each job that begins at a declared entry, at each moment of each run of its
/// own, if each claim may be granted at any time. The reference that it touches next is covered by the locks that it holds, its
/// next claim is in order, and it ends without a lock. When one of its frames begins, when it continues at a line, and when a
/// round of a FOR begins, a case describes it that the certificate lists for the entry at which the running frame began: `$TEST`
/// and the saved tests, the own names, the kept names with the values that they had when the frame began, and how often it holds
/// each name, over all open frames. The line is one of that entry's, or of a block below them, and the FOR is on it. Before each
/// command of such a line, the job is described by a case that the walk derives there from one that is listed for the line's
/// start, or for the round.
pub fn one_job()
    ensures { OneJob }
{}
