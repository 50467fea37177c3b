// When a job can continue, and when it can't.

ghost use Rattle.mlk_machine_progress.specs.Laws.{ValuesSuffice, UsesNoMore, JobsContinue, ClaimsAreGranted};

/// At each moment of each run of a single job, the values that were computed and not used are exactly as many as its tasks need:
/// no step finds fewer than it uses, and none is left over.
pub fn values_suffice()
    ensures { ValuesSuffice }
{}

/// A step uses as many of the last values as its task needs, and leaves those below them as they are.
pub fn uses_no_more()
    ensures { UsesNoMore }
{}

/// At each moment of each run of its own, a job of a program has a next step for some choice, unless it has ended, fetches a
/// local without a value, has found no true condition in `$SELECT`, waits for a lock, or would continue into a line with formals.
pub fn jobs_continue()
    ensures { JobsContinue }
{}

/// A claim is granted exactly if all its names are free and no count exceeds the maximum, and one with a timeout may always
/// fail.
pub fn claims_are_granted()
    ensures { ClaimsAreGranted }
{}
