// Laws of all runs.

ghost use Rattle.mlk_machine_jobs.specs.Laws.{HeldApart, NumbersDistinct, OneRunOfMany, LeavingOut};
ghost use Rattle.mlk_machine_jobs.specs.Laws.{ChangesOne, RingsAreFound, EndedStays, SettlesBySteps};

/// In every run, no job holds a lock that conflicts with one that another job holds.
pub fn held_apart()
    ensures { HeldApart }
{}

/// In every run, no two jobs have the same number.
pub fn numbers_distinct()
    ensures { NumbersDistinct }
{}

/// In a run of many jobs, each job is the result of its own acts, from the entry at which it begins.
pub fn one_run_of_many()
    ensures { OneRunOfMany }
{}

/// A run without the events of one job is a run of the others.
pub fn leaving_out()
    ensures { LeavingOut }
{}

/// An event of one job changes no other job.
pub fn changes_one()
    ensures { ChangesOne }
{}

/// The test for rings finds one exactly if there is one.
pub fn rings_are_found()
    ensures { RingsAreFound }
{}

/// A job that has ended or was stopped takes no event.
pub fn ended_stays()
    ensures { EndedStays }
{}

/// A job that continues by itself makes steps without choices, up to a task that is not silent or up to the greatest number.
pub fn settles_by_steps()
    ensures { SettlesBySteps }
{}
