// Laws of jobs that share locks.

ghost use Rattle.mlk_machine_locks.specs.Waiting.{View};
ghost use Rattle.mlk_machine_locks.specs.Laws.{NamesTested, ClaimAddsOne, ReleaseTakesOne, ExcludesHeld, WaitingIsTested, RingsAreFound};

/// The tests of names by which locks are granted decide the relations "above" and "conflicts".
pub fn names_tested()
    ensures { NamesTested }
{}

/// A claim adds one to the count of its name, and changes no other.
pub fn claim_adds_one()
    ensures { ClaimAddsOne }
{}

/// A release subtracts one from the count of its name if it is held, and changes no other.
pub fn release_takes_one()
    ensures { ReleaseTakesOne }
{}

/// A name is kept from other jobs exactly if a held name conflicts with it.
pub fn excludes_held()
    ensures { ExcludesHeld }
{}

/// One job waits for another exactly if the test says so.
pub fn waiting_is_tested()
    ensures { WaitingIsTested }
{}

/// The test finds a ring exactly if there is one.
pub fn rings_are_found()
    ensures { RingsAreFound (λ (j : View). j) }
{}
