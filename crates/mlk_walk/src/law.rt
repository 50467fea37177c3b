// Laws of verdicts. Each function is a law, and does nothing.

ghost use Rattle.mlk_walk.specs.Laws.{FaultsInOrder};

/// Faults that were put in order ascend, so there are no duplicates, and they are the same faults.
pub fn faults_in_order()
    ensures { FaultsInOrder }
{}
