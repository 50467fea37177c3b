// Laws of the tests for clashes.

ghost use Rattle.mlk_machine_view.specs.Clashes.{ClashIsTested};
ghost use Rattle.mlk_machine_view.specs.Regions.{OverlapIsTested};

/// The test of regions decides whether both reach a common node.
#[tactic(auto, using(crate::proofs::OverlapLemmas::overlap_is_tested))]
pub fn overlap_is_tested()
    ensures { OverlapIsTested }
{}

/// The test of jobs decides whether they clash.
#[tactic(auto, using(crate::proofs::ClashLemmas::clash_is_tested))]
pub fn clash_is_tested()
    ensures { ClashIsTested }
{}
