// Jobs that are described by cases.

ghost use Rattle.mlk_soundness_machine.specs.Laws.{ChangedIsDescribed, DescribedIsCovered, DescribedIsInOrder, SafeAtEachMoment};

/// If a case describes a job and its terms cover the reference that the job touches next, then the names that the job holds cover
/// the touched nodes.
pub fn described_is_covered()
    ensures { DescribedIsCovered }
{}

/// If a case describes a job and the walk finds no fault in the job's next claim, then the claim is in order: each name is at or
/// below one that the job holds, or its rank is above those of all names that the job holds, over all open frames.
pub fn described_is_in_order()
    ensures { DescribedIsInOrder }
{}

/// If the walk allows a change of names, then after the change the changed state describes the changed job, whatever values the
/// names have then; waiting frames keep everything that they depend on.
pub fn changed_is_described()
    ensures { ChangedIsDescribed }
{}

/// If each job that begins is safe for each number of steps, then at each moment of each run of its own, the reference that it
/// touches next is covered, its next claim is in order, and it ends without a lock; and a listed case describes it when one of
/// its frames begins, when it continues at a line, and when a round of a FOR begins.
pub fn safe_at_each_moment()
    ensures { SafeAtEachMoment }
{}
