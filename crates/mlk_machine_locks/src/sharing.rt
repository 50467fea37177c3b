// What jobs share: which names are free, and which job waits for which.

ghost use Rattle.std.specs.Prelude.{◌≡◌, ◌==◌, ◌&&◌, ◌<◌, not, IfSome, length, position};
ghost use Rattle.std.specs.List.{list_any, list_all};
ghost use Rattle.mlk_machine_locks.specs.Counts.{excludes};
ghost use Rattle.mlk_machine_locks.specs.Waiting.{is_free_among, is_numbered, waits};

use crate::held::Held;
use mlk_names::LockName;

/// A job, as far as it is visible to other jobs.
pub trait Seen {
    ghost use Rattle.std.specs.Prelude.{◌≡◌};
    ghost use Rattle.mlk_machine_locks.specs.Waiting.{View, awaited};

    /// Its number, the locks that it holds, and the claim that is its next task, if it is one.
    ghost seen: { Self → View };

    fn number(&self) -> u32
        ensures { result ≡ (seen self.now).number };

    fn held(&self) -> &Held
        ensures { result.now ≡ (seen self.now).held };

    /// The names for which the job may have to wait.
    fn awaited_names(&self) -> &[LockName]
        ensures { result.now ≡ awaited (seen self.now).next };
}

// Whether one of `names` is kept from other jobs.
fn some_excluded(held: &Held, names: &[LockName]) -> bool
    ensures { result ≡ list_any (excludes held.now) names.now }
{
    let mut left = names;
    while let Some((name, others)) = left.split_first() {
        if held.excludes(name) {
            return true;
        }
        left = others;
    }
    false
}

/// Whether `job` waits for `other`. Allocates nothing.
pub fn waits_for<J: Seen>(job: &J, other: &J) -> bool
    ensures { result ≡ waits (J.seen job.now) (J.seen other.now) }
{
    job.number() != other.number() && some_excluded(other.held(), job.awaited_names())
}

/// Whether `job` has another number than `number` and keeps `name` from others.
pub(crate) fn keeps<J: Seen>(job: &J, number: u32, name: &LockName) -> bool
    ensures { result ≡ (not ((J.seen job.now).number == number) && excludes (J.seen job.now).held name.now) }
{
    job.number() != number && job.held().excludes(name)
}

// Whether some job other than `number` keeps `name` from others.
fn some_keeps<J: Seen>(jobs: &[J], number: u32, name: &LockName) -> bool
    ensures { result ≡ list_any (λ j. not ((J.seen j).number == number) && excludes (J.seen j).held name.now) jobs.now }
{
    let mut left = jobs;
    while let Some((job, others)) = left.split_first() {
        if keeps(job, number, name) {
            return true;
        }
        left = others;
    }
    false
}

/// Whether no job other than `number` holds a name that conflicts with `name`. Allocates nothing.
pub fn is_free<J: Seen>(jobs: &[J], number: u32, name: &LockName) -> bool
    ensures { result ≡ is_free_among J.seen jobs.now number name.now }
{
    !some_keeps(jobs, number, name)
}

/// Whether each of `names` is free for the job `number`. Allocates nothing.
pub fn are_free<J: Seen>(jobs: &[J], number: u32, names: &[LockName]) -> bool
    ensures { result ≡ list_all (is_free_among J.seen jobs.now number) names.now }
{
    names.iter().all(|name| is_free(jobs, number, name))
}

/// Whether some job has the number `number`. Allocates nothing.
pub fn is_numbered<J: Seen>(jobs: &[J], number: u32) -> bool
    ensures { result ≡ is_numbered J.seen jobs.now number }
{
    jobs.iter().any(|job| job.number() == number)
}

/// The index of the first job with the number `number`, or `None`. Allocates nothing.
pub fn place_of<J: Seen>(jobs: &[J], number: u32) -> Option<usize>
    ensures place { result ≡ position (λ j. (J.seen j).number == number) jobs.now }
    ensures within { IfSome result (λ i. i < length jobs.now) }
{
    jobs.iter().position(|job| job.number() == number)
}
