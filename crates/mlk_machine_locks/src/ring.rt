// Rings of waiting jobs, found by a search along the waits-for relation: each job is visited once, and only those jobs are tried
// that may hold a name for which it waits.

ghost use Rattle.std.specs.Prelude.{◌≡◌, ◌⊎◌, ◌<◌, ◌++◌, ◌∷◌, ◌&&◌, not, [], ℕ, suc, true, false, Some};
ghost use Rattle.std.specs.Prelude.{IfOk, OnOk, IfSome, IfNone, length, reverse, set, slice_get};
ghost use Rattle.mlk_names.specs.declared.lock_name.LockName.{LockName};
ghost use Rattle.mlk_machine_locks.specs.Rings.{has_ring};
ghost use Rattle.mlk_machine_locks.specs.Searches.{is_free, is_new, IsFree, FreeAt, AreFree, WaitsFreely};
ghost use Rattle.mlk_machine_locks.specs.Searches.{Waits, IsNext, IsStop, IsMet, Searching, work};
ghost use Rattle.mlk_machine_locks.specs.Tables.{CoversWaiting, IsFound, ListsAll};
ghost use Rattle.mlk_machine_locks.specs.Waiting.{Holds, awaited, waits_as};
ghost use Rattle.mlk_machine_locks.specs.declared.ring.Mark.TheVariants.{OnPath};

use crate::sharing::{Seen, waits_for};
use crate::table::LockTable;
use std::alloc::{AllocError, Global};

// The progress of the search at a job.
#[derive(Clone, Copy, Drop)]
enum Mark {
    // not visited yet
    New,
    // on the current path
    OnPath,
    // in no ring
    Free,
}

// A job on a path, by its index, and the indexes of the jobs to which the search may still have to follow it: the job waits for
// no other one that may be in a ring.
#[derive(Drop)]
struct Stop {
    place: usize,
    left: Vec<usize>,
}

// Whether `job` waits for `other`, which has the mark `mark` and may be in a ring.
#[tactic(auto, unfolding(crate::specs::Searches::is_free))]
fn follows<J: Seen>(job: &J, other: &J, mark: Mark) -> bool
    ensures { result ≡ (not (is_free mark) && waits_as J.seen job.now other.now) }
{
    match mark {
        Mark::New | Mark::OnPath => waits_for(job, other),
        Mark::Free => false,
    }
}

// Whether `job` waits for the job at `place`, and that one may be in a ring.
fn leads<J: Seen>(jobs: &[J], marks: &[Mark], job: &J, place: usize) -> bool
    requires all { length marks.now ≡ length jobs.now }
    requires free { AreFree (waits_as J.seen) jobs.now marks.now }
    ensures found { result ≡ true → IsNext (waits_as J.seen) jobs.now marks.now job.now place }
    ensures none { result ≡ false → WaitsFreely (waits_as J.seen) jobs.now job.now place }
{
    if place >= jobs.len() {
        return false;
    }
    follows(job, &jobs[place], marks[place])
}

// The last of `left` for which `job` waits and that may be in a ring, or `None`. It and those after it are removed.
fn next_of<J: Seen>(jobs: &[J], marks: &[Mark], job: &J, left: &mut Vec<usize>) -> Option<usize>
    requires all { length marks.now ≡ length jobs.now }
    requires free { AreFree (waits_as J.seen) jobs.now marks.now }
    requires left { Waits (waits_as J.seen) jobs.now job.now left.old.items }
    ensures left { Waits (waits_as J.seen) jobs.now job.now left.new.items }
    ensures found { IfSome result (λ i. IsNext (waits_as J.seen) jobs.now marks.now job.now i) }
    ensures none { IfNone result (IsFree (waits_as J.seen) jobs.now job.now) }
{
    while let Some(place) = left.pop() {
        if leads(jobs, marks, job, place) {
            left.push_reserved(place);
            return Some(place);
        }
    }
    None
}

// Whether a job with `mark` was not visited yet.
#[tactic(auto, unfolding(crate::specs::Searches::is_new))]
fn is_new(mark: Mark) -> bool
    ensures { result ≡ is_new mark }
{
    match mark {
        Mark::New => true,
        Mark::OnPath | Mark::Free => false,
    }
}

// A stop at the job at `place`, from which no other job was followed yet.
fn stop_at<J: Seen>(jobs: &[J], table: &LockTable, place: usize) -> Result<Stop, AllocError>
    requires within { place < length jobs.now }
    requires covers { CoversWaiting J.seen table.now jobs.now }
    ensures stop { IfOk result (λ s. IsStop (waits_as J.seen) jobs.now s) }
    ensures place { IfOk result (λ s. s.place ≡ place) }
{
    let left = table.possible_holders(jobs[place].awaited_names())?;
    Ok(Stop { place, left })
}

// Visits a job: puts it on the path.
fn visit_job(marks: &mut Vec<Mark>, path: &mut Vec<Stop>, stop: Stop) -> Result<(), AllocError>
    requires { stop.place < length marks.old.items }
    ensures path { OnOk result (path.new.items ≡ path.old.items ++ stop ∷ []) }
    ensures marks { OnOk result (marks.new.items ≡ set marks.old.items stop.place OnPath) }
{
    let place = stop.place;
    path.push(stop)?;
    marks[place] = Mark::OnPath;
    Ok(())
}

// Takes one step from the last stop of a path, and returns whether that job waits for one on the path, so that there is a ring.
fn take_step<J: Seen>(
    jobs: &[J],
    table: &LockTable,
    marks: &mut Vec<Mark>,
    path: &mut Vec<Stop>,
    stop: Stop,
) -> Result<bool, AllocError>
    requires covers { CoversWaiting J.seen table.now jobs.now }
    requires goes { Searching (waits_as J.seen) jobs.now marks.old.items (stop ∷ reverse path.old.items) }
    ensures ring { IfOk result (λ found. found ≡ true → has_ring (waits_as J.seen) jobs.now ≡ true) }
    ensures goes { IfOk result (λ found. found ≡ false
        → Searching (waits_as J.seen) jobs.now marks.new.items (reverse path.new.items)) }
    ensures met { IfOk result (λ found. found ≡ false → (i : ℕ)
        → IsMet (waits_as J.seen) jobs.now (stop ∷ reverse path.old.items) i
        → IsMet (waits_as J.seen) jobs.now (reverse path.new.items) i) }
    ensures less { IfOk result (λ found. found ≡ false
        → work marks.new.items path.new.items < suc (work marks.old.items path.old.items)) }
{
    let Stop { place, mut left } = stop;
    match next_of(jobs, marks.as_slice(), &jobs[place], &mut left) {
        None => {
            marks[place] = Mark::Free;
            Ok(false)
        }
        Some(next) => {
            if !is_new(marks[next]) {
                return Ok(true);
            }
            let last = stop_at(jobs, table, next)?;
            path.push(Stop { place, left })?;
            visit_job(marks, path, last)?;
            Ok(false)
        }
    }
}

// Follows the jobs for which a job waits, and those for which these wait, and returns whether there is a ring. If there is none,
// the job is in none.
fn search<J: Seen>(
    alloc: Global,
    jobs: &[J],
    table: &LockTable,
    marks: &mut Vec<Mark>,
    start: usize,
) -> Result<bool, AllocError>
    requires covers { CoversWaiting J.seen table.now jobs.now }
    requires within { start < length jobs.now }
    requires begins { Searching (waits_as J.seen) jobs.now marks.old.items [] }
    ensures ring { IfOk result (λ found. found ≡ true → has_ring (waits_as J.seen) jobs.now ≡ true) }
    ensures goes { IfOk result (λ found. found ≡ false → Searching (waits_as J.seen) jobs.now marks.new.items []) }
    ensures free { IfOk result (λ found. found ≡ false → FreeAt (waits_as J.seen) jobs.now start) }
{
    if !is_new(marks[start]) {
        return Ok(false);
    }
    let mut path = Vec::new(alloc);
    let first = stop_at(jobs, table, start)?;
    visit_job(marks, &mut path, first)?;
    while let Some(stop) = path.pop() {
        if take_step(jobs, table, marks, &mut path, stop)? {
            return Ok(true);
        }
    }
    Ok(false)
}

// Lists what a job holds in a table if the job waits; other jobs are in no ring.
fn list_waiting<J: Seen>(table: &mut LockTable, place: usize, job: &J) -> Result<(), AllocError>
    ensures found { OnOk result ((0 ≡ length (awaited (J.seen job.now).next))
        ⊎ ((n : LockName) → Holds (J.seen job.now) n → IsFound table.new place n)) }
    ensures kept { ListsAll table.old table.new }
{
    if job.awaited_names().is_empty() {
        return Ok(());
    }
    table.list_held(place, job.held().entries())
}

// A table of the waiting jobs.
fn table_of<J: Seen>(alloc: Global, jobs: &[J]) -> Result<LockTable, AllocError>
    ensures { IfOk result (λ table. CoversWaiting J.seen table jobs.now) }
{
    let mut table = LockTable::new(alloc);
    let mut place = 0;
    while place < jobs.len() {
        list_waiting(&mut table, place, &jobs[place])?;
        place += 1;
    }
    Ok(table)
}

/// Whether some of the jobs wait in a ring, each for one of them.
pub fn has_ring<J: Seen>(alloc: Global, jobs: &[J]) -> Result<bool, AllocError>
    ensures { IfOk result (λ found. found ≡ has_ring (waits_as J.seen) jobs.now) }
{
    let table = table_of(alloc, jobs)?;
    let mut marks = vec![in alloc; Mark::New; jobs.len()]?;
    let mut start = 0;
    while start < jobs.len() {
        if search(alloc, jobs, &table, &mut marks, start)? {
            return Ok(true);
        }
        start += 1;
    }
    Ok(false)
}
