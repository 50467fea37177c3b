// Whether a write is stale.

ghost use Rattle.std.specs.Prelude.{◌≡◌, ◌≢◌, ◌↔◌, [], IsTrue};
ghost use Rattle.std.specs.Bool.{Decides};
ghost use Rattle.std.specs.List.{All};
ghost use Rattle.mlk_names.specs.declared.symbol.Sym.TheVariants.{Unknown};
ghost use Rattle.mlk_names.specs.References.{MayOverlap};
ghost use Rattle.mlk_rules.specs.Coverage.{IsCovered};
ghost use Rattle.mlk_stale.specs.Stale.{ReadsWritten, IsProtected, IsStale};

use crate::stale::{Gap, StaleWrite};
use mlk_names::{Access, Extent, LockTerm, Reference, Sym, may_overlap};
use mlk_rules::{Rules, check_reference};

// Whether `items` and `others` are equal, element by element.
fn are_equal<T: PartialEq>(items: &[T], others: &[T]) -> bool
    requires { (x y : T) → Decides (T.eq x y) (x ≡ y) }
    ensures { IsTrue result ↔ (items.now ≡ others.now) }
{
    items == others
}

// Whether no symbol of `subs` is unknown.
fn are_known(subs: &[Sym]) -> bool
    ensures { IsTrue result ↔ All (λ s. s ≢ Unknown) subs.now }
{
    subs.iter().all(|sub| !matches!(sub, Sym::Unknown))
}

/// Whether `read` reads the node that `written` writes.
pub(crate) fn reads_written(read: &Reference, written: &Reference) -> bool
    ensures { IsTrue result ↔ ReadsWritten read.now written.now }
{
    matches!(read.access, Access::Reads)
        && matches!(written.access, Access::Writes)
        && matches!(read.extent, Extent::Node)
        && matches!(written.extent, Extent::Node)
        && read.root == written.root
        && are_equal(read.subs.as_slice(), written.subs.as_slice())
        && are_known(written.subs.as_slice())
}

// Whether the locks `held` cover `reference`.
fn is_covered(rules: &Rules, held: &[LockTerm], reference: &Reference) -> bool
    ensures { IsTrue result ↔ IsCovered rules.now held.now reference.now }
{
    check_reference(rules, reference, held).is_ok()
}

// Whether `reference` needs a lock.
fn needs_lock(rules: &Rules, reference: &Reference) -> bool
    ensures { IsTrue result ↔ ¬ IsCovered rules.now [] reference.now }
{
    !is_covered(rules, &[], reference)
}

// Whether the locks `held` cover `read` and it needs a lock.
fn is_locked(rules: &Rules, held: &[LockTerm], read: &Reference) -> bool
    ensures { IsTrue result ↔ IsCovered rules.now held.now read.now × ¬ IsCovered rules.now [] read.now }
{
    is_covered(rules, held, read) && needs_lock(rules, read)
}

// Whether the locks `held` keep other jobs from writing the node that `read` reads and `written` writes.
fn is_protected(rules: &Rules, held: &[LockTerm], read: &Reference, written: &Reference) -> bool
    ensures { IsTrue result ↔ IsProtected rules.now held.now read.now written.now }
{
    is_covered(rules, held, written) || is_locked(rules, held, read)
}

/// Whether the locks `held` let other jobs write the node that `read` reads and `written` writes.
pub(crate) fn is_open(
    rules: &Rules,
    held: &[LockTerm],
    read: &Reference,
    written: &Reference,
) -> bool
    ensures { IsTrue result ↔ ¬ IsProtected rules.now held.now read.now written.now }
{
    !is_protected(rules, held, read, written)
}

// Whether none of `reads` may reach the node that `written` writes.
fn none_reaches(reads: &[Reference], written: &Reference) -> bool
    ensures { IsTrue result ↔ All (λ r. ¬ MayOverlap r written.now) reads.now }
{
    for read in reads {
        if may_overlap(read, written) {
            return false;
        }
    }
    true
}

// Whether other jobs may have written the node that `read` reads and `written` writes at `gap`, and it was not read after it.
fn is_gap(rules: &Rules, gap: &Gap, read: &Reference, written: &Reference) -> bool
    ensures { IsTrue result ↔ (¬ IsProtected rules.now gap.now.held.items read.now written.now)
        × All (λ r. ¬ MayOverlap r written.now) gap.now.later_reads.items }
{
    is_open(rules, gap.held.as_slice(), read, written)
        && none_reaches(gap.later_reads.as_slice(), written)
}

/// Whether `write` is stale.
pub fn is_stale(rules: &Rules, write: &StaleWrite<'_>) -> bool
    ensures { IsTrue result ↔ IsStale rules.now write.now }
{
    let source = &write.source.reference;
    if !reads_written(source, &write.written) {
        return false;
    }
    if !is_gap(rules, &write.gap, source, &write.written) {
        return false;
    }
    is_covered(rules, write.held.as_slice(), &write.written)
}
