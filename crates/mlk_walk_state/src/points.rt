// The points of a block, and the cases that are listed at them.

ghost use Rattle.std.specs.Prelude.{◌≡◌, true, slice_get};
ghost use Rattle.std.specs.List.{list_all};
ghost use Rattle.mlk_cert_parts.specs.Limits.{points_below};
ghost use Rattle.mlk_cert_lexemes.specs.Lists.{ascends};
ghost use Rattle.mlk_walk_state.specs.Ends.{IsEnd};
ghost use Rattle.mlk_walk_state.specs.Points.{is_before, is_upto, cases_there};
ghost use Rattle.mlk_walk_state.specs.Scope.{is_at, is_earlier, listed_at};

use mlk_cert_parts::{Case, Point};
use mlk_text::LineNumber;

fn is_below(point: &Point, other: &Point) -> bool
    ensures { result ≡ points_below point.now other.now }
{
    point.line < other.line || (point.line == other.line && point.round < other.round)
}

/// Whether `points` are ordered by lines, and on a line by rounds.
pub(crate) fn are_in_order(points: &[Point]) -> bool
    ensures { result ≡ ascends points_below points.now }
{
    let Some((first, others)) = points.split_first() else {
        return true;
    };
    let mut last = first;
    for point in others {
        if !is_below(last, point) {
            return false;
        }
        last = point;
    }
    true
}

fn is_earlier(point: &Point, line: LineNumber) -> bool
    ensures { result ≡ is_earlier line point.now }
{
    point.line < line
}

/// Whether all `points` are on earlier lines.
pub(crate) fn are_earlier(points: &[Point], line: LineNumber) -> bool
    ensures { result ≡ list_all (is_earlier line) points.now }
{
    points.iter().all(|point| is_earlier(point, line))
}

/// Whether all `points`, which are in order, are on earlier lines.
pub(crate) fn are_earlier_in_order(points: &[Point], line: LineNumber) -> bool
    requires { ascends points_below points.now ≡ true }
    ensures { result ≡ list_all (is_earlier line) points.now }
{
    match points.split_last() {
        None => true,
        Some((last, _)) => is_earlier(last, line),
    }
}

fn is_before(point: &Point, line: LineNumber, round: usize) -> bool
    ensures { result ≡ is_before line round point.now }
{
    line > point.line || (point.line == line && (point.round as usize) < round)
}

fn is_at(point: &Point, line: LineNumber, round: usize) -> bool
    ensures { result ≡ is_at line round point.now }
{
    point.line == line && point.round as usize == round
}

// The number of `points`, which are in order, before a line and round.
fn place_of(points: &[Point], line: LineNumber, round: usize) -> usize
    requires { ascends points_below points.now ≡ true }
    ensures { listed_at points.now line round ≡ cases_there line round (slice_get points.now result) }
{
    points.partition_point(
        |point: &Point| -> bool
            ensures { result ≡ is_before line round point.now }
        { is_before(point, line, round) },
    )
}

/// The cases listed at a line and round, for `points` in order.
pub(crate) fn cases_in_order(points: &[Point], line: LineNumber, round: usize) -> &[Case]
    requires { ascends points_below points.now ≡ true }
    ensures { result.now ≡ listed_at points.now line round }
{
    match points.get(place_of(points, line, round)) {
        Some(point) if is_at(point, line, round) => point.cases.as_slice(),
        Some(_) | None => &[],
    }
}

// Whether `point` is at a line and round, or before it.
fn is_upto(point: &Point, line: LineNumber, round: usize) -> bool
    ensures { result ≡ is_upto line round point.now }
{
    point.line < line || (point.line == line && point.round as usize <= round)
}

/// Drops points at the front that are on lines before `line`.
pub(crate) fn from_line(points: &[Point], line: LineNumber) -> &[Point]
    ensures { IsEnd points.now result.now }
{
    let mut left = points;
    while let Some((point, others)) = left.split_first() {
        if !is_earlier(point, line) {
            return left;
        }
        left = others;
    }
    left
}

// The cases listed at a line and round, for `points` in order, searched one by one.
fn cases_next(points: &[Point], line: LineNumber, round: usize) -> &[Case]
    requires { ascends points_below points.now ≡ true }
    ensures { result.now ≡ listed_at points.now line round }
{
    let mut left = points;
    while let Some((point, others)) = left.split_first() {
        if is_at(point, line, round) {
            return point.cases.as_slice();
        }
        if !is_before(point, line, round) {
            return &[];
        }
        left = others;
    }
    &[]
}

/// The cases listed at a line and round, for `points` in order, whose last ones are `ahead`. Only `ahead` is searched if the
/// place can't be before it: a walk that proceeds line by line finds it there immediately.
pub(crate) fn cases_ahead<'a>(
    points: &'a [Point],
    ahead: &'a [Point],
    line: LineNumber,
    round: usize,
) -> &'a [Case]
    requires order { ascends points_below points.now ≡ true }
    requires end { IsEnd points.now ahead.now }
    ensures { result.now ≡ listed_at points.now line round }
{
    let Some((point, _)) = ahead.split_first() else {
        return cases_in_order(points, line, round);
    };
    if is_upto(point, line, round) {
        return cases_next(ahead, line, round);
    }
    cases_in_order(points, line, round)
}

/// The cases of the first point at a line and round.
pub(crate) fn cases_at(points: &[Point], line: LineNumber, round: usize) -> &[Case]
    ensures { result.now ≡ listed_at points.now line round }
{
    let mut left = points;
    while let Some((point, others)) = left.split_first() {
        if is_at(point, line, round) {
            return point.cases.as_slice();
        }
        left = others;
    }
    &[]
}
