// DO without arguments: the block below the line.

ghost use Rattle.std.specs.Prelude.{◌≡◌, IfOk, OnOk, flat_map, length, map, nat_lt, take, []};
ghost use Rattle.std.specs.List.{list_any};
ghost use Rattle.mlk_walk_state.specs.States.{at_rest};
ghost use Rattle.mlk_walk_exprs.specs.Spots.{spot_of};
ghost use Rattle.mlk_walk_exprs.specs.Walks.{add_all, put_states};
ghost use Rattle.mlk_walk_lines.specs.Commands.{entering, enters, enter_row, block_ends, do_block};
ghost use Rattle.mlk_walk_lines.specs.Counting.{counted};

use mlk_calls::{State, is_listed};
use mlk_cert_parts::{Case, Shared};
use mlk_text::{Code, Column, List};
use mlk_walk_exprs::{Block, Mend, Note, Spot, Walk, put};
use std::alloc::{AllocError, Global};

// The case with its `$TEST` saved.
fn save_test(alloc: Global, case: Case) -> Result<Case, AllocError>
    ensures { IfOk result (λ c. c ≡ entering case) }
{
    let mut saved = Vec::from_slice(alloc, case.saved.as_slice())?;
    saved.push(case.test)?;
    Ok(Case {
        test: case.test,
        held: case.held,
        own: case.own,
        kept: case.kept,
        saved: Shared::new(alloc, saved)?,
    })
}

// Lets a state enter the block, or refuses it at the block's first line.
fn enter(spot: &Spot, block: &Block, state: State, walk: &mut Walk) -> Result<bool, AllocError>
    ensures enters { IfOk result (λ e. e ≡ enters (spot_of spot.now) block.now state) }
    ensures walk { OnOk result (walk.new ≡ add_all (enter_row (spot_of spot.now) block.now state) walk.old) }
{
    let case = save_test(spot.alloc, state.case)?;
    if is_listed(spot.scope.listed_cases(block.first, 0), &case) {
        return Ok(true);
    }
    let mend = Mend::Listed(block.first, 0, case);
    walk.refuse(
        block.first,
        Column::new(1),
        Code::CaseNotListed,
        Note::of(mend),
    )?;
    Ok(false)
}

// Lets states enter the block, and returns whether some state does.
fn enter_all(
    spot: &Spot,
    block: &Block,
    states: Vec<State>,
    walk: &mut Walk,
) -> Result<bool, AllocError>
    ensures enters { IfOk result (λ e. e ≡ list_any (enters (spot_of spot.now) block.now) states.items) }
    ensures walk { OnOk result (walk.new
        ≡ add_all (flat_map (enter_row (spot_of spot.now) block.now) states.items) walk.old) }
{
    let mut some = false;
    for state in states {
        let enters = enter(spot, block, state, walk)?;
        some = some || enters;
    }
    Ok(some)
}

/// Whether there are more states than may stay live.
pub(crate) fn are_many(states: &[State]) -> bool
    ensures { result ≡ nat_lt 16 (length states.now) }
{
    states.len() > 16
}

// The states in which the block may end; if there are more than 17, the first 17, which are already too many.
fn ends_of(alloc: Global, block: &Block) -> Result<List<State>, AllocError>
    ensures { IfOk result (λ s. take 17 s ≡ take 17 (put_states (map at_rest block.now.ends) [])) }
{
    let mut ends = List::new(alloc);
    let cases = block.ends.as_slice();
    for case in cases {
        if are_many(ends.as_slice()) {
            return Ok(ends);
        }
        put(&mut ends, State::at_rest(alloc, case)?)?;
    }
    Ok(ends)
}

fn block_ends(alloc: Global, entered: bool, block: &Block) -> Result<List<State>, AllocError>
    ensures { IfOk result (λ s. take 17 s ≡ take 17 (block_ends entered block.now)) }
{
    if !entered {
        return Ok(List::new(alloc));
    }
    ends_of(alloc, block)
}

fn walk_through(spot: &Spot, block: &Block, walk: &mut Walk) -> Result<(), AllocError>
    ensures { OnOk result (counted walk.new ≡ counted (do_block (spot_of spot.now) (Some block.now) walk.old)) }
{
    let going = walk.take_going(spot.alloc);
    let entered = enter_all(spot, block, going.into_vec(), walk)?;
    walk.going = block_ends(spot.alloc, entered, block)?;
    Ok(())
}

/// Runs the block below the line: the live states are then those in which it may end. Without a block nothing happens. If there
/// are more than 17 states, the first 17 are kept, so the caller must check that there are not too many.
pub(crate) fn do_block(spot: &Spot, walk: &mut Walk) -> Result<(), AllocError>
    ensures { OnOk result (counted walk.new ≡ counted (do_block (spot_of spot.now) (spot_of spot.now).block walk.old)) }
{
    match spot.block {
        None => Ok(()),
        Some(block) => walk_through(spot, block, walk),
    }
}
