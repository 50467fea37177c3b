// KILL: the cells that lose their values.

ghost use Rattle.std.specs.Prelude.{◌≡◌, IfOk, map, option_map};
ghost use Rattle.std.specs.List.{list_any};
ghost use Rattle.mlk_machine_jobs.specs.Bindings.{same_cell, look};
ghost use Rattle.mlk_machine_jobs.specs.Killing.{is_in, is_own, is_taken, cell_of_formal, cells_of_formals, cells_spared};
ghost use Rattle.mlk_machine_jobs.specs.Views.{names_of, cell_of, binder_of, bindings_of};

use crate::binding::{Binder, Cell, Names, covers, look_up, same_cell};
use mlk_text::Name;
use std::alloc::{AllocError, Global};

// Whether `cell` is one of `cells`.
fn has_cell(cells: &[Cell], cell: Cell) -> bool
    ensures { result ≡ list_any (λ other. same_cell (cell_of other) (cell_of cell.entry)) cells.now }
{
    cells.iter().any(|other| same_cell(*other, cell))
}

// `has_cell`, as the definition has it.
fn is_in(cells: &[Cell], cell: Cell) -> bool
    ensures { result ≡ is_in (map cell_of cells.now) (cell_of cell.entry) }
{
    has_cell(cells, cell)
}

// Whether one of `names` is bound to `cell`, which was created for it.
fn is_own(binders: &[Binder], names: Names, cell: Cell) -> bool
    ensures { result ≡ is_own (bindings_of binders.now) (names_of names.entry) (cell_of cell.entry) }
{
    covers(names, cell.name) && same_cell(look_up(binders, cell.name), cell)
}

/// Whether KILL takes `cell`: one of its names is bound to it, and none that it spares.
pub(crate) fn is_taken(
    binders: &[Binder],
    names: Names,
    shared: &[Cell],
    spared: &[Cell],
    cell: Cell,
) -> bool
    ensures { result ≡ is_taken (bindings_of binders.now) (names_of names.entry) (map cell_of shared.now)
        (map cell_of spared.now) (cell_of cell.entry) }
{
    let is_named = is_own(binders, names, cell) || is_in(shared, cell);
    is_named && !is_in(spared, cell)
}

// The cell to which a formal among `names` is bound, if `binder` is that of such a formal.
fn cell_of_formal<'a>(binders: &[Binder<'a>], names: Names, binder: Binder<'a>) -> Option<Cell<'a>>
    ensures { option_map cell_of result ≡ cell_of_formal (bindings_of binders.now) (names_of names.entry) (binder_of binder.entry) }
{
    match binder {
        Binder::Fresh(_, _) => None,
        Binder::ByReference(formal, _) => {
            if covers(names, formal.as_bytes()) {
                Some(look_up(binders, formal.as_bytes()))
            } else {
                None
            }
        }
    }
}

/// The cells to which formals among `names` are bound.
pub(crate) fn cells_of_formals<'a>(
    alloc: Global,
    binders: &[Binder<'a>],
    names: Names,
) -> Result<Vec<Cell<'a>>, AllocError>
    ensures { IfOk result (λ found. map cell_of found.items
        ≡ cells_of_formals (bindings_of binders.now) (bindings_of binders.now) (names_of names.entry)) }
{
    let mut found = Vec::new(alloc);
    let mut count = binders.len();
    while count > 0 {
        count -= 1;
        if let Some(cell) = cell_of_formal(binders, names, binders[count]) {
            let Ok(()) = found.push(cell) else {
                return Err(AllocError);
            };
        }
    }
    Ok(found)
}

// The cells of `names`.
fn cells_of_names<'a>(
    alloc: Global,
    binders: &[Binder<'a>],
    names: &'a [Name],
) -> Result<Vec<Cell<'a>>, AllocError>
    ensures { IfOk result (λ found. map cell_of found.items ≡ map (look (bindings_of binders.now)) names.now) }
{
    let mut found = Vec::new(alloc);
    let mut left = names;
    while let Some((name, others)) = left.split_first() {
        let Ok(()) = found.push(look_up(binders, name.as_bytes())) else {
            return Err(AllocError);
        };
        left = others;
    }
    Ok(found)
}

/// The cells of the names that KILL spares.
pub(crate) fn cells_spared<'a>(
    alloc: Global,
    binders: &[Binder<'a>],
    names: Names<'a>,
) -> Result<Vec<Cell<'a>>, AllocError>
    ensures { IfOk result (λ found. map cell_of found.items ≡ cells_spared (bindings_of binders.now) (names_of names.entry)) }
{
    match names {
        Names::Only(_) => Ok(Vec::new(alloc)),
        Names::AllBut(others) => cells_of_names(alloc, binders, others),
    }
}
