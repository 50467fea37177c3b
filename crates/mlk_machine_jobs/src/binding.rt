// Local names, and the cells that they are bound to.

ghost use Rattle.std.specs.Prelude.{◌≡◌, ◌∷◌, bytes_eq, List, ℕ, option_map};
ghost use Rattle.std.specs.List.{list_any};
ghost use Rattle.mlk_machine_jobs.specs.Bindings.{covers, same_cell, look};
ghost use Rattle.mlk_machine_jobs.specs.Views.{names_of, cell_of, binder_of, bindings_of, bound_by};

use mlk_text::Name;

/// One name, or all names except these.
#[derive(Clone, Copy, Drop)]
pub enum Names<'a> {
    Only(&'a Name),
    AllBut(&'a [Name]),
}

/// A cell, identified by the generation of the NEW or call that created it and the name for which it was created.
#[derive(Clone, Copy, Drop)]
pub struct Cell<'a> {
    pub generation: usize,
    pub name: &'a [u8],
}

/// A change of bindings.
#[derive(Clone, Copy, Drop)]
pub enum Binder<'a> {
    /// new cells of this generation
    Fresh(usize, Names<'a>),
    /// a formal, bound to a cell of its caller
    ByReference(&'a Name, Cell<'a>),
}

fn is_same(first: &[u8], second: &[u8]) -> bool
    ensures { result ≡ bytes_eq first.now second.now }
{
    first == second
}

fn is_among(names: &[Name], name: &[u8]) -> bool
    ensures { result ≡ list_any (bytes_eq name.now) names.now }
{
    names.iter().any(|other| is_same(name, other.as_bytes()))
}

/// Whether `names` include `name`.
pub fn covers(names: Names, name: &[u8]) -> bool
    ensures { result ≡ covers (names_of names.entry) name.now }
{
    match names {
        Names::Only(only) => is_same(only.as_bytes(), name),
        Names::AllBut(others) => !is_among(others, name),
    }
}

/// Whether two cells are the same.
pub fn same_cell(first: Cell, second: Cell) -> bool
    ensures { result ≡ same_cell (cell_of first.entry) (cell_of second.entry) }
{
    first.generation == second.generation && is_same(first.name, second.name)
}

// The cell to which `binder` binds `name`, or `None` if it does not bind it.
fn bound_cell<'a>(binder: Binder<'a>, name: &'a [u8]) -> Option<Cell<'a>>
    ensures { option_map cell_of result ≡ bound_by (binder_of binder.entry) name.now }
{
    match binder {
        Binder::Fresh(generation, names) => {
            if covers(names, name) {
                Some(Cell { generation, name })
            } else {
                None
            }
        }
        Binder::ByReference(formal, cell) => {
            if is_same(formal.as_bytes(), name) {
                Some(cell)
            } else {
                None
            }
        }
    }
}

/// The cell to which `name` is bound: by the last binder that binds it.
pub fn look_up<'a>(binders: &[Binder<'a>], name: &'a [u8]) -> Cell<'a>
    ensures { cell_of result ≡ look (bindings_of binders.now) name.now }
{
    let mut count = binders.len();
    while count > 0 {
        count -= 1;
        if let Some(cell) = bound_cell(binders[count], name) {
            return cell;
        }
    }
    Cell {
        generation: 0,
        name,
    }
}
