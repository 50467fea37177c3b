// The values of cells.

ghost use Rattle.std.specs.Prelude.{◌≡◌, ◌<◌, ℕ, suc, List, length, Some, None, option_copied};
ghost use Rattle.std.specs.Prelude.{slice_get, IfOk, OnOk, OnErr, min, map, not, if◌then◌else◌};
ghost use Rattle.mlk_machine_jobs.specs.Bindings.{put_value, forgotten};
ghost use Rattle.mlk_machine_jobs.specs.Killing.{is_taken, without_taken};
ghost use Rattle.mlk_machine_jobs.specs.Views.{names_of, bindings_of, cell_of, in_table, value_at, PutsValue, without};

use crate::binding::{Binder, Cell, Names};
use crate::kill::is_taken;
use indexmap::IndexMap;
use mlk_text::Value;
use std::alloc::{AllocError, Global};

/// The values of the cells of one generation, by name.
#[derive(Drop)]
pub struct CellTable<'a> {
    values: IndexMap<&'a [u8], Value>,
}

impl<'a> CellTable<'a> {
    /// A table without values.
    pub fn new(alloc: Global) -> CellTable<'a>
        ensures { (n : List ℕ) → in_table result n ≡ None }
    {
        CellTable {
            values: IndexMap::new(alloc),
        }
    }

    /// Copies the table.
    #[tactic(auto, using(crate::proofs::CellLemmas::same_entries))]
    pub fn copy(&self) -> Result<CellTable<'a>, AllocError>
        ensures { IfOk result (λ copy. (n : List ℕ) → in_table copy n ≡ in_table self.now n) }
    {
        Ok(CellTable {
            values: self.values.clone()?,
        })
    }

    // The value of `name`, or `None`. Allocates nothing.
    fn value(&self, name: &[u8]) -> Option<&Value>
        ensures { option_copied result ≡ in_table self.now name.now }
    {
        self.values.get(name)
    }

    /// Sets the value of `name`.
    pub fn put(&mut self, name: &'a [u8], value: Value) -> Result<(), AllocError>
        ensures ok { OnOk result (PutsValue name.now (Some value) self.old self.new) }
        ensures err { OnErr result ((n : List ℕ) → in_table self.new n ≡ in_table self.old n) }
    {
        let Ok(_) = self.values.insert(name, value) else {
            return Err(AllocError);
        };
        Ok(())
    }

    // Removes the value of `name`. Allocates nothing.
    fn remove(&mut self, name: &[u8])
        ensures { PutsValue name.now None self.old self.new }
    {
        let _ = self.values.swap_remove(name);
    }

    // Removes the values of the cells of this generation that KILL takes. Allocates nothing.
    fn leave_out(
        &mut self,
        generation: usize,
        binders: &[Binder],
        names: Names,
        shared: &[Cell],
        spared: &[Cell],
    )
        ensures { (n : List ℕ) → in_table self.new n
            ≡ (if is_taken (bindings_of binders.now) (names_of names.entry) (map cell_of shared.now)
            (map cell_of spared.now) (record { generation = generation; name = n }) then None else in_table self.old n) }
    {
        self.values.retain(
            |name: &&[u8], value: &mut Value| -> bool
                ensures result { result ≡ not (is_taken (bindings_of binders.entry.now) (names_of names.entry)
                    (map cell_of shared.entry.now) (map cell_of spared.entry.now)
                    (record { generation = generation; name = name.now.now })) }
                ensures value { value.new ≡ value.old }
            {
                let cell = Cell {
                    generation,
                    name: *name,
                };
                !is_taken(binders, names, shared, spared, cell)
            },
        );
    }
}

fn table_at<'t, 'a>(tables: &'t [CellTable<'a>], generation: usize) -> Option<&'t CellTable<'a>>
    ensures { option_copied result ≡ slice_get tables.now generation }
{
    tables.get(generation)
}

/// The value of `cell`, or `None`; `tables` are of one generation each, from 0. Allocates nothing.
pub fn value_of<'t>(tables: &'t [CellTable], cell: Cell) -> Option<&'t Value>
    ensures { option_copied result ≡ value_at tables.now (cell_of cell.entry) }
{
    let Some(table) = table_at(tables, cell.generation) else {
        return None;
    };
    table.value(cell.name)
}

/// Sets the value of `cell`.
#[tactic(auto, using(crate::proofs::CellLemmas::values_put, crate::proofs::CellLemmas::values_same))]
pub fn store<'a>(
    tables: &mut Vec<CellTable<'a>>,
    cell: Cell<'a>,
    value: Value,
) -> Result<(), AllocError>
    requires { cell.generation < length tables.old.items }
    ensures values { OnOk result (value_at tables.new.items
        ≡ put_value (cell_of cell.entry) value (value_at tables.old.items)) }
    ensures err { OnErr result (value_at tables.new.items ≡ value_at tables.old.items) }
    ensures len { length tables.new.items ≡ length tables.old.items }
{
    tables[cell.generation].put(cell.name, value)
}

/// Removes the value of `cell`. Allocates nothing.
#[tactic(auto, using(crate::proofs::CellLemmas::values_cleared))]
pub fn clear(tables: &mut Vec<CellTable>, cell: Cell)
    requires { cell.generation < length tables.old.items }
    ensures values { value_at tables.new.items ≡ without (cell_of cell.entry) (value_at tables.old.items) }
    ensures len { length tables.new.items ≡ length tables.old.items }
{
    tables[cell.generation].remove(cell.name);
}

/// Removes the values of the cells that KILL takes. Allocates nothing.
pub(crate) fn leave_out(
    tables: &mut Vec<CellTable>,
    binders: &[Binder],
    names: Names,
    shared: &[Cell],
    spared: &[Cell],
)
    ensures values { value_at tables.new.items ≡ without_taken (bindings_of binders.now) (names_of names.entry)
        (map cell_of shared.now) (map cell_of spared.now) (value_at tables.old.items) }
    ensures len { length tables.new.items ≡ length tables.old.items }
{
    let mut generation = 0;
    while generation < tables.len() {
        tables[generation].leave_out(generation, binders, names, shared, spared);
        generation += 1;
    }
}

/// Removes the cells of generation `next` and of later ones.
#[tactic(auto, using(crate::proofs::CellLemmas::values_forgotten))]
pub fn forget(tables: &mut Vec<CellTable>, next: usize)
    ensures values { value_at tables.new.items ≡ forgotten next (value_at tables.old.items) }
    ensures len { length tables.new.items ≡ min next (length tables.old.items) }
{
    tables.truncate(next);
}

/// Adds a generation, whose cells have no values.
#[tactic(auto, using(crate::proofs::CellLemmas::values_added))]
pub fn add_generation(alloc: Global, tables: &mut Vec<CellTable>) -> Result<(), AllocError>
    ensures values { value_at tables.new.items ≡ value_at tables.old.items }
    ensures len { OnOk result (length tables.new.items ≡ suc (length tables.old.items)) }
    ensures err { OnErr result (length tables.new.items ≡ length tables.old.items) }
{
    let Ok(()) = tables.push(CellTable::new(alloc)) else {
        return Err(AllocError);
    };
    Ok(())
}
