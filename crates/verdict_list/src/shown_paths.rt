//! Paths as verdicts show them.
ghost use Rattle.graph_meaning.specs.Heap.{Heap};
ghost use Rattle.graph_meaning.specs.Paths.{plain_way, shown_path, Way, view_of};
ghost use Rattle.graph_meaning.specs.Roles.{AreRolesOf, RoleTable, id_at};
ghost use Rattle.object_paths.specs.PlainPaths.{ArePlainLevels};
ghost use Rattle.object_table.specs.Placed.{id_in};
ghost use Rattle.std.specs.Option.{option_map};
ghost use Rattle.std.specs.Prelude.{◌≡◌, ◌<◌, true, length, IfOk, IsSome, IfSome, Option};
ghost use Rattle.verdict_list.specs.Listed.{path_if, ShowsPaths};

use graph_meaning::{PathView, Roles, Shown, ShownPath};
use heap_base::OutOfMemory;
use object_paths::PlainLevels;
use object_table::ObjectTable;
use std::alloc::Global;

/// The plain paths that verdicts show: in this table, by its levels, if these were made, and for so many of the first verdicts.
#[derive(Clone, Copy)]
pub(crate) struct PlainPaths<'a> {
    pub(crate) alloc: Global,
    pub(crate) table: &'a ObjectTable,
    pub(crate) levels: &'a Option<PlainLevels>,
    pub(crate) most: u32,
}

/// Whether one of so many verdicts shows its path, where so many may.
pub(crate) fn shows_some(most: usize, verdicts: usize) -> bool
    ensures { 0 < most → 0 < verdicts → result ≡ true }
{
    most > 0 && verdicts > 0
}

/// The levels of plain paths, where they are wanted.
pub(crate) fn plain_levels(
    alloc: Global,
    table: &ObjectTable,
    roles: &Roles,
    is_wanted: bool,
) -> Result<Option<PlainLevels>, OutOfMemory>
    requires roles { AreRolesOf table.now.cells (length table.now.table.kinds) roles.now }
    ensures levels { IfOk result (λ levels. IfSome levels (ArePlainLevels table.now roles.now)) }
    ensures there { IfOk result (λ levels. is_wanted ≡ true → IsSome levels) }
{
    if is_wanted {
        Ok(Some(PlainLevels::make(alloc, table, roles)?))
    } else {
        Ok(None)
    }
}

/// The path as a verdict shows it, if there is one.
pub(crate) fn shown(alloc: Global, path: Option<PathView>) -> Result<Shown, OutOfMemory>
    ensures { IfOk result (λ s. (w : Option Way) → path ≡ option_map view_of w → s ≡ shown_path w) }
{
    match path {
        Some(path) => Ok(Shown::Path(ShownPath::of(alloc, path)?)),
        None => Ok(Shown::LeftOut),
    }
}

/// The plain path to the object in a cell, where it is to be shown. The levels are there then.
pub(crate) fn plain_path(
    plain: PlainPaths<'_>,
    cell: u32,
    is_shown: bool,
) -> Result<Shown, OutOfMemory>
    requires cell { IsSome (id_in plain.table.now cell) }
    requires levels { (r : RoleTable) × IfSome plain.levels.now (ArePlainLevels plain.table.now r) }
    requires there { is_shown ≡ true → IsSome plain.levels.now }
    ensures { IfOk result (λ s. (h : Heap) → ShowsPaths plain.entry h → s ≡ path_if is_shown (shown_path (plain_way h (id_at plain.entry.table.now.cells cell)))) }
{
    match plain.levels {
        Some(levels) if is_shown => shown(plain.alloc, levels.path(plain.table, cell)?),
        _ => Ok(Shown::LeftOut),
    }
}
