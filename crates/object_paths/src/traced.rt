//! A table of which it is known what is traced.
ghost use Rattle.graph_meaning.specs.Reach.{has_id};
ghost use Rattle.graph_meaning.specs.Roles.{cells_of};
ghost use Rattle.std.specs.Prelude.{◌≡◌, ◌<◌, ◌||◌, false, length, slice_index_or};

use graph_meaning::Roles;
use object_table::ObjectTable;

/// A table with its roles, of which it is known what is traced.
#[derive(Clone, Copy)]
pub struct TracedTable<'a> {
    /// The table.
    pub table: &'a ObjectTable,
    /// What is asserted of its objects.
    pub roles: &'a Roles,
    /// For each cell whether it holds a traced object.
    pub kept: &'a [bool],
}

/// Whether the slots of the object in a cell count: those of traced objects and of owners do.
pub fn is_scanned(roles: &Roles, kept: &[bool], cell: u32) -> bool
    requires roles { cell < cells_of roles.now }
    requires kept { cell < length kept.now }
    ensures { result ≡ (slice_index_or kept.now cell false || has_id roles.now.owners cell) }
{
    kept[cell as usize] || roles.is_owner(cell)
}
