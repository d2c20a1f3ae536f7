//! The owner of an ownee.
ghost use Rattle.assert_registry.specs.ByCell.{owner_at};
ghost use Rattle.assert_registry.specs.Laws.{StandFor};
ghost use Rattle.graph_meaning.specs.Collecting.{is_gone};
ghost use Rattle.graph_meaning.specs.Heap.{Heap};
ghost use Rattle.graph_meaning.specs.Roles.{AreRolesOf, owner_in};
ghost use Rattle.graph_meaning.specs.declared.roles.OwnerRole.TheVariants.{NotOwned};
ghost use Rattle.std.specs.Prelude.{◌≡◌, ◌≢◌, ℕ, Some, length};

use graph_meaning::{OwnerRole, Roles};
use object_table::ObjectTable;
use path_cert::object_id;

/// The owner of an ownee: its id, and whether it was freed.
#[derive(Clone, Copy)]
pub(crate) struct Owner {
    pub(crate) id: u32,
    pub(crate) gone: bool,
}

/// The owner of the ownee in a cell.
pub(crate) fn owner_of(table: &ObjectTable, roles: &Roles, cell: u32) -> Owner
    requires roles { AreRolesOf table.now.cells (length table.now.table.kinds) roles.now }
    requires owned { owner_in roles.now cell ≢ NotOwned }
    ensures id { (h : Heap) (owner : ℕ) → StandFor table.now roles.now h → owner_at table.now h.owners cell ≡ Some owner → result.id ≡ owner }
    ensures gone { (h : Heap) (owner : ℕ) → StandFor table.now roles.now h → owner_at table.now h.owners cell ≡ Some owner → result.gone ≡ is_gone h owner }
{
    // what is true of every table
    let cells = table.cells();
    prove!(cell < cells);
    match roles.owner(cell) {
        OwnerRole::OwnerCell(owner) => Owner {
            id: object_id(table, owner),
            gone: false,
        },
        OwnerRole::OwnerGone(id) => Owner { id, gone: true },
        OwnerRole::NotOwned => unreachable!(),
    }
}
