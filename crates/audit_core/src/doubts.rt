//! The ownees that the marks of a trace leave in doubt.
ghost use Rattle.graph_meaning.specs.Roles.{cells_of};
ghost use Rattle.object_table.specs.Placed.{IsPlaced, IsSound};
ghost use Rattle.verdict_list.specs.Cells.{cells_by_id};
ghost use Rattle.audit_core.specs.Cells.{is_in_doubt};
ghost use Rattle.std.specs.Prelude.{◌≡◌, length, filter, IfOk};

use graph_meaning::Roles;
use header_rule::Words;
use heap_base::OutOfMemory;
use object_table::ObjectTable;
use std::alloc::Global;
use verdict_list::ownees_of;

/// The cells of the ownees that are marked as met by roots and not as found, by the ids of the objects. Whatever is
/// marked found is found, and what isn't marked as met by roots isn't met, so only these may violate.
pub(crate) fn doubtful_ownees(
    alloc: Global,
    table: &ObjectTable,
    roles: &Roles,
    words: &Words,
) -> Result<Vec<u32>, OutOfMemory>
    requires roles { cells_of roles.now ≡ length table.now.cells }
    requires words { words.now.cells ≡ length table.now.cells }
    ensures placed { IsPlaced table.now }
    ensures sound { IsSound table.now.table }
    ensures doubts { IfOk result (λ doubts. doubts.items ≡ filter (is_in_doubt roles.now words.now) (cells_by_id table.now)) }
{
    let cells = table.cells();
    let mut doubts = ownees_of(alloc, table, roles)?;
    // Each of them is a cell of the table; the test says so, since `retain` wants one that any number can be given.
    doubts.retain(|ownee| *ownee < cells && words.met_by_roots(*ownee) && !words.found(*ownee));
    Ok(doubts)
}
