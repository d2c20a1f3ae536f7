//! A trace by many workers.
ghost use Rattle.std.specs.Prelude.{◌≡◌, length, IfOk};
ghost use Rattle.assert_registry.specs.Laws.{StandFor};
ghost use Rattle.graph_meaning.specs.Heap.{Heap};
ghost use Rattle.graph_meaning.specs.Roles.{AreRolesOf};
ghost use Rattle.heap_marking.specs.Kits.{kit_cells, kit_kinds};
ghost use Rattle.heap_marking.specs.Results.{IsByCounts};
ghost use Rattle.heap_marking.specs.Traces.{IsTraceOf, CountsReferences};

use crate::gathering::{merge_tallies, take_passes};
use crate::kit::Kit;
use crate::memory::TraceMemory;
use crate::phases::run_phases;
use crate::traced::Traced;
use graph_meaning::Roles;
use heap_base::OutOfMemory;
use object_table::ObjectTable;
use scan_job::{ScanContext, ScanShared};
use std::thread::Threads;
use steal_pool::Gate;

/// Traces the objects of a table by many workers: from the owners, from what they found of others' ownees, and from
/// the roots. The kit was prepared for the table's cells and types. It takes no memory, and gives what the
/// definitions say of every heap that the table and the roles stand for. It is out of memory where one worker has met
/// more than 2^51 - `MOST_SLOTS` cells, so that it might not count the next object's.
pub fn trace<R: Threads + Sync, G: Gate>(
    rt: &R,
    kit: Kit,
    table: &ObjectTable,
    roles: &Roles,
    gate: &G,
) -> Result<Traced, OutOfMemory>
    requires cells { kit_cells kit ≡ length table.now.cells }
    requires kinds { kit_kinds kit ≡ length table.now.table.kinds }
    requires roles { AreRolesOf table.now.cells (length table.now.table.kinds) roles.now }
    ensures trace { IfOk result (λ t. (h : Heap) → StandFor table.now roles.now h → IsTraceOf table.now h t) }
    ensures counts { IfOk result (λ t. (h : Heap) → StandFor table.now roles.now h → CountsReferences table.now h t) }
    ensures by_counts { IfOk result IsByCounts }
    ensures cells { IfOk result (λ t. t.words.cells ≡ length table.now.cells) }
    ensures kinds { IfOk result (λ t. length t.instances ≡ length table.now.table.kinds) }
{
    let cells = table.cells();
    let Kit {
        memory,
        mut crew,
        kept,
    } = kit;
    let TraceMemory {
        headers,
        mut jobs,
        mut first,
        mut passes,
        mut tally,
    } = memory;
    let shared = ScanShared {
        headers: &headers,
        table,
        roles,
    };
    let context = ScanContext {
        rt,
        shared: &shared,
        gate,
    };
    run_phases(context, &mut crew, &mut jobs, &mut first)?;
    merge_tallies(&jobs, &mut tally);
    take_passes(jobs, &mut passes);
    let words = headers.close(passes);
    Ok(Traced::make(words, tally, cells, kept))
}
