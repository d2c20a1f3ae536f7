//! A trace by workers that stay.
ghost use Rattle.std.specs.Arc.{arc_value};
ghost use Rattle.std.specs.Prelude.{◌≡◌, length, IfOk};
ghost use Rattle.assert_registry.specs.Laws.{StandFor};
ghost use Rattle.graph_meaning.specs.Heap.{Heap};
ghost use Rattle.graph_meaning.specs.Roles.{AreRolesOf};
ghost use Rattle.heap_marking.specs.Results.{IsByCounts};
ghost use Rattle.heap_marking.specs.Traces.{IsTraceOf, CountsReferences};
ghost use Rattle.object_table.specs.Placed.{IsPlaced};
ghost use Rattle.parked_crew.specs.TaskCrews.{workers_of};
ghost use Rattle.resident_crew.specs.Scans.{shared_by_scan};

use crate::phases::{TraceContext, TraceCrew, run_phases};
use crate::scan::ResidentScan;
use graph_meaning::Roles;
use header_rule::Headers;
use heap_base::OutOfMemory;
use heap_marking::{TraceMemory, Traced, merge_tallies, take_passes};
use object_table::ObjectTable;
use std::alloc::Global;
use std::sync::{Arc, Wait};
use steal_pool::Gate;

/// Traces the objects of a table, as `heap_trace::trace` does, by workers that stay. They share copies of the table and the roles, and
/// the answer is on the table that is handed in. When out of memory the crew can trace again. What it ensures it ensures if it returns.
pub fn trace_resident<R: Wait, G: Gate + Send + Drop + 'static>(
    rt: &R,
    alloc: Global,
    crew: &mut TraceCrew<G>,
    table: &ObjectTable,
    roles: &Roles,
) -> Result<Traced, OutOfMemory>
    requires roles { AreRolesOf table.now.cells (length table.now.table.kinds) roles.now }
    ensures trace { IfOk result (λ t. (h : Heap) → StandFor table.now roles.now h → IsTraceOf table.now h t) }
    ensures counts { IfOk result (λ t. (h : Heap) → StandFor table.now roles.now h → CountsReferences table.now h t) }
    ensures by_counts { IfOk result IsByCounts }
    ensures cells { IfOk result (λ t. t.words.cells ≡ length table.now.cells) }
    ensures kinds { IfOk result (λ t. length t.instances ≡ length table.now.table.kinds) }
    ensures placed { IfOk result (λ _. IsPlaced table.now) }
    ensures workers { workers_of crew.new ≡ workers_of crew.old }
{
    let cells = table.cells();
    let memory = TraceMemory::take(alloc, cells, table.kinds(), crew.workers())?;
    let TraceMemory {
        headers,
        jobs,
        first,
        mut passes,
        mut tally,
    } = memory;
    let shared = share(alloc, headers, table, roles)?;
    let context = TraceContext {
        rt,
        alloc,
        shared: &shared,
    };
    let jobs = run_phases(&context, crew, jobs, first)?;
    merge_tallies(&jobs, &mut tally);
    take_passes(jobs, &mut passes);
    let words = shared.headers.read_all(alloc, passes)?;
    let traced = Traced::of(alloc, words, &tally, table)?;
    Ok(traced)
}

// What the workers share: these headers, and copies of the table and the roles.
fn share(
    alloc: Global,
    headers: Headers,
    table: &ObjectTable,
    roles: &Roles,
) -> Result<Arc<ResidentScan>, OutOfMemory>
    ensures { IfOk result (λ s. shared_by_scan (arc_value s) ≡ record { headers = headers; table = table.now; roles = roles.now }) }
{
    let scan = ResidentScan {
        headers,
        table: table.copy()?,
        roles: roles.copy()?,
    };
    Ok(Arc::new(alloc, scan)?)
}
