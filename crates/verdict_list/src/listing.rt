//! The list of all verdicts, in order.
ghost use Rattle.graph_meaning.specs.Collecting.{first_with_paths};
ghost use Rattle.graph_meaning.specs.Heap.{Heap};
ghost use Rattle.graph_meaning.specs.Roles.{AreRolesOf};
ghost use Rattle.verdict_list.specs.Ownership.{AreViolating};
ghost use Rattle.std.specs.Prelude.{◌≡◌, ◌<◌, ◌≤◌, [], length, IfOk};
ghost use Rattle.verdict_list.specs.Counts.{CountsHeap, counted_in, most_first_verdicts};
ghost use Rattle.verdict_list.specs.Listed.{AreFirstViolations, StandIn, first_verdicts, verdicts_in};

use crate::counts::{CountedHeap, HeapCounts};
use crate::dead::push_dead;
use crate::instances::{KindCount, counted_kinds, push_instances};
use crate::ownedby::{CheckedTable, push_ownees};
use crate::ownership::OwnershipCheck;
use crate::shown_paths::{PlainPaths, plain_levels, shows_some};
use crate::unshared::{LastPaths, SharedObjects, push_unshared, references_of};
use crate::violating::{Assertion, violators};
use graph_meaning::VerdictList;
use heap_base::OutOfMemory;
use object_paths::TracedTable;
use std::alloc::Global;

// No verdict, and room for so many, so that a long list is not copied as it grows.
fn with_room(alloc: Global, verdicts: usize) -> Result<VerdictList, OutOfMemory>
    requires { verdicts ≤ most_first_verdicts }
    ensures { IfOk result (λ list. list ≡ []) }
{
    let mut list = VerdictList::empty(alloc);
    list.reserve(verdicts as u32)?;
    Ok(list)
}

// What violates the assertions of a heap but those of owners: the cells of what is asserted dead, the types over their limit, and the
// cells of what is asserted unshared.
#[derive(Clone, Copy)]
pub(crate) struct FirstViolations<'a> {
    pub(crate) dead: &'a [u32],
    pub(crate) kinds: &'a [KindCount],
    pub(crate) unshared: &'a [u32],
}

// The verdicts on these.
fn verdicts_on<T: HeapCounts>(
    alloc: Global,
    counted: &CountedHeap<'_, T>,
    found: FirstViolations<'_>,
    paths: u32,
) -> Result<VerdictList, OutOfMemory>
    requires roles { AreRolesOf counted.now.table.now.cells (length counted.now.table.now.table.kinds) counted.now.roles.now }
    requires counts { (h : Heap) × CountsHeap counted.now.table.now counted.now.roles.now (T.counts counted.now.counts.now) h }
    requires found { StandIn counted.now.table.now found }
    ensures verdicts { let c = counted.now in let t = T.counts c.counts.now in
        IfOk result (λ v. (h : Heap) → CountsHeap c.table.now c.roles.now t h → AreFirstViolations c.table.now h paths found.entry →
        v ≡ first_with_paths paths (first_verdicts (counted_in c.table.now t) h)) }
    ensures few { IfOk result (λ v. length v ≤ most_first_verdicts) }
{
    let shown = paths as usize;
    let before = found.dead.len() + found.kinds.len();
    let shows_plain = shows_some(shown, before + found.unshared.len());
    let levels = plain_levels(alloc, counted.table, counted.roles, shows_plain)?;
    let traced = TracedTable {
        table: counted.table,
        roles: counted.roles,
        kept: counted.counts.kept(),
    };
    let left = shown.saturating_sub(before);
    let references = references_of(alloc, traced, found.unshared, left)?;
    let mut list = with_room(alloc, before + references.len())?;
    let plain = PlainPaths {
        alloc,
        table: counted.table,
        levels: &levels,
        most: paths,
    };
    push_dead(&mut list, plain, found.dead)?;
    push_instances(&mut list, plain, found.kinds)?;
    let shared = SharedObjects {
        cells: found.unshared,
        references: &references,
    };
    let last = LastPaths {
        alloc,
        table: counted.table,
        levels,
        most: paths,
    };
    push_unshared(&mut list, last, counted.counts, shared)?;
    Ok(list)
}

// The violated assertions of a heap but those of owners.
fn first_verdicts<T: HeapCounts>(
    alloc: Global,
    counted: &CountedHeap<'_, T>,
    paths: u32,
) -> Result<VerdictList, OutOfMemory>
    requires roles { AreRolesOf counted.now.table.now.cells (length counted.now.table.now.table.kinds) counted.now.roles.now }
    requires counts { (h : Heap) × CountsHeap counted.now.table.now counted.now.roles.now (T.counts counted.now.counts.now) h }
    ensures verdicts { let c = counted.now in let t = T.counts c.counts.now in IfOk result (λ v. (h : Heap) → CountsHeap c.table.now c.roles.now t h → v ≡ first_with_paths paths (first_verdicts (counted_in c.table.now t) h)) }
    ensures few { IfOk result (λ v. length v ≤ most_first_verdicts) }
{
    let dead = violators(alloc, counted, Assertion::Dead)?;
    let left = (paths as usize).saturating_sub(dead.len());
    let kinds = counted_kinds(alloc, counted, left)?;
    let unshared = violators(alloc, counted, Assertion::Unshared)?;
    let found = FirstViolations {
        dead: &dead,
        kinds: &kinds,
        unshared: &unshared,
    };
    let list = verdicts_on(alloc, counted, found, paths)?;
    Ok(list)
}

/// The violated assertions of a heap, in order: what is asserted dead, by id; the types over their limit, by name; what is asserted
/// unshared, by id; and the ownees that violate by this check, by id. So many of the first carry their paths. The numbers of references
/// are those that were counted.
pub fn all_verdicts<T: HeapCounts>(
    alloc: Global,
    counted: &CountedHeap<'_, T>,
    check: &OwnershipCheck,
    paths: u32,
) -> Result<VerdictList, OutOfMemory>
    requires roles { AreRolesOf counted.now.table.now.cells (length counted.now.table.now.table.kinds) counted.now.roles.now }
    requires counts { let c = counted.now in (h : Heap) × CountsHeap c.table.now c.roles.now (T.counts c.counts.now) h × AreViolating c.table.now h check.now }
    ensures verdicts { let c = counted.now in let t = T.counts c.counts.now in IfOk result (λ v. (h : Heap) → CountsHeap c.table.now c.roles.now t h → AreViolating c.table.now h check.now → v ≡ verdicts_in c.table.now t paths h) }
{
    // what is true of every table
    let cells = counted.table.cells();
    prove!(cells < u32::MAX);
    let mut list = first_verdicts(alloc, counted, paths)?;
    let checked = CheckedTable {
        alloc,
        table: counted.table,
        roles: counted.roles,
        check,
    };
    push_ownees(&mut list, checked, paths)?;
    Ok(list)
}
