//! Traces of sample heaps by few and many workers, and what is wanted of them.
ghost use Rattle.std.specs.Prelude.{◌≡◌, ◌<◌, ◌≤◌, length, IfOk};
ghost use Rattle.heap_base.specs.declared.limits.TheConstants.{MOST_WORKERS};

use heap_marking::{Kit, Traced, trace};
use object_table::ObjectTable;
use std::process::Abort;
use std::test::Fail;
use std::thread::Threads;
use steal_pool::{Gate, OpenGate};
use tests_support::{Host, SampleHeap, cell, roles_in, table_of};

/// What a trace says of an object: how many references there are to it, whether it is kept, whether it is marked found, and
/// whether as met by roots.
pub type Seen = (u64, bool, bool, bool);

/// What is wanted of an object. Where it may be marked found or not, nothing is said of that.
pub type Want = (u64, bool, Option<bool>, bool);

pub const UNTRACED: Want = (0, false, Some(false), false);

/// Kept by one reference or by two, with no mark.
pub const KEPT_ONCE: Want = (1, true, Some(false), false);

pub const KEPT_TWICE: Want = (2, true, Some(false), false);

/// Kept and found.
pub const FOUND_ONCE: Want = (1, true, Some(true), false);

pub const FOUND_TWICE: Want = (2, true, Some(true), false);

/// Kept and met by roots.
pub const MET_ONCE: Want = (1, true, Some(false), true);

pub const MET_TWICE: Want = (2, true, Some(false), true);

/// A table, and which of its objects own which, the owner first.
#[derive(Clone, Copy)]
pub struct OwnedHeap<'a> {
    pub table: &'a ObjectTable,
    pub owned: &'a [(u32, u32)],
}

/// The heap of the table, traced by so many workers.
pub fn trace_table<R: Threads + Sync, G: Gate>(
    host: &Host<'_, R>,
    heap: OwnedHeap<'_>,
    workers: u32,
    gate: &G,
) -> Result<Traced, Fail>
    requires { (0 < workers) × (workers ≤ MOST_WORKERS) }
    ensures cells { IfOk result (λ t. t.words.cells ≡ length heap.entry.table.now.cells) }
    ensures kinds { IfOk result (λ t. length t.instances ≡ length heap.entry.table.now.table.kinds) }
{
    let table = heap.table;
    let asserted = SampleHeap {
        owned: heap.owned,
        ..SampleHeap::EMPTY
    };
    let roles = roles_in(host.alloc, table, asserted)?;
    let kit = Kit::prepare(host.alloc, table.cells(), table.kinds(), workers)?;
    Ok(trace(host.rt, kit, table, &roles, gate)?)
}

fn seen(table: &ObjectTable, traced: &Traced, object: u32) -> Option<Seen>
    requires { traced.now.words.cells ≡ length table.now.cells }
{
    let cell = cell(table, object)?;
    let kept = traced.kept().get(cell as usize)?;
    let words = traced.words();
    Some((
        words.count(cell),
        *kept,
        words.found(cell),
        words.met_by_roots(cell),
    ))
}

fn is_as_wanted(seen: Option<Seen>, want: Want) -> bool {
    match seen {
        Some((count, kept, found, met)) => {
            (count, kept, met) == (want.0, want.1, want.3) && want.2.is_none_or(|is| is == found)
        }
        None => false,
    }
}

/// Objects from a first to a last, both included, and what is wanted of each.
pub type Objects = (u32, u32, Want);

/// Whether the trace says of each of these objects what is wanted.
pub fn are_as_wanted(table: &ObjectTable, traced: &Traced, objects: Objects) -> bool
    requires { traced.now.words.cells ≡ length table.now.cells }
{
    let (first, last, want) = objects;
    for object in first..=last {
        if !is_as_wanted(seen(table, traced, object), want) {
            return false;
        }
    }
    true
}

/// Whether so many objects of each type are traced, the types in the order in which they came, and no others.
pub fn counts_kinds(table: &ObjectTable, traced: &Traced, instances: &[u64]) -> bool
    requires { length traced.now.instances ≡ length table.now.table.kinds }
{
    let mut sum = 0u64;
    for kind in 0..table.kinds() {
        if instances.get(kind as usize).copied() != Some(traced.instances(kind)) {
            return false;
        }
        sum = sum.saturating_add(traced.instances(kind));
    }
    instances.len() == table.kinds() as usize && traced.traced() as u64 == sum
}

/// What is wanted of a trace: of each object from a first to a last, and how many of each type are traced.
#[derive(Clone, Copy)]
pub struct Wanted<'a> {
    pub objects: &'a [Objects],
    pub instances: &'a [u64],
}

// The first range of objects of which the trace says something else.
fn first_amiss(table: &ObjectTable, traced: &Traced, objects: &[Objects]) -> Option<(u32, u32)>
    requires { traced.now.words.cells ≡ length table.now.cells }
{
    for (first, last, want) in objects {
        if !are_as_wanted(table, traced, (*first, *last, *want)) {
            return Some((*first, *last));
        }
    }
    None
}

// Traces the table by so many workers, and compares.
fn check_table<R: Threads + Sync + Abort>(
    host: &Host<'_, R>,
    heap: OwnedHeap<'_>,
    wanted: Wanted<'_>,
    workers: u32,
) -> Result<(), Fail>
    requires { (0 < workers) × (workers ≤ MOST_WORKERS) }
{
    let rt = host.rt;
    let traced = trace_table(host, heap, workers, &OpenGate)?;
    let amiss = first_amiss(heap.table, &traced, wanted.objects);
    assert_eq!(rt; amiss, None, "by {workers} workers");
    let counts = counts_kinds(heap.table, &traced, wanted.instances);
    assert!(rt; counts, "the types by {workers} workers");
    Ok(())
}

/// Traces a sample heap by 1, 2, 3 and 16 workers, and compares.
pub fn check_heap<R: Threads + Sync + Abort>(
    host: &Host<'_, R>,
    heap: &SampleHeap<'_>,
    wanted: &Wanted<'_>,
) -> Result<(), Fail> {
    let table = table_of(host.alloc, *heap)?;
    let heap = OwnedHeap {
        table: &table,
        owned: heap.owned,
    };
    for workers in [1, 2, 3, 16] {
        check_table(host, heap, *wanted, workers)?;
    }
    Ok(())
}
