//! The objects that violate what was asserted of each by itself.
ghost use Rattle.graph_meaning.specs.Heap.{Heap, ids};
ghost use Rattle.graph_meaning.specs.Owners.{is_any_set};
ghost use Rattle.graph_meaning.specs.Roles.{AreRolesOf, cells_of};
ghost use Rattle.heap_base.specs.Counting.{IsOnce};
ghost use Rattle.heap_base.specs.declared.limits.TheConstants.{MOST_OBJECTS};
ghost use Rattle.object_table.specs.Placed.{id_in};
ghost use Rattle.std.specs.Prelude.{◌≡◌, ◌<◌, ◌≤◌, [], length, map, drop, filter, All, Some, IfOk, IsSome};
ghost use Rattle.verdict_list.specs.Counts.{CountsHeap};
ghost use Rattle.verdict_list.specs.Violating.{flags_of, is_violated_by, is_violated_in, violators};

use crate::counts::{CountedHeap, HeapCounts};
use graph_meaning::Roles;
use heap_base::OutOfMemory;
use std::alloc::Global;

/// What is asserted of one object by itself.
#[derive(Clone, Copy, Debug, PartialEq, Eq)]
pub enum Assertion {
    /// It is dead; violated where it is traced.
    Dead,
    /// It is unshared; violated where there are two references to it, or more.
    Unshared,
}

// Whether the assertion was made of the object in a cell and is violated.
fn is_violated<T: HeapCounts>(assertion: Assertion, roles: &Roles, traced: &T, cell: u32) -> bool
    requires roles { cell < cells_of roles.now }
    requires kept { cell < length (T.counts traced.now).kept }
    requires words { cell < (T.counts traced.now).cells }
    ensures { result ≡ is_violated_in assertion roles.now (T.counts traced.now) cell }
{
    match assertion {
        Assertion::Dead => roles.dead(cell) && traced.kept()[cell as usize],
        Assertion::Unshared => roles.unshared(cell) && traced.references(cell) >= 2,
    }
}

// Whether the assertion was made of any object.
fn is_made(assertion: Assertion, roles: &Roles) -> bool
    ensures { result ≡ is_any_set (flags_of assertion roles.now) }
{
    match assertion {
        Assertion::Dead => roles.has_dead(),
        Assertion::Unshared => roles.has_unshared(),
    }
}

// How many of the objects are asked, by id: none where the assertion was made of none. None of the others violates it.
fn many_asked<T: HeapCounts>(counted: &CountedHeap<'_, T>, assertion: Assertion) -> u32
    requires counts { (h : Heap) × CountsHeap counted.now.table.now counted.now.roles.now (T.counts counted.now.counts.now) h }
    ensures few { result ≤ length counted.now.table.now.table.objects }
    ensures others { let c = counted.now in (h : Heap) → CountsHeap c.table.now c.roles.now (T.counts c.counts.now) h → filter (is_violated_by assertion h) (drop result (ids c.table.now.table)) ≡ [] }
{
    // what is true of every table
    let all = counted.table.cells();
    prove!(all < u32::MAX);
    if is_made(assertion, counted.roles) {
        counted.table.live()
    } else {
        0
    }
}

/// The cells of the objects that violate the assertion, by id.
pub(crate) fn violators<T: HeapCounts>(
    alloc: Global,
    counted: &CountedHeap<'_, T>,
    assertion: Assertion,
) -> Result<Vec<u32>, OutOfMemory>
    requires roles { AreRolesOf counted.now.table.now.cells (length counted.now.table.now.table.kinds) counted.now.roles.now }
    requires counts { (h : Heap) × CountsHeap counted.now.table.now counted.now.roles.now (T.counts counted.now.counts.now) h }
    ensures violators { let c = counted.now in IfOk result (λ cells. (h : Heap) → CountsHeap c.table.now c.roles.now (T.counts c.counts.now) h → map (id_in c.table.now) cells.items ≡ map Some (violators assertion h)) }
    ensures taken { IfOk result (λ cells. All (λ cell. IsSome (id_in counted.now.table.now cell)) cells.items) }
    ensures once { IfOk result (λ cells. IsOnce cells.items) }
    ensures few { IfOk result (λ cells. length cells.items ≤ MOST_OBJECTS) }
{
    // what is true of every table
    let all = counted.table.cells();
    prove!(all < u32::MAX);
    let mut cells = Vec::new(alloc);
    for number in 0..many_asked(counted, assertion) {
        let cell = counted.table.nth_cell(number);
        if is_violated(assertion, counted.roles, counted.counts, cell) {
            cells.push(cell)?;
        }
    }
    Ok(cells)
}
