//! The types of which more objects are traced than their limits allow.
ghost use Rattle.graph_meaning.specs.Collecting.{violating_kinds};
ghost use Rattle.graph_meaning.specs.Heap.{Heap};
ghost use Rattle.graph_meaning.specs.Roles.{AreRolesOf, kinds_of};
ghost use Rattle.heap_base.specs.declared.limits.TheConstants.{MOST_KINDS};
ghost use Rattle.std.specs.Map.{values_of};
ghost use Rattle.std.specs.Prelude.{◌≡◌, ◌<◌, ◌≤◌, length, map, All, IfOk};
ghost use Rattle.verdict_list.specs.Counts.{CountsHeap};
ghost use Rattle.verdict_list.specs.Kinds.{is_over_limit, named_limit, IsOverLimit};

use crate::counts::{CountedHeap, HeapCounts};
use graph_meaning::Roles;
use heap_base::OutOfMemory;
use std::alloc::Global;
use std::collections::BTreeMap;

// Whether more objects of the type are traced than its limit.
fn is_over_limit<T: HeapCounts>(roles: &Roles, traced: &T, kind: u32) -> bool
    requires roles { kind < kinds_of roles.now }
    requires traced { kind < length (T.counts traced.now).instances }
    ensures { result ≡ is_over_limit roles.now (T.counts traced.now) kind }
{
    match roles.limit(kind) {
        Some(limit) => traced.instances(kind) > limit as u64,
        None => false,
    }
}

// The types over their limit: the number of each by its name.
fn by_name<T: HeapCounts>(
    alloc: Global,
    counted: &CountedHeap<'_, T>,
) -> Result<BTreeMap<String, u32>, OutOfMemory>
    requires roles { AreRolesOf counted.now.table.now.cells (length counted.now.table.now.table.kinds) counted.now.roles.now }
    requires counts { (h : Heap) × CountsHeap counted.now.table.now counted.now.roles.now (T.counts counted.now.counts.now) h }
    ensures over { let c = counted.now in IfOk result (λ m. (h : Heap) → CountsHeap c.table.now c.roles.now (T.counts c.counts.now) h → map (named_limit c.table.now c.roles.now) (values_of m.entries) ≡ violating_kinds h) }
    ensures each { IfOk result (λ m. All (IsOverLimit counted.now.table.now counted.now.roles.now (T.counts counted.now.counts.now)) (values_of m.entries)) }
    ensures few { IfOk result (λ m. length m.entries ≤ MOST_KINDS) }
{
    // what is true of every table
    let cells = counted.table.cells();
    prove!(cells < u32::MAX);
    let mut numbers = BTreeMap::new(alloc);
    for kind in 0..counted.table.kinds() {
        if is_over_limit(counted.roles, counted.counts, kind) {
            let name = String::from_str(alloc, counted.table.kind_name(kind).as_str())?;
            numbers.insert(name, kind)?;
        }
    }
    Ok(numbers)
}

// The values, in the order of the names.
fn values(alloc: Global, numbers: &BTreeMap<String, u32>) -> Result<Vec<u32>, OutOfMemory>
    ensures { IfOk result (λ v. v.items ≡ values_of numbers.now.entries) }
{
    let mut values = Vec::with_capacity(alloc, numbers.len())?;
    for number in numbers.values() {
        values.push(*number)?;
    }
    Ok(values)
}

/// The types over their limit, by name.
pub(crate) fn over_limit<T: HeapCounts>(
    alloc: Global,
    counted: &CountedHeap<'_, T>,
) -> Result<Vec<u32>, OutOfMemory>
    requires roles { AreRolesOf counted.now.table.now.cells (length counted.now.table.now.table.kinds) counted.now.roles.now }
    requires counts { (h : Heap) × CountsHeap counted.now.table.now counted.now.roles.now (T.counts counted.now.counts.now) h }
    ensures over { let c = counted.now in IfOk result (λ kinds. (h : Heap) → CountsHeap c.table.now c.roles.now (T.counts c.counts.now) h → map (named_limit c.table.now c.roles.now) kinds.items ≡ violating_kinds h) }
    ensures each { IfOk result (λ kinds. All (IsOverLimit counted.now.table.now counted.now.roles.now (T.counts counted.now.counts.now)) kinds.items) }
    ensures few { IfOk result (λ kinds. length kinds.items ≤ MOST_KINDS) }
{
    let numbers = by_name(alloc, counted)?;
    values(alloc, &numbers)
}
