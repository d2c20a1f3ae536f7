//! The objects by which types are over their limit.
ghost use Rattle.graph_meaning.specs.Heap.{Heap};
ghost use Rattle.graph_meaning.specs.Roles.{AreRolesOf};
ghost use Rattle.object_table.specs.Placed.{id_in};
ghost use Rattle.object_paths.specs.References.{IsTracedTableOf};
ghost use Rattle.std.specs.Prelude.{true, ◌≡◌, ◌<◌, ◌+◌, ◌-◌, ◌^◌, ℕ, replicate, slice_index, slice_set, length, IfOk, IfSome, IsSome, None, slice_index_or};
ghost use Rattle.verdict_list.specs.Kinds.{ArePastLimits, first_after};

use heap_base::OutOfMemory;
use object_paths::TracedTable;
use std::alloc::Global;

// The first object past the limit: that in this cell where so many came before it as the limit allows.
fn first_after(limit: Option<u32>, count: u32, first: Option<u32>, cell: u32) -> Option<u32>
    ensures { result ≡ first_after limit count first cell }
{
    match limit {
        Some(limit) if limit == count => Some(cell),
        _ => first,
    }
}

// A count of 0 for each of so many types.
fn no_counts(alloc: Global, kinds: usize) -> Result<Vec<u32>, OutOfMemory>
    ensures { IfOk result (λ v. v.items ≡ replicate kinds 0) }
{
    let counts = vec![in alloc; 0; kinds]?;
    Ok(counts)
}

// No place for each of so many types.
fn no_places(alloc: Global, kinds: usize) -> Result<Vec<Option<u32>>, OutOfMemory>
    ensures { IfOk result (λ v. v.items ≡ replicate kinds None) }
{
    let places = vec![in alloc; None; kinds]?;
    Ok(places)
}

// The number of a type, and its limit, if it has one.
#[derive(Clone, Copy)]
struct LimitedKind {
    number: u32,
    limit: Option<u32>,
}

// Counts an object of a type, and notes its cell where it is the first past the limit.
fn count_one(counts: &mut Vec<u32>, places: &mut Vec<Option<u32>>, kind: LimitedKind, cell: u32)
    requires counts { kind.number < length counts.old.items }
    requires places { kind.number < length places.old.items }
    requires small { slice_index counts.old.items kind.number < 2 ^ 32 - 1 }
    ensures counts { counts.new.items ≡ slice_set counts.old.items kind.number (slice_index counts.old.items kind.number + 1) }
    ensures places { places.new.items ≡ slice_set places.old.items kind.number (first_after kind.limit (slice_index counts.old.items kind.number) (slice_index_or places.old.items kind.number None) cell) }
{
    let number = kind.number as usize;
    let count = counts[number];
    places[number] = first_after(kind.limit, count, places[number], cell);
    counts[number] = count + 1;
}

// For each type with a limit the cell of its first traced object past the limit, by id. It goes once over the objects.
fn first_past_limits(
    alloc: Global,
    traced: TracedTable<'_>,
) -> Result<Vec<Option<u32>>, OutOfMemory>
    requires roles { AreRolesOf traced.table.now.cells (length traced.table.now.table.kinds) traced.roles.now }
    requires kept { length traced.kept.now ≡ length traced.table.now.cells }
    ensures each { IfOk result (λ places. length places.items ≡ length traced.entry.table.now.table.kinds) }
    ensures held { IfOk result (λ places. (kind : ℕ) → IfSome (slice_index_or places.items kind None) (λ cell. IsSome (id_in traced.entry.table.now cell))) }
    ensures past { let t = traced.entry in IfOk result (λ places. (h : Heap) → IsTracedTableOf h t → ArePastLimits t.table.now t.roles.now h places.items) }
{
    let TracedTable { table, roles, kept } = traced;
    // what is true of every table
    let all = table.cells();
    prove!(all < u32::MAX);
    let kinds = table.kinds() as usize;
    let mut counts = no_counts(alloc, kinds)?;
    let mut places = no_places(alloc, kinds)?;
    for number in 0..table.live() {
        let cell = table.nth_cell(number);
        if kept[cell as usize] {
            let kind = table.kind_at(cell);
            let limited = LimitedKind {
                number: kind,
                limit: roles.limit(kind),
            };
            count_one(&mut counts, &mut places, limited, cell);
        }
    }
    Ok(places)
}

/// For each type the cell of its first traced object past its limit, where they are wanted.
pub(crate) fn past_limits(
    alloc: Global,
    traced: TracedTable<'_>,
    is_wanted: bool,
) -> Result<Vec<Option<u32>>, OutOfMemory>
    requires roles { AreRolesOf traced.table.now.cells (length traced.table.now.table.kinds) traced.roles.now }
    requires kept { length traced.kept.now ≡ length traced.table.now.cells }
    ensures held { IfOk result (λ places. (kind : ℕ) → IfSome (slice_index_or places.items kind None) (λ cell. IsSome (id_in traced.entry.table.now cell))) }
    ensures past { let t = traced.entry in IfOk result (λ places. is_wanted ≡ true → (h : Heap) → IsTracedTableOf h t → ArePastLimits t.table.now t.roles.now h places.items) }
{
    if is_wanted {
        first_past_limits(alloc, traced)
    } else {
        Ok(Vec::new(alloc))
    }
}
