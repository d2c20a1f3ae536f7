//! How many objects of each type are traced.
ghost use Rattle.graph_meaning.specs.Heap.{Heap};
ghost use Rattle.object_paths.specs.References.{KeptAreTraced};
ghost use Rattle.std.specs.Prelude.{◌≡◌, ◌+◌, ◌-◌, ◌^◌, ◌<◌, length, replicate, slice_index, slice_set, IfOk};
ghost use Rattle.verdict_list.specs.Counts.{CountsInstances};

use heap_base::OutOfMemory;
use object_table::ObjectTable;
use std::alloc::Global;

/// For each type how many of its objects are traced. It goes once over the objects.
pub(crate) fn count_instances(
    alloc: Global,
    table: &ObjectTable,
    kept: &[bool],
) -> Result<Vec<u32>, OutOfMemory>
    requires kept { length kept.now ≡ length table.now.cells }
    ensures each { IfOk result (λ counts. length counts.items ≡ length table.now.table.kinds) }
    ensures instances { IfOk result (λ counts. (h : Heap) → h.table ≡ table.now.table → KeptAreTraced table.now h kept.now → CountsInstances table.now h counts.items) }
{
    // what is true of every table
    let all = table.cells();
    prove!(all < u32::MAX);
    let mut counts = no_counts(alloc, table.kinds() as usize)?;
    for number in 0..table.live() {
        let cell = table.nth_cell(number);
        if kept[cell as usize] {
            count_one(&mut counts, table.kind_at(cell));
        }
    }
    Ok(counts)
}

// A count of 0 for each of so many types.
fn no_counts(alloc: Global, kinds: usize) -> Result<Vec<u32>, OutOfMemory>
    ensures { IfOk result (λ counts. counts.items ≡ replicate kinds 0) }
{
    let counts = vec![in alloc; 0; kinds]?;
    Ok(counts)
}

// Counts an object of a type.
fn count_one(counts: &mut Vec<u32>, kind: u32)
    requires kind { kind < length counts.old.items }
    requires few { slice_index counts.old.items kind < 2 ^ 32 - 1 }
    ensures { counts.new.items ≡ slice_set counts.old.items kind (slice_index counts.old.items kind + 1) }
{
    counts[kind as usize] += 1;
}
