ghost use Rattle.std.specs.Prelude.{◌≡◌, ◌-◌, length};
ghost use Rattle.graph_meaning.specs.Heap.{Heap};
ghost use Rattle.graph_meaning.specs.Collecting.{with_only};
ghost use Rattle.object_table.specs.Placed.{kept_ids, KeepsCells, LeadsToKept};
ghost use Rattle.sweep.specs.Parts.{assertions_on, regions_with, ArePartsOf, AreTracedIds, SweepsHeap};

use assert_registry::AssertRegistry;
use object_table::ObjectTable;
use region_log::RegionLog;

/// Frees every object whose cell is not kept, and forgets what was asserted of it and which regions it was in.
/// Each kept object keeps its cell. An ownee that stays keeps its owner, though that be freed. It answers how many
/// objects were freed, and takes no memory.
pub fn sweep(
    table: &mut ObjectTable,
    registry: &mut AssertRegistry,
    regions: &mut RegionLog,
    kept: &[bool],
) -> u32
    requires each { length kept.now ≡ length table.old.cells }
    requires closed { LeadsToKept table.old.table (kept_ids table.old.cells kept.now) }

    ensures table { table.new.table ≡ with_only (kept_ids table.old.cells kept.now) table.old.table }
    ensures cells { KeepsCells table.old table.new (kept_ids table.old.cells kept.now) }
    ensures assertions { registry.new ≡ assertions_on (kept_ids table.old.cells kept.now) registry.old }
    ensures regions { regions.new ≡ regions_with (kept_ids table.old.cells kept.now) regions.old }
    ensures freed { result ≡ length table.old.table.objects - length table.new.table.objects }

    // It is the sweep of every heap that these are parts of, where its traced objects are those that are kept.
    ensures heap { (h : Heap) → AreTracedIds h (kept_ids table.old.cells kept.now) →
        ArePartsOf h (record { placed = table.old; assertions = registry.old; regions = regions.old }) →
        SweepsHeap h (record { placed = table.new; assertions = registry.new; regions = regions.new }) result }
{
    prove_eq!(kept.len(), table.cells() as usize);
    let before = table.live();
    table.keep(kept);
    registry.keep(table);
    regions.keep(table);
    before - table.live()
}
