//! How many cells a sweep leaves, which no contract says.
ghost use Rattle.std.specs.Prelude.{◌≡◌, ℕ, []};
ghost use Rattle.graph_meaning.specs.Heap.{targets};

use assert_registry::AssertRegistry;
use heap_base::OutOfMemory;
use object_table::ObjectTable;
use region_log::RegionLog;
use std::alloc::Global;
use std::test::Fail;
use sweep::sweep;
use tests_support::{flags, table_apart};

const OBJECTS: [(u32, &str, u32); 4] = [(3, "A", 0), (5, "A", 0), (8, "A", 0), (9, "A", 0)];

// Sweeps a table without roots and edges so that only these objects stay.
fn sweep_all_but(alloc: Global, table: &mut ObjectTable, stay: &[u32]) -> Result<(), OutOfMemory>
    requires roots { table.old.table.roots ≡ [] }
    requires edges { (x : ℕ) → targets table.old.table x ≡ [] }
{
    let kept = flags(alloc, table, stay, true)?;
    let mut registry = AssertRegistry::make(alloc)?;
    let mut regions = RegionLog::make(alloc)?;
    sweep(table, &mut registry, &mut regions, kept.as_slice());
    Ok(())
}

// How many cells there are where only these of the four objects stay, which were allocated in the cells 0 to 3.
fn cells_left(alloc: Global, stay: &[u32]) -> Result<u32, Fail> {
    let mut table = table_apart(alloc, &OBJECTS)?;
    sweep_all_but(alloc, &mut table, stay)?;
    Ok(table.cells())
}

#[test]
fn cells_behind_the_last_object_that_stays_go(rt: HostRuntime) -> Result<(), Fail> {
    let cases: [(&[u32], u32); 4] = [(&[3, 9], 4), (&[3, 8], 3), (&[5], 2), (&[], 0)];
    for (stay, cells) in cases {
        assert_eq!(rt; cells_left(rt.alloc(), stay)?, cells);
    }
    Ok(())
}
