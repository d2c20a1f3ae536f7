//! A collection: what is traced is found, the assertions are checked, and what is not traced is freed.
ghost use Rattle.graph_meaning.specs.Collecting.{after_collection, collection_of};
ghost use Rattle.plain_collection.specs.Verdicts.{plain_rules};
ghost use Rattle.std.specs.Prelude.{◌≡◌, IfOk, OnOk, OnErr};

use crate::plain_trace::PlainTrace;
use graph_meaning::Collection;
use heap_base::OutOfMemory;
use heap_parts::HeapParts;
use std::alloc::Global;

/// Makes the collection with this number: checks the assertions, shows so many of the paths, and frees what is not traced. All
/// memory is taken before the sweep: when out of memory nothing has changed.
pub fn collect(
    alloc: Global,
    parts: &mut HeapParts,
    paths: u32,
    number: u64,
) -> Result<Collection, OutOfMemory>
    ensures found { IfOk result (λ c. c ≡ collection_of (plain_rules paths) number parts.old.heap) }
    ensures after { OnOk result (parts.new.heap ≡ after_collection (plain_rules paths) parts.old.heap) }
    ensures err { OnErr result (parts.new ≡ parts.old) }
{
    let roles = parts.roles()?;
    let table = parts.table();
    let trace = PlainTrace::make(alloc, table, &roles)?;
    let verdicts = trace.verdicts(alloc, table, &roles, paths)?;
    let live = table.live();
    let swept = parts.finish(trace.kept.as_slice(), None);
    Ok(Collection {
        number,
        live,
        traced: live - swept.freed,
        freed: swept.freed,
        cleared: swept.cleared,
        verdicts,
    })
}
