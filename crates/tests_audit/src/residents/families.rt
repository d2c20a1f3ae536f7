//! A heap whose trace by two workers begins at both: two roots name two objects, and the first of these has 1,000 children.

use object_table::ObjectTable;
use std::alloc::Global;
use std::test::Fail;
use tests_support::{SampleHeap, id, name, table_of};

const CHILDREN: u32 = 1_000;

// Fills the slots of the object 1 with new objects.
fn add_children(alloc: Global, table: &mut ObjectTable) -> Result<(), Fail> {
    let kind = name(alloc, "A")?;
    for slot in 0..CHILDREN {
        table.alloc_object(id(slot + 3)?, &kind, 0)?;
        table.store(id(1)?, slot, Some(id(slot + 3)?))?;
    }
    Ok(())
}

/// Its table.
pub fn family_table(alloc: Global) -> Result<ObjectTable, Fail> {
    let heap = SampleHeap {
        objects: &[(1, "A", CHILDREN), (2, "A", 0)],
        roots: &[("a", 1), ("b", 2)],
        ..SampleHeap::EMPTY
    };
    let mut table = table_of(alloc, heap)?;
    add_children(alloc, &mut table)?;
    Ok(table)
}

// The lines that make one more child of the object 1.
fn child_lines(alloc: Global, slot: u32) -> Result<String, Fail> {
    let child = slot.saturating_add(3);
    Ok(format!(in alloc;
        "{{\"op\":\"alloc\",\"id\":{child},\"type\":\"A\",\"slots\":0}}\n\
         {{\"op\":\"store\",\"at\":1,\"slot\":{slot},\"to\":{child}}}\n"
    )?)
}

/// A trace that makes it, and one collection.
pub fn family_trace(alloc: Global) -> Result<String, Fail> {
    let mut trace = String::new(alloc);
    trace.push_str(
        "{\"op\":\"alloc\",\"id\":1,\"type\":\"A\",\"slots\":1000}\n\
         {\"op\":\"alloc\",\"id\":2,\"type\":\"A\",\"slots\":0}\n\
         {\"op\":\"root\",\"name\":\"a\",\"to\":1}\n\
         {\"op\":\"root\",\"name\":\"b\",\"to\":2}\n",
    )?;
    for slot in 0..CHILDREN {
        trace.push_str(&child_lines(alloc, slot)?)?;
    }
    trace.push_str("{\"op\":\"collect\"}\n")?;
    Ok(trace)
}
