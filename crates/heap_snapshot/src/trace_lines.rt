//! The lines of a trace.
ghost use Rattle.std.specs.Prelude.{◌≡◌, ◌++◌, decimal, length, OnOk};
ghost use Rattle.json.specs.Print.{quoted};
ghost use Rattle.heap_snapshot.specs.Trace.{alloc_line, data_line, root_data, store_data};

use graph_meaning::ObjectView;
use heap_base::{Name, OutOfMemory};
use serde_json::Value;
use std::alloc::Global;
use streams::{put, put_number};

/// Appends the line of a new object.
pub(crate) fn put_alloc(
    alloc: Global,
    text: &mut Vec<u8>,
    object: &ObjectView,
) -> Result<(), OutOfMemory>
    ensures { OnOk result (text.new.items ≡ text.old.items ++ alloc_line object.now) }
{
    put(text, b"{\"id\":")?;
    put_number(text, object.id as u64)?;
    put(text, b",\"op\":\"alloc\",\"slots\":")?;
    put_number(text, object.slots.len() as u64)?;
    put(text, b",\"type\":")?;
    put_name(alloc, text, &object.kind)?;
    put(text, b"}\n")?;
    Ok(())
}

/// Appends the line that puts the object `to` into a slot of the object `at`.
pub(crate) fn put_store(text: &mut Vec<u8>, at: u32, slot: u32, to: u32) -> Result<(), OutOfMemory>
    ensures { OnOk result (text.new.items ≡ text.old.items ++ data_line (store_data at slot to)) }
{
    put(text, b"{\"at\":")?;
    put_number(text, at as u64)?;
    put(text, b",\"op\":\"store\",\"slot\":")?;
    put_number(text, slot as u64)?;
    put(text, b",\"to\":")?;
    put_number(text, to as u64)?;
    put(text, b"}\n")?;
    Ok(())
}

/// Appends the line that gives an object a root.
pub(crate) fn put_root(
    alloc: Global,
    text: &mut Vec<u8>,
    name: &Name,
    to: u32,
) -> Result<(), OutOfMemory>
    ensures { OnOk result (text.new.items ≡ text.old.items ++ data_line (root_data name.now to)) }
{
    put(text, b"{\"name\":")?;
    put_name(alloc, text, name)?;
    put(text, b",\"op\":\"root\",\"to\":")?;
    put_number(text, to as u64)?;
    put(text, b"}\n")?;
    Ok(())
}

// A name as a JSON string.
fn put_name(alloc: Global, text: &mut Vec<u8>, name: &Name) -> Result<(), OutOfMemory>
    ensures { OnOk result (text.new.items ≡ text.old.items ++ quoted name.now) }
{
    let value = Value::String(String::from_str(alloc, name.as_str())?);
    put(text, value.to_string(alloc)?.as_bytes())
}
