ghost use Rattle.std.specs.Prelude.{◌≡◌, ◌++◌, OnOk};
ghost use Rattle.report.specs.Text.{object_text};

use heap_base::{Name, OutOfMemory};
use streams::{put, put_name, put_number};

/// Appends an object: its id and the name of its type.
pub(crate) fn put_object(text: &mut Vec<u8>, id: u32, kind: &Name) -> Result<(), OutOfMemory>
    ensures { OnOk result (text.new.items ≡ text.old.items ++ object_text id kind.now) }
{
    put_number(text, id as u64)?;
    put(text, b" ")?;
    put_name(text, kind)
}
