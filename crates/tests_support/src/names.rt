//! Ids and names that a test knows to be lawful.
ghost use Rattle.std.specs.Prelude.{◌≡◌, IfOk};

use heap_base::{Name, ObjId};
use std::alloc::Global;
use std::test::Fail;

/// The id with this number; an error at 0.
pub fn id(n: u32) -> Result<ObjId, Fail>
    ensures { IfOk result (λ i. i ≡ n) }
{
    Ok(ObjId::of(n).ok_or("0 is no id")?)
}

/// The name with this text; an error where the text is no name, or out of memory.
pub fn name(alloc: Global, text: &str) -> Result<Name, Fail>
    ensures { IfOk result (λ m. m ≡ text.now) }
{
    Ok(Name::of(alloc, text)?.ok_or("the text is no name")?)
}
