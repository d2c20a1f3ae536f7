ghost use Rattle.std.specs.Prelude.{◌≡◌, ◌++◌, codes, decimal, IfOk, OnOk};
ghost use Rattle.heap_snapshot.specs.ToTrace.{snapshot_fault_text, why_text};

use crate::refusal::SnapWhy;
use heap_base::OutOfMemory;
use std::alloc::Global;
use streams::{put, put_number};

/// The line that says why the bytes are no snapshot. Lines are numbered from 1.
#[tactic(auto, unfolding(crate::specs::ToTrace::snapshot_fault_text))]
pub(crate) fn snapshot_fault_text(
    alloc: Global,
    line: u64,
    why: SnapWhy,
) -> Result<Vec<u8>, OutOfMemory>
    ensures { IfOk result (λ text. text.items ≡ snapshot_fault_text line why) }
{
    let mut text = Vec::new(alloc);
    put(&mut text, b"fault line ")?;
    put_number(&mut text, line)?;
    put(&mut text, b": ")?;
    put_why(&mut text, why)?;
    put(&mut text, b"\n")?;
    Ok(text)
}

fn put_why(text: &mut Vec<u8>, why: SnapWhy) -> Result<(), OutOfMemory>
    ensures { OnOk result (text.new.items ≡ text.old.items ++ why_text why) }
{
    match why {
        SnapWhy::TooLong => put(text, b"TooLong"),
        SnapWhy::BadLine => put(text, b"BadLine"),
        SnapWhy::Unended => put(text, b"Unended"),
        SnapWhy::Dangling(id) => put_dangling(text, id),
    }
}

fn put_dangling(text: &mut Vec<u8>, id: u32) -> Result<(), OutOfMemory>
    ensures { OnOk result (text.new.items ≡ text.old.items ++ (codes "Dangling " ++ decimal id)) }
{
    put(text, b"Dangling ")?;
    put_number(text, id as u64)
}
