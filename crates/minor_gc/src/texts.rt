//! The lines of a run.
ghost use Rattle.std.specs.Prelude.{◌≡◌, IfOk};
ghost use Rattle.minor_gc.specs.MinorRuns.{minor_end_text, full_text, minor_text};

use crate::minor::Minor;
use heap_base::OutOfMemory;
use std::alloc::Global;
use streams::{put, put_number};

/// The line of a minor collection.
#[tactic(auto, unfolding(crate::specs::MinorRuns::minor_text))]
pub fn minor_text(alloc: Global, number: u64, minor: Minor) -> Result<Vec<u8>, OutOfMemory>
    ensures { IfOk result (λ text. text.items ≡ minor_text number minor) }
{
    let mut text = Vec::new(alloc);
    put(&mut text, b"minor ")?;
    put_number(&mut text, number)?;
    put(&mut text, b" live ")?;
    put_number(&mut text, minor.live as u64)?;
    put(&mut text, b" freed ")?;
    put_number(&mut text, minor.freed as u64)?;
    put(&mut text, b" remembered ")?;
    put_number(&mut text, minor.remembered as u64)?;
    put(&mut text, b"\n")?;
    Ok(text)
}

/// The line of a full collection.
#[tactic(auto, unfolding(crate::specs::MinorRuns::full_text))]
pub fn full_text(alloc: Global, number: u64, full: Minor) -> Result<Vec<u8>, OutOfMemory>
    ensures { IfOk result (λ text. text.items ≡ full_text number full) }
{
    let mut text = Vec::new(alloc);
    put(&mut text, b"full ")?;
    put_number(&mut text, number)?;
    put(&mut text, b" live ")?;
    put_number(&mut text, full.live as u64)?;
    put(&mut text, b" freed ")?;
    put_number(&mut text, full.freed as u64)?;
    put(&mut text, b"\n")?;
    Ok(text)
}

/// The last line of a run whose trace was read to its end.
#[tactic(auto, unfolding(crate::specs::MinorRuns::minor_end_text))]
pub fn end_text(alloc: Global, collections: u64) -> Result<Vec<u8>, OutOfMemory>
    ensures { IfOk result (λ text. text.items ≡ minor_end_text collections) }
{
    let mut text = Vec::new(alloc);
    put(&mut text, b"end gcs ")?;
    put_number(&mut text, collections)?;
    put(&mut text, b"\n")?;
    Ok(text)
}
