ghost use Rattle.std.specs.Prelude.{◌≡◌, IfOk};
ghost use Rattle.report.specs.Text.{collection_text, end_text, fault_text, halt_text};

use crate::refusals::put_refusal;
use crate::verdicts::{put_cleared, put_summary, put_verdicts};
use graph_meaning::{Collection, Refusal};
use heap_base::OutOfMemory;
use std::alloc::Global;
use streams::{put, put_number};

/// The lines of a collection: one that sums it up, one for each verdict, and where slots or roots were cleared one that
/// says how many.
#[tactic(auto, unfolding(crate::specs::Text::collection_text))]
pub fn collection_text(alloc: Global, collection: &Collection) -> Result<Vec<u8>, OutOfMemory>
    ensures { IfOk result (λ text. text.items ≡ collection_text collection.now) }
{
    let mut text = Vec::new(alloc);
    put_summary(&mut text, collection)?;
    put_verdicts(&mut text, collection.number, &collection.verdicts)?;
    put_cleared(&mut text, collection)?;
    Ok(text)
}

/// The last line of a report where a line of the trace was refused. Lines are numbered from 1.
#[tactic(auto, unfolding(crate::specs::Text::fault_text))]
pub fn fault_text(alloc: Global, line: u64, refusal: &Refusal) -> Result<Vec<u8>, OutOfMemory>
    ensures { IfOk result (λ text. text.items ≡ fault_text line refusal.now) }
{
    let mut text = Vec::new(alloc);
    put(&mut text, b"fault line ")?;
    put_number(&mut text, line)?;
    put(&mut text, b": ")?;
    put_refusal(&mut text, refusal)?;
    put(&mut text, b"\n")?;
    Ok(text)
}

/// The last line of a report where the run halted: the number of its last collection, and how many violations this has.
#[tactic(auto, unfolding(crate::specs::Text::halt_text))]
pub fn halt_text(alloc: Global, collection: u64, violations: u64) -> Result<Vec<u8>, OutOfMemory>
    ensures { IfOk result (λ text. text.items ≡ halt_text collection violations) }
{
    let mut text = Vec::new(alloc);
    put(&mut text, b"halt gc ")?;
    put_number(&mut text, collection)?;
    put(&mut text, b" violations ")?;
    put_number(&mut text, violations)?;
    put(&mut text, b"\n")?;
    Ok(text)
}

/// The last line of a report where the trace was read to its end.
#[tactic(auto, unfolding(crate::specs::Text::end_text))]
pub fn end_text(alloc: Global, collections: u64, violations: u64) -> Result<Vec<u8>, OutOfMemory>
    ensures { IfOk result (λ text. text.items ≡ end_text collections violations) }
{
    let mut text = Vec::new(alloc);
    put(&mut text, b"end gcs ")?;
    put_number(&mut text, collections)?;
    put(&mut text, b" violations ")?;
    put_number(&mut text, violations)?;
    put(&mut text, b"\n")?;
    Ok(text)
}
