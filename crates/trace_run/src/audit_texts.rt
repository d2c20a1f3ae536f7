//! The texts that an audit makes due.
ghost use Rattle.std.specs.Prelude.{◌≡◌, ◌&&◌, nat_lt, IfOk};
ghost use Rattle.report.specs.Run.{is_halt};
ghost use Rattle.trace_run.specs.Program.{IsLast};
ghost use Rattle.trace_run.specs.Audits.{IsDue, end_of};

use crate::taken::{Due, LastText, Taken};
use graph_meaning::{Collection, React};
use heap_base::OutOfMemory;
use report::{end_text, halt_text};
use std::alloc::Global;

/// Whether a run halts behind a collection with so many violations.
fn halts(react: React, violations: u64) -> bool
    ensures { result ≡ is_halt react && nat_lt 0 violations }
{
    match react {
        React::Halt => violations > 0,
        React::Report | React::Force => false,
    }
}

/// What a collection makes due: its lines, and the halt line where the run halts behind it.
pub fn due_behind(alloc: Global, react: React, collection: Collection) -> Result<Taken, OutOfMemory>
    ensures { IfOk result (IsDue react collection) }
{
    let violations = collection.verdicts.len() as u64;
    if halts(react, violations) {
        let last = LastText {
            text: halt_text(alloc, collection.number, violations)?,
            violated: true,
        };
        Ok(Taken::Halts(Due::Lines(collection), last))
    } else {
        Ok(Taken::GoesOn(Some(Due::Lines(collection))))
    }
}

/// The last text where the trace ends behind so many collections with so many violations.
pub fn end_text_of(
    alloc: Global,
    collections: u64,
    violations: u64,
) -> Result<LastText, OutOfMemory>
    ensures { IfOk result (IsLast (end_of (record { collections = collections; violations = violations }))) }
{
    Ok(LastText {
        text: end_text(alloc, collections, violations)?,
        violated: violations > 0,
    })
}
