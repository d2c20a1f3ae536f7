ghost use Rattle.std.specs.Prelude.{◌≡◌};
ghost use Rattle.report_check.specs.declared.outcome.CheckError.{CheckError};

use heap_base::OutOfMemory;
use streams::Failed;

/// Why a report could not be checked.
#[derive(Clone, Copy)]
pub enum CheckError {
    /// A read of the trace or of the report failed.
    ReadFault,
    /// Out of memory, or a place that can't be told.
    OutOfMemory,
}

impl From<Failed> for CheckError {
    ghost from_gives = { λ e r. r ≡ CheckError.ReadFault };

    fn from(_failed: Failed) -> CheckError {
        CheckError::ReadFault
    }
}

impl From<OutOfMemory> for CheckError {
    ghost from_gives = { λ e r. r ≡ CheckError.OutOfMemory };

    fn from(_refused: OutOfMemory) -> CheckError {
        CheckError::OutOfMemory
    }
}
