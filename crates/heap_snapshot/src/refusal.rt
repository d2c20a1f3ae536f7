ghost use Rattle.std.specs.Prelude.{◌≡◌};
ghost use Rattle.heap_snapshot.specs.declared.refusal.SnapError.{SnapError};

use heap_base::OutOfMemory;

/// Why the bytes are no snapshot, in the order in which the reasons are tried.
#[derive(Clone, Copy, Debug, PartialEq, Eq)]
pub enum SnapWhy {
    /// There are more than 268,435,456 bytes. The line is the one in which the first byte past them stands.
    TooLong,
    /// A whole line says nothing that may stand where it does. The line is the first such.
    BadLine,
    /// The last whole line isn't `end`, or bytes without a newline follow it. The line is the one behind the last whole
    /// line.
    Unended,
    /// A slot or a root holds this id, which no object has. The line is the first such.
    Dangling(u32),
}

/// Why a snapshot was not read: it is refused, in the line of this number, from 1, or memory ran out.
#[derive(Clone, Copy, Debug, PartialEq, Eq)]
pub enum SnapError {
    Refused { line: u64, why: SnapWhy },
    OutOfMemory,
}

impl From<OutOfMemory> for SnapError {
    ghost from_gives = { λ _ error. error ≡ SnapError.OutOfMemory };

    fn from(_: OutOfMemory) -> SnapError {
        SnapError::OutOfMemory
    }
}
