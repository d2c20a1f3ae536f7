//! The limits of a trace and of the heap that it describes. Each is said here, and nowhere else: code, contracts
//! and definitions cite these constants.
ghost use Rattle.std.specs.Prelude.{◌≡◌};
ghost use Rattle.heap_base.specs.Limits.{ArePossible, usual_limits, large_limits};

/// A line has at most so many bytes, without its newline.
pub const LONGEST_LINE: usize = 65_536;

/// A trace has at most so many bytes: 2^40.
pub const LONGEST_TRACE: u64 = 1_099_511_627_776;

/// A name of a type or of a root has at most so many bytes.
pub const LONGEST_NAME: usize = 256;

/// Threads have the numbers below this.
pub const MOST_THREADS: u32 = 1_024;

/// So many regions of one thread may be open.
pub const MOST_REGIONS: usize = 64;

/// No heap has more live objects, whatever its limits are: a slot holds the number of a cell in 31 bits, with room to spare.
pub const MOST_OBJECTS: u32 = 134_217_728;

/// The live objects of no heap have more slots together, whatever its limits are: their number and that of the roots fit four bytes.
pub const MOST_SLOTS: u32 = 1_073_741_824;

/// No heap has more roots at one time, whatever its limits are.
pub const MOST_ROOTS: u32 = 1_048_576;

/// So many objects may be live under the usual limits.
pub const USUAL_OBJECTS: u32 = 1_048_576;

/// Under the usual limits the live objects may have so many slots together.
pub const USUAL_SLOTS: u32 = 16_777_216;

/// Under the usual limits there may be so many roots at one time.
pub const USUAL_ROOTS: u32 = 65_536;

/// So many types may be seen in a trace.
pub const MOST_KINDS: u32 = 65_536;

/// So many workers may trace a heap.
pub const MOST_WORKERS: u32 = 16;

/// A collection shows paths with so many of its violations, where nothing else is asked for.
pub const USUAL_PATHS: u32 = 100;

/// Of a path of more than twice as many steps, so many of the first and so many of the last are shown.
pub const END_STEPS: u32 = 32;

/// What a heap may hold at one time: how many live objects, how many slots these have together, and how many roots. An operation
/// that would pass one of them is refused.
#[derive(Clone, Copy, Debug, PartialEq, Eq)]
pub struct Limits {
    pub objects: u32,
    pub slots: u32,
    pub roots: u32,
}

impl Limits {
    /// The limits of gcaudit: 1,048,576 objects, 16,777,216 slots and 65,536 roots.
    pub fn usual() -> Limits
        ensures limits { result ≡ usual_limits }
        ensures possible { ArePossible result }
    {
        Limits {
            objects: USUAL_OBJECTS,
            slots: USUAL_SLOTS,
            roots: USUAL_ROOTS,
        }
    }

    /// The largest limits: 134,217,728 objects, 1,073,741,824 slots and 1,048,576 roots.
    pub fn large() -> Limits
        ensures limits { result ≡ large_limits }
        ensures possible { ArePossible result }
    {
        Limits {
            objects: MOST_OBJECTS,
            slots: MOST_SLOTS,
            roots: MOST_ROOTS,
        }
    }
}
