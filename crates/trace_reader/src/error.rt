/// Why a cutter gives no line.
#[derive(Clone, Copy, Debug, PartialEq, Eq)]
pub enum CutError {
    /// A read of the source failed. The bytes that were taken stay in the cutter, and a later call goes on.
    ReadFault,
    /// The line has more than `LONGEST_LINE` bytes, without its newline. Each later call answers the same.
    LineTooLong,
    /// The trace is longer than its limit. Each later call answers the same.
    TraceTooLong,
}
