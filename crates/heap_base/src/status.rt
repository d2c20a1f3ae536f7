/// How a run of a program ended. The numbers 0 to 6, in this order, are the exit statuses.
#[derive(Clone, Copy, Debug, PartialEq, Eq)]
pub enum Status {
    /// The trace was read to its end, no line was refused, and no assertion was violated.
    Clean,
    /// The trace was read to its end, no line was refused, and some assertion was violated.
    Violated,
    /// A line of the trace was refused.
    TraceFault,
    /// A read failed.
    ReadFault,
    /// A write failed.
    WriteFault,
    /// Out of memory.
    NoMemory,
    /// The words of the command line were refused.
    Usage,
}
