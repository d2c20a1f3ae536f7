/// Which phase of a trace a scan belongs to.
#[derive(Clone, Copy, Debug, PartialEq, Eq)]
pub enum Mode {
    /// The scans from the owners. They stop at owners and ownees.
    Owner,
    /// The scans that go on from the ownees which the owners' scans held.
    TakeUp,
    /// The scans from the roots.
    Root,
}
