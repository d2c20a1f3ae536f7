/// What an audit does about violated assertions, besides reporting them.
#[derive(Clone, Copy, Debug, PartialEq, Eq)]
pub enum React {
    /// Nothing: the run goes on to the end of the trace.
    Report,
    /// The run ends with the first collection that finds a violation.
    Halt,
    /// Each object that was asserted dead and is reached is cut off: no slot and no root holds it after the collection.
    Force,
}
