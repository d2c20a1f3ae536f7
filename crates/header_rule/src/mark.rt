/// A mark of a cell.
#[derive(Clone, Copy, Debug, PartialEq, Eq)]
pub enum Mark {
    /// The cell's owner found it.
    Found,
    /// An owner that is not the cell's met it.
    Disputed,
    /// The phase from the roots met it.
    MetByRoots,
}

/// The marks that a meet sets. A mark that is set stays set.
#[derive(Clone, Copy, Debug, PartialEq, Eq)]
pub struct Marks {
    pub found: bool,
    pub disputed: bool,
    pub met_by_roots: bool,
}
