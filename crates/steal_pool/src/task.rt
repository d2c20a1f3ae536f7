/// A piece of a worker's work: a cell to scan, and the tag that the scan carries on.
#[derive(Clone, Copy, Debug, PartialEq, Eq)]
pub struct Task {
    pub cell: u32,
    pub tag: u32,
}
