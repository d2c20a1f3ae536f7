/// How the canonical path arrives at the object in a cell. At level 1 it comes by a source reference: by the
/// root with the number `from`, or by slot `slot` of the owner in the cell `from`. At a greater level it
/// comes by slot `slot` of the object in the cell `from`, which is of the level before.
#[derive(Clone, Copy, Debug, PartialEq, Eq)]
pub struct Arrival {
    /// The level, from 1, and 0 where the object has none.
    pub level: u32,
    pub from: u32,
    pub slot: u32,
}

/// No path arrives.
pub const NOWHERE: Arrival = Arrival {
    level: 0,
    from: 0,
    slot: 0,
};
