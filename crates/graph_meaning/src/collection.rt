use crate::lists::Sequence;
use crate::paths::Shown;
use heap_base::Name;

/// A violated assertion.
#[derive(Debug, Drop)]
pub enum Verdict {
    /// The object was asserted dead and is reached.
    Dead {
        id: u32,
        kind: Name,
        path: Shown,
    },
    /// `found` objects of the type are reached, more than its limit.
    Instances {
        kind: Name,
        limit: u32,
        found: u32,
        path: Shown,
    },
    /// The object was asserted unshared and has `refs` references, two or more.
    Unshared {
        id: u32,
        kind: Name,
        refs: u64,
        first: Shown,
        second: Shown,
    },
    /// The object is reached otherwise than through its owner, which `gone` says was freed.
    OwnedBy {
        id: u32,
        kind: Name,
        owner: u32,
        gone: bool,
        path: Shown,
    },
}

/// The verdicts of a collection, in order.
pub type VerdictList = Sequence<Verdict>;

/// What a collection found: its number from 1, how many objects were live before it, how many were reached
/// and stay, how many were freed, how many slots and roots were cleared, and the violated assertions.
#[derive(Debug, Drop)]
pub struct Collection {
    pub number: u64,
    pub live: u32,
    pub traced: u32,
    pub freed: u32,
    pub cleared: u32,
    pub verdicts: VerdictList,
}
