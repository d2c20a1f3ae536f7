//! The heaps that several tests build.

use crate::heaps::SampleHeap;

const EMPTY: SampleHeap<'static> = SampleHeap::EMPTY;

/// Both slots of the pair hold the leaf.
pub const PAIR: SampleHeap<'static> = SampleHeap {
    objects: &[(1, "Pair", 2), (9, "Leaf", 1)],
    stores: &[(1, 0, 9), (1, 1, 9)],
    roots: &[("p", 1)],
    ..EMPTY
};

/// The leaf holds itself, and a root names it.
pub const LEAF: SampleHeap<'static> = SampleHeap {
    stores: &[(9, 0, 9)],
    roots: &[("p", 1), ("q", 9)],
    ..PAIR
};

/// The map and the cache hold the entry, which the map owns.
pub const ENTRY: SampleHeap<'static> = SampleHeap {
    objects: &[(1, "Map", 1), (2, "Cache", 1), (3, "Entry", 0)],
    stores: &[(1, 0, 3), (2, 0, 3)],
    roots: &[("c", 2), ("m", 1)],
    owned: &[(1, 3)],
    ..EMPTY
};

/// The map lost the entry.
pub const LOST_ENTRY: SampleHeap<'static> = SampleHeap {
    stores: &[(2, 0, 3)],
    ..ENTRY
};

/// The map holds the entry by a weak slot.
pub const WEAK_ENTRY: SampleHeap<'static> = SampleHeap {
    weak: &[(1, 0)],
    ..ENTRY
};

/// Nothing reaches the owner, whose ownee stands behind a page.
pub const BOOK: SampleHeap<'static> = SampleHeap {
    objects: &[(3, "Book", 1), (4, "Page", 1), (5, "Order", 0)],
    stores: &[(3, 0, 4), (4, 0, 5)],
    owned: &[(3, 5)],
    ..EMPTY
};

/// Nothing reaches the owner, which holds its ownee twice.
pub const TWICE: SampleHeap<'static> = SampleHeap {
    objects: &[(3, "Book", 2), (5, "Order", 0), (6, "Order", 0)],
    stores: &[(3, 0, 5), (3, 1, 5)],
    owned: &[(3, 5)],
    ..EMPTY
};

/// An ownee holds its owner and the other ownee.
pub const MAP: SampleHeap<'static> = SampleHeap {
    objects: &[(1, "Map", 2), (2, "Item", 2), (3, "Item", 0)],
    stores: &[(1, 0, 2), (1, 1, 3), (2, 0, 1), (2, 1, 3)],
    roots: &[("m", 1)],
    owned: &[(1, 2), (1, 3)],
    ..EMPTY
};

/// Two owners share an array.
pub const POOLS: SampleHeap<'static> = SampleHeap {
    objects: &[
        (1, "Pool", 2),
        (2, "Pool", 1),
        (3, "Array", 1),
        (4, "Job", 0),
        (5, "Job", 0),
    ],
    stores: &[(1, 0, 3), (1, 1, 5), (2, 0, 3), (3, 0, 4)],
    roots: &[("a", 1), ("b", 2), ("x", 4)],
    owned: &[(1, 5), (2, 4)],
    ..EMPTY
};

/// The second pool holds nothing.
pub const EMPTY_POOL: SampleHeap<'static> = SampleHeap {
    stores: &[(1, 0, 3), (1, 1, 5), (3, 0, 4)],
    ..POOLS
};

/// A list owns its nodes.
pub const LIST: SampleHeap<'static> = SampleHeap {
    objects: &[
        (1, "List", 1),
        (2, "Node", 1),
        (3, "Node", 1),
        (4, "Node", 0),
    ],
    stores: &[(1, 0, 2), (2, 0, 3), (3, 0, 4)],
    roots: &[("l", 1), ("x", 4)],
    owned: &[(1, 2), (1, 3), (1, 4)],
    ..EMPTY
};

/// Two ways of the same length lead to the end.
pub const DIAMOND: SampleHeap<'static> = SampleHeap {
    objects: &[(1, "Top", 2), (2, "Mid", 2), (3, "Mid", 2), (4, "End", 0)],
    stores: &[(1, 0, 3), (1, 1, 2), (3, 0, 4), (2, 1, 4)],
    roots: &[("r", 1)],
    ..EMPTY
};

/// An owner holds another owner, which holds the first one's ownee and its own.
pub const NESTED_OWNERS: SampleHeap<'static> = SampleHeap {
    objects: &[
        (1, "Outer", 1),
        (2, "Inner", 2),
        (3, "Item", 0),
        (4, "Item", 0),
    ],
    stores: &[(1, 0, 2), (2, 0, 3), (2, 1, 4)],
    roots: &[("o", 1)],
    owned: &[(1, 3), (2, 4)],
    ..EMPTY
};
