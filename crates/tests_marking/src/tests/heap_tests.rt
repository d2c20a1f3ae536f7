//! Small heaps, traced by few and many workers.

use super::traces::{
    FOUND_ONCE, FOUND_TWICE, KEPT_ONCE, KEPT_TWICE, MET_ONCE, MET_TWICE, UNTRACED, Wanted,
    check_heap,
};
use std::test::Fail;
use tests_support::{BOOK, ENTRY, Host, LEAF, LIST, LOST_ENTRY, MAP, PAIR, POOLS, SampleHeap};

const EMPTY: SampleHeap<'static> = SampleHeap::EMPTY;

// Nothing reaches the cycle.
const CYCLE: SampleHeap<'static> = SampleHeap {
    objects: &[(1, "Node", 1), (2, "Node", 1)],
    stores: &[(1, 0, 2), (2, 0, 1)],
    ..EMPTY
};

const BY_TYPE: SampleHeap<'static> = SampleHeap {
    objects: &[(1, "Config", 0), (2, "Order", 0), (4, "Config", 0)],
    roots: &[("a", 1), ("b", 4)],
    ..EMPTY
};

// A weak slot of the owner holds the ownee.
const WEAK: SampleHeap<'static> = SampleHeap {
    objects: &[(1, "A", 2), (2, "A", 0), (3, "A", 0)],
    stores: &[(1, 0, 2), (1, 1, 3)],
    weak: &[(1, 0)],
    roots: &[("a", 1)],
    owned: &[(1, 2)],
    ..EMPTY
};

// The owner 2 of 3 came later than 1.
const REPLACED: SampleHeap<'static> = SampleHeap {
    objects: &[(1, "A", 1), (2, "B", 1), (3, "C", 0)],
    stores: &[(1, 0, 3)],
    roots: &[("a", 1), ("b", 2)],
    owned: &[(1, 3), (2, 3)],
    ..EMPTY
};

// The ownee 2 of 1 owns 3.
const BOTH: SampleHeap<'static> = SampleHeap {
    objects: &[(1, "A", 1), (2, "A", 1), (3, "A", 0)],
    stores: &[(1, 0, 2), (2, 0, 3)],
    roots: &[("a", 1)],
    owned: &[(1, 2), (2, 3)],
    ..EMPTY
};

// The owner 3 was freed: 5 stays an ownee, and 4 holds it in vain.
const GONE: SampleHeap<'static> = SampleHeap {
    objects: &[(4, "Page", 1), (5, "Order", 0)],
    stores: &[(4, 0, 5)],
    roots: &[("k", 5)],
    owned: &[(3, 5)],
    ..EMPTY
};

// The owner 1 and its ownee 2 lead to one another, so that the owner is under itself.
const RING: SampleHeap<'static> = SampleHeap {
    objects: &[(1, "A", 1), (2, "A", 1)],
    stores: &[(1, 0, 2), (2, 0, 1)],
    owned: &[(1, 2)],
    ..EMPTY
};

static CASES: [(SampleHeap<'static>, Wanted<'static>); 17] = [
    (
        EMPTY,
        Wanted {
            objects: &[],
            instances: &[],
        },
    ),
    (
        CYCLE,
        Wanted {
            objects: &[(1, 2, UNTRACED)],
            instances: &[0],
        },
    ),
    (
        BY_TYPE,
        Wanted {
            objects: &[(1, 1, KEPT_ONCE), (2, 2, UNTRACED), (4, 4, KEPT_ONCE)],
            instances: &[2, 0],
        },
    ),
    (
        WEAK,
        Wanted {
            objects: &[(1, 1, KEPT_ONCE), (2, 2, UNTRACED), (3, 3, KEPT_ONCE)],
            instances: &[2],
        },
    ),
    // two slots hold the leaf
    (
        PAIR,
        Wanted {
            objects: &[(1, 1, KEPT_ONCE), (9, 9, KEPT_TWICE)],
            instances: &[1, 1],
        },
    ),
    // the leaf holds itself, and a root names it
    (
        LEAF,
        Wanted {
            objects: &[(1, 1, KEPT_ONCE), (9, 9, KEPT_TWICE)],
            instances: &[1, 1],
        },
    ),
    // the owner 1 holds the ownee 3, and so does 2
    (
        ENTRY,
        Wanted {
            objects: &[(1, 2, KEPT_ONCE), (3, 3, (2, true, Some(true), true))],
            instances: &[1, 1, 1],
        },
    ),
    // then 2 alone
    (
        LOST_ENTRY,
        Wanted {
            objects: &[(1, 2, KEPT_ONCE), (3, 3, MET_ONCE)],
            instances: &[1, 1, 1],
        },
    ),
    // nothing reaches the owner 3, and it may find its ownee by 4, which no owner owns
    (
        BOOK,
        Wanted {
            objects: &[
                (3, 3, UNTRACED),
                (4, 4, KEPT_ONCE),
                (5, 5, (1, true, None, false)),
            ],
            instances: &[0, 1, 1],
        },
    ),
    // the ownee 2 leads back to its owner 1, and on to its sibling 3
    (
        MAP,
        Wanted {
            objects: &[(1, 1, KEPT_TWICE), (2, 2, FOUND_ONCE), (3, 3, FOUND_TWICE)],
            instances: &[1, 2],
        },
    ),
    (
        REPLACED,
        Wanted {
            objects: &[(1, 2, KEPT_ONCE), (3, 3, MET_ONCE)],
            instances: &[1, 1, 1],
        },
    ),
    (
        BOTH,
        Wanted {
            objects: &[(1, 1, KEPT_ONCE), (2, 3, FOUND_ONCE)],
            instances: &[3],
        },
    ),
    (
        GONE,
        Wanted {
            objects: &[(4, 4, UNTRACED), (5, 5, MET_ONCE)],
            instances: &[0, 1],
        },
    ),
    (
        SampleHeap { roots: &[], ..GONE },
        Wanted {
            objects: &[(4, 5, UNTRACED)],
            instances: &[0, 0],
        },
    ),
    (
        RING,
        Wanted {
            objects: &[(1, 1, KEPT_ONCE), (2, 2, FOUND_ONCE)],
            instances: &[2],
        },
    ),
    // the owners 1 and 2 share the array 3, which holds an ownee of 2; either of them may come first to the array
    (
        POOLS,
        Wanted {
            objects: &[
                (1, 2, KEPT_ONCE),
                (3, 3, KEPT_TWICE),
                (4, 4, (2, true, None, true)),
                (5, 5, FOUND_ONCE),
            ],
            instances: &[2, 1, 2],
        },
    ),
    // the owner 1 has its three ownees in a list: it finds the first alone
    (
        LIST,
        Wanted {
            objects: &[
                (1, 1, KEPT_ONCE),
                (2, 2, FOUND_ONCE),
                (3, 3, KEPT_ONCE),
                (4, 4, MET_TWICE),
            ],
            instances: &[1, 3],
        },
    ),
];

#[test]
fn each_heap_is_traced_as_it_is_by_few_and_many(rt: HostRuntime) -> Result<(), Fail> {
    let host = Host::of(&rt, rt.alloc());
    for (heap, wanted) in &CASES {
        check_heap(&host, heap, wanted)?;
    }
    Ok(())
}
