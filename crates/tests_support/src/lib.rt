//! What tests of several crates set up in the same way: names, ids, sample heaps, gates, and jobs that count what they
//! do. No program stands on it.
#![tactic(auto)]

mod apart;
mod cells;
mod counters;
mod gates;
mod heaps;
mod host;
mod names;
mod path_heaps;

pub use apart::table_apart;
pub use cells::{cell, flags};
pub use counters::{Cells, Counter, Shape, are_seen, first_tasks, new_counters, times_seen};
pub use gates::{Hold, Holding, UNTIL_BOTH_BEGIN, UntilOneIsStolen, Watch, until_many_are_begun};
pub use heaps::{SampleHeap, registry_of, roles_in, roles_of, table_of};
pub use host::Host;
pub use names::{id, name};
pub use path_heaps::{
    BOOK, DIAMOND, EMPTY_POOL, ENTRY, LEAF, LIST, LOST_ENTRY, MAP, NESTED_OWNERS, PAIR, POOLS,
    TWICE, WEAK_ENTRY,
};
