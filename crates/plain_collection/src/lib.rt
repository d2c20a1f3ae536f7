//! A collection on one thread: what is traced is found level by level from roots and owners, references and instances are
//! counted one after another, and each ownee is asked for by a search from its owner.
#![tactic(auto)]

mod collecting;
mod instances;
mod kept;
mod plain_trace;
mod references;
mod verdicts;

pub use collecting::collect;
