ghost use Rattle.std.specs.Prelude.{◌≡◌, ◌<◌, ◌≤◌};
ghost use Rattle.std.specs.Option.{ForSome, ForNone};
ghost use Rattle.heap_base.specs.declared.limits.TheConstants.{MOST_WORKERS};

use crate::shared_words::SharedWords;

/// A header word for each cell, which several threads share, each with a pass of its own. The words of a single pass lie with it.
/// Contracts see how many cells there are.
#[derive(Drop)]
pub struct Headers {
    // Where there is one pass alone there is none: its words are its own.
    pub(crate) shared: Option<SharedWords>,
    pub(crate) cells: u32,
    // How many passes were made with it.
    pub(crate) workers: u32,
    ghost sized: { ForSome shared (λ s. s.cells ≡ cells) },
    ghost alone: { ForNone shared (workers ≡ 1) },
    ghost some: { 0 < workers },
    ghost few: { workers ≤ MOST_WORKERS },
}
