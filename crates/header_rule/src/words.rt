ghost use Rattle.std.specs.Prelude.{◌≡◌, ◌+◌};
ghost use Rattle.header_rule.specs.Stores.{many_words};

use crate::store::WordStore;

/// The header words after the last meet. Contracts see how many cells there are, and the word of each.
#[derive(Drop)]
pub struct Words {
    pub(crate) store: WordStore,
    pub(crate) cells: u32,
    ghost sized: { many_words store ≡ cells + 1 },
}
