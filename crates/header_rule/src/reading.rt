//! What the words say of a cell.
ghost use Rattle.std.specs.Prelude.{◌≡◌, ◌<◌};
ghost use Rattle.header_rule.specs.declared.mark.Mark.TheVariants.{Found, Disputed, MetByRoots};
ghost use Rattle.header_rule.specs.ClosedWords.{word_in, count_in, has_mark_in};

use crate::layout::{count, is_set};
use crate::mark::Mark;
use crate::store::WordStore;
use crate::words::Words;

impl Words {
    fn word(&self, cell: u32) -> u64
        requires { cell < self.now.cells }
        ensures { result ≡ word_in self.now cell }
    {
        let word = cell as usize + 1;
        match &self.store {
            WordStore::Closed(table) => table.closed.word(word),
            WordStore::Read(words) => words[word],
        }
    }

    /// How often the cell was met.
    pub fn count(&self, cell: u32) -> u64
        requires cell { cell < self.now.cells }
        ensures count { result ≡ count_in self.now cell }
    {
        count(self.word(cell))
    }

    /// Whether some meet of the cell set the mark found.
    pub fn found(&self, cell: u32) -> bool
        requires cell { cell < self.now.cells }
        ensures found { result ≡ has_mark_in Found self.now cell }
    {
        is_set(self.word(cell), Mark::Found)
    }

    /// Whether some meet of the cell set the mark disputed.
    pub fn disputed(&self, cell: u32) -> bool
        requires cell { cell < self.now.cells }
        ensures disputed { result ≡ has_mark_in Disputed self.now cell }
    {
        is_set(self.word(cell), Mark::Disputed)
    }

    /// Whether some meet of the cell set the mark met by roots.
    pub fn met_by_roots(&self, cell: u32) -> bool
        requires cell { cell < self.now.cells }
        ensures met_by_roots { result ≡ has_mark_in MetByRoots self.now cell }
    {
        is_set(self.word(cell), Mark::MetByRoots)
    }
}
