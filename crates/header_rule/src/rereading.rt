//! The words of headers that stay: all passes become one seat, which reads each word; or the only pass gives its words.
ghost use Rattle.std.specs.Prelude.{◌≡◌, ℕ, ◌<◌, IfOk};
ghost use Rattle.heap_base.specs.Counting.{bit, is_positive};
ghost use Rattle.header_rule.specs.declared.mark.Mark.{Mark};
ghost use Rattle.header_rule.specs.ClosedWords.{count_in, has_mark_in};
ghost use Rattle.header_rule.specs.Passes.{ArePassesOf, AreAllSeats, all_adds, all_wins, all_marks};
ghost use Rattle.header_rule.specs.Told.{TellOf};
ghost use Rattle.header_rule.specs.Views.{TellsWord};

use crate::closing::{joined, words_of_one};
use crate::headers::Headers;
use crate::pass::Pass;
use crate::shared_words::SharedWords;
use crate::steps::ReadWord;
use crate::store::WordStore;
use crate::view::View;
use crate::words::Words;
use atomic_table::Seat;
use heap_base::OutOfMemory;
use std::alloc::Global;

impl SharedWords {
    // The word with this number, by a seat that has all the rights.
    fn read(&self, whole: &mut Seat<(), View>, word: usize) -> u64
        requires word { word < self.now.table.shared.table_id.words }
        requires table { whole.old.table_id ≡ self.now.table.shared.table_id }
        requires rights { whole.old.me.0.rights ≡ 16 }
        ensures table { whole.new.table_id ≡ whole.old.table_id }
        ensures same { whole.new.me ≡ whole.old.me }
        ensures tells { TellsWord word result whole.old.me.0 }
    {
        self.table.shared.load::<ReadWord>(whole, word)
    }

    fn read_all(&self, alloc: Global, passes: Vec<Pass>) -> Result<Words, OutOfMemory>
        requires { AreAllSeats self.now passes.items }
        ensures cells { IfOk result (λ w. w.cells ≡ self.now.cells) }
        ensures tell { IfOk result (λ w. TellOf passes.items w) }
    {
        let many = self.table.word_count();
        let mut words = Vec::with_capacity(alloc, many)?;
        let mut whole = joined(self, passes);
        for word in 0..many {
            words.push_reserved(self.read(&mut whole, word));
        }
        Ok(Words {
            store: WordStore::Read(words),
            cells: self.cells,
        })
    }
}

impl Headers {
    /// The words that `close` would give, of headers that stay: nobody meets any more, since it asks for all the
    /// passes that `make` gave, in order. It reads each word once. Answers `OutOfMemory` when memory runs out;
    /// the passes are let go then.
    pub fn read_all(&self, alloc: Global, passes: Vec<Pass>) -> Result<Words, OutOfMemory>
        requires passes { ArePassesOf self.now passes.items }
        ensures cells { IfOk result (λ w. w.cells ≡ self.now.cells) }
        ensures counts { IfOk result (λ w. (x : ℕ) → x < self.now.cells → count_in w x ≡ all_adds x passes.items) }
        ensures marks { IfOk result (λ w. (m : Mark) (x : ℕ) → x < self.now.cells → has_mark_in m w x ≡ is_positive (all_marks m x passes.items)) }
        ensures wins { IfOk result (λ w. (x : ℕ) → all_wins x passes.items ≡ bit (is_positive (all_adds x passes.items))) }
    {
        match &self.shared {
            Some(shared) => shared.read_all(alloc, passes),
            None => Ok(words_of_one(passes, self.cells)),
        }
    }
}
