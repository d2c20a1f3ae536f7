//! The words of a pass that has no other beside it.
ghost use Rattle.std.specs.Prelude.{◌≡◌, ◌+◌, ◌^◌, ◌<◌, length, IfOk};
ghost use Rattle.heap_base.specs.Counting.{IsOnce};
ghost use Rattle.header_rule.specs.Rule.{new_view};
ghost use Rattle.header_rule.specs.Steps.{after_meet};
ghost use Rattle.header_rule.specs.WholeWords.{TellsWords};

use crate::history::{History, OneMeet};
use crate::layout::{bits, count};
use crate::mark::Marks;
use heap_base::OutOfMemory;
use std::alloc::Global;
use std::marker::Model;

/// As a table has them: the opening word, and then the word of each cell. No other thread reaches them, so that a meet is a plain add.
#[derive(Drop)]
pub(crate) struct OwnWords {
    words: Vec<u64>,
    history: History,
}

impl Model for OwnWords {
    ghost use Rattle.header_rule.specs.OwnStates.{OwnState, KeepsOwn};

    ghost Value = { OwnState };

    ghost view = { λ o. record { words = o.words.items; view = o.history.view } };

    ghost invariant = { λ o. KeepsOwn (record { words = o.words.items; view = o.history.view }) };
}

impl OwnWords {
    /// Words of zero for so many cells.
    pub(crate) fn make(alloc: Global, cells: u32) -> Result<OwnWords, OutOfMemory>
        ensures words { IfOk result (λ o. length o.words ≡ cells + 1) }
        ensures view { IfOk result (λ o. o.view ≡ new_view 16) }
    {
        let mut words = vec![in alloc; 0u64; cells as usize + 1]?;
        words[0] = 1;
        Ok(OwnWords {
            words,
            history: History::new(),
        })
    }

    /// Meets a cell: adds 1 to its count and sets the marks that are given. Answers whether the count was 0.
    #[inline]
    pub(crate) fn meet(&mut self, cell: u32, given: Marks) -> bool
        requires cell { cell + 1 < length self.old.words }
        requires room { length self.old.view.adds < 2 ^ 55 }
        ensures words { length self.new.words ≡ length self.old.words }
        ensures met { self.new.view ≡ after_meet cell given result self.old.view }
        ensures once { IsOnce self.new.view.wins }
    {
        let word = cell as usize + 1;
        let found = self.words[word];
        self.words[word] = (found + 1) | bits(given);
        let won = count(found) == 0;
        self.history = History::with(&self.history, &OneMeet { cell, given, won });
        won
    }

    /// The words, with what they say of what was met.
    pub(crate) fn into_words(self) -> Vec<u64>
        ensures words { result.items ≡ self.words }
        ensures tell { TellsWords result.items self.view }
    {
        let OwnWords { words, .. } = self;
        words
    }
}
