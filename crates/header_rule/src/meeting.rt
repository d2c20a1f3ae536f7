//! A meet, and a look ahead of it.
ghost use Rattle.std.specs.Prelude.{◌≡◌, ◌+◌, ◌<◌, [], ◌∷◌, ◌++◌, if◌then◌else◌};
ghost use Rattle.heap_base.specs.Counting.{IsOnce};
ghost use Rattle.header_rule.specs.Passes.{adds, wins, marks, IsPassOf, IsAsBefore, marks_at, are_shared};

use crate::headers::Headers;
use crate::mark::Marks;
use crate::pass::Pass;
use crate::reach::Reach;

impl Headers {
    /// Whether several passes may reach the words, so that each meet is one atomic step and waits for its word by itself.
    #[inline]
    pub fn are_shared(&self) -> bool
        ensures { result ≡ are_shared self.now }
    {
        self.shared.is_some()
    }

    /// Looks at the word of a cell and changes nothing, where the words are shared: a meet that comes soon finds the word at hand,
    /// since looks overlap with one another. Where they aren't, meets overlap too, and nothing is looked at.
    #[inline]
    pub fn prefetch(&self, pass: &mut Pass, cell: u32)
        requires cell { cell < self.now.cells }
        requires pass { IsPassOf self.now pass.old }
        ensures pass { IsPassOf self.now pass.new }
        ensures same { IsAsBefore pass.old pass.new }
    {
        if let Reach::Table(seat) = &mut pass.reach {
            let Some(shared) = &self.shared else {
                unreachable!()
            };
            shared.prefetch(seat, cell);
        }
    }

    /// Meets a cell: adds 1 to its count and sets the marks that are given. Answers true exactly where this add
    /// found the count 0, so that of all the meets of a cell, by whatever passes, one answers true. It takes no
    /// memory, and waits for nobody.
    #[inline]
    pub fn meet(&self, pass: &mut Pass, cell: u32, given: Marks) -> bool
        requires cell { cell < self.now.cells }
        requires pass { IsPassOf self.now pass.old }
        requires left { 0 < pass.old.left }
        ensures pass { IsPassOf self.now pass.new }
        ensures number { pass.new.number ≡ pass.old.number }
        ensures left { pass.new.left + 1 ≡ pass.old.left }
        ensures adds { adds pass.new ≡ adds pass.old ++ cell ∷ [] }
        ensures wins { wins pass.new ≡ (if result then wins pass.old ++ cell ∷ [] else wins pass.old) }
        ensures marks { marks pass.new ≡ marks pass.old ++ marks_at cell given }
        ensures once { IsOnce (wins pass.new) }
    {
        let won = match &mut pass.reach {
            Reach::Table(seat) => {
                let Some(shared) = &self.shared else {
                    unreachable!()
                };
                shared.meet(seat, cell, given)
            }
            Reach::Own(own) => own.meet(cell, given),
        };
        pass.left -= 1;
        won
    }
}
