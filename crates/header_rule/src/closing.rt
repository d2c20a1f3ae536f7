//! The close: all passes become one seat, which knows all that was met; or the only pass gives its words.
ghost use Rattle.std.specs.Prelude.{◌≡◌, ℕ, ◌<◌, []};
ghost use Rattle.heap_base.specs.Counting.{bit, is_positive, times};
ghost use Rattle.header_rule.specs.declared.mark.Mark.{Mark};
ghost use Rattle.header_rule.specs.Views.{times_marked};
ghost use Rattle.header_rule.specs.Passes.{HasSeat, ArePassesOf, AreAllSeats, IsAlone, all_adds, all_wins, all_marks};
ghost use Rattle.header_rule.specs.Reaches.{view_of};
ghost use Rattle.header_rule.specs.Told.{TellOf};
ghost use Rattle.header_rule.specs.ClosedWords.{count_in, has_mark_in};

use crate::headers::Headers;
use crate::pass::Pass;
use crate::reach::Reach;
use crate::shared_words::SharedWords;
use crate::steps::Together;
use crate::store::{ClosedTable, WordStore};
use crate::view::View;
use crate::words::Words;
use atomic_table::Seat;

// One seat with all the rights and all that the passes met.
pub(crate) fn joined(shared: &SharedWords, mut passes: Vec<Pass>) -> Seat<(), View>
    requires { AreAllSeats shared.now passes.items }
    ensures table { result.table_id ≡ shared.now.table.shared.table_id }
    ensures rights { result.me.0.rights ≡ 16 }
    ensures adds { (x : ℕ) → times x result.me.0.adds ≡ all_adds x passes.items }
    ensures wins { (x : ℕ) → times x result.me.0.wins ≡ all_wins x passes.items }
    ensures marks { (m : Mark) (x : ℕ) → times_marked m x result.me.0.marks ≡ all_marks m x passes.items }
{
    let Some(last) = passes.pop() else {
        unreachable!()
    };
    let mut whole = shared.seat_of(last);
    while let Some(pass) = passes.pop() {
        let seat = shared.seat_of(pass);
        let table = &shared.table.shared;
        table.join_seat::<Together>(&mut whole, seat);
    }
    whole
}

// The words of the only pass.
pub(crate) fn words_of_one(mut passes: Vec<Pass>, cells: u32) -> Words
    requires { IsAlone cells passes.items }
    ensures cells { result.cells ≡ cells }
    ensures tell { TellOf passes.items result }
{
    let Some(pass) = passes.pop() else {
        unreachable!()
    };
    let Pass { reach, .. } = pass;
    let Reach::Own(own) = reach else {
        unreachable!()
    };
    let store = WordStore::Read(own.into_words());
    Words { store, cells }
}

impl SharedWords {
    // The seat that a pass has on the table.
    fn seat_of(&self, pass: Pass) -> Seat<(), View>
        requires { HasSeat self.now pass }
        ensures table { result.table_id ≡ self.now.table.shared.table_id }
        ensures me { result.me ≡ (view_of pass.reach, []) }
    {
        let Pass { reach, .. } = pass;
        let Reach::Table(seat) = reach else {
            unreachable!()
        };
        seat
    }

    fn close(self, passes: Vec<Pass>) -> Words
        requires { AreAllSeats self passes.items }
        ensures cells { result.cells ≡ self.cells }
        ensures tell { TellOf passes.items result }
    {
        let seat = joined(&self, passes);
        let SharedWords { table, cells } = self;
        let closed = table.close_with(seat);
        let store = WordStore::Closed(ClosedTable { closed });
        Words { store, cells }
    }
}

impl Headers {
    /// The words, once nobody meets any more. It asks for all the passes that `make` gave, in order. The count
    /// of each cell is how often it stands in the adds of all passes; a mark is set exactly where some pass set
    /// it; and each cell that was met stands in all wins together exactly once.
    pub fn close(self, passes: Vec<Pass>) -> Words
        requires passes { ArePassesOf self passes.items }
        ensures cells { result.cells ≡ self.cells }
        ensures counts { (x : ℕ) → x < self.cells → count_in result x ≡ all_adds x passes.items }
        ensures marks { (m : Mark) (x : ℕ) → x < self.cells
            → has_mark_in m result x ≡ is_positive (all_marks m x passes.items) }
        ensures wins { (x : ℕ) → all_wins x passes.items ≡ bit (is_positive (all_adds x passes.items)) }
    {
        let Headers { shared, cells, .. } = self;
        match shared {
            Some(shared) => shared.close(passes),
            None => words_of_one(passes, cells),
        }
    }
}
