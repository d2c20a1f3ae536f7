//! What two traces of one heap have in common.
ghost use Rattle.std.specs.Prelude.{◌≡◌, ◌<◌, ℕ, length, nat_le, slice_index, IsTrue};
ghost use Rattle.header_rule.specs.ClosedWords.{count_in, has_mark_in};
ghost use Rattle.header_rule.specs.declared.mark.Mark.TheVariants.{Found, MetByRoots};

use audit_core::Traced;
use header_rule::Words;

// Whether the words say the same of a cell, but for how often it was met where that is twice or more.
fn agree_at(made: &Words, real: &Words, cell: u32) -> bool
    requires made { cell < made.now.cells }
    requires real { cell < real.now.cells }
    ensures many { IsTrue result → nat_le 2 (count_in made.now cell) ≡ nat_le 2 (count_in real.now cell) }
    ensures found { IsTrue result → has_mark_in Found made.now cell ≡ has_mark_in Found real.now cell }
    ensures met { IsTrue result → has_mark_in MetByRoots made.now cell ≡ has_mark_in MetByRoots real.now cell }
{
    (made.count(cell) >= 2) == (real.count(cell) >= 2)
        && made.found(cell) == real.found(cell)
        && made.met_by_roots(cell) == real.met_by_roots(cell)
}

fn agree_on_words(made: &Words, real: &Words, cells: u32) -> bool
    requires made { cells ≡ made.now.cells }
    requires real { cells ≡ real.now.cells }
    ensures many { IsTrue result → (cell : ℕ) → cell < cells → nat_le 2 (count_in made.now cell) ≡ nat_le 2 (count_in real.now cell) }
    ensures found { IsTrue result → (cell : ℕ) → cell < cells → has_mark_in Found made.now cell ≡ has_mark_in Found real.now cell }
    ensures met { IsTrue result → (cell : ℕ) → cell < cells → has_mark_in MetByRoots made.now cell ≡ has_mark_in MetByRoots real.now cell }
{
    for cell in 0..cells {
        if !agree_at(made, real, cell) {
            return false;
        }
    }
    true
}

fn agree_on_types(made: &Traced, real: &Traced, kinds: u32) -> bool
    requires made { kinds ≡ length made.now.instances }
    requires real { kinds ≡ length real.now.instances }
    ensures { IsTrue result → (kind : ℕ) → kind < kinds → slice_index made.now.instances kind ≡ slice_index real.now.instances kind }
{
    for kind in 0..kinds {
        if made.instances(kind) != real.instances(kind) {
            return false;
        }
    }
    true
}

fn same_flags(made: &[bool], real: &[bool]) -> bool
    ensures { IsTrue result → made.now ≡ real.now }
{
    made == real
}

/// Whether the traces of two objects and two types say the same, but for how often an object was met where that is twice
/// or more.
pub(super) fn agrees(made: &Traced, real: &Traced) -> bool
    requires made { (made.now.words.cells ≡ 2) × (length made.now.instances ≡ 2) }
    requires real { (real.now.words.cells ≡ 2) × (length real.now.instances ≡ 2) }
    ensures kept { IsTrue result → made.now.kept ≡ real.now.kept }
    ensures traced { IsTrue result → made.now.traced ≡ real.now.traced }
    ensures instances { IsTrue result → (kind : ℕ) → kind < 2 → slice_index made.now.instances kind ≡ slice_index real.now.instances kind }
    ensures many { IsTrue result → (cell : ℕ) → cell < 2 → nat_le 2 (count_in made.now.words cell) ≡ nat_le 2 (count_in real.now.words cell) }
    ensures found { IsTrue result → (cell : ℕ) → cell < 2 → has_mark_in Found made.now.words cell ≡ has_mark_in Found real.now.words cell }
    ensures met { IsTrue result → (cell : ℕ) → cell < 2 → has_mark_in MetByRoots made.now.words cell ≡ has_mark_in MetByRoots real.now.words cell }
{
    same_flags(made.kept(), real.kept())
        && made.traced() == real.traced()
        && agree_on_types(made, real, 2)
        && agree_on_words(made.words(), real.words(), 2)
}
