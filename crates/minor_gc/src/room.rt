//! The cells of a nursery, and the memory that an object more may want.
ghost use Rattle.std.specs.Prelude.{◌≡◌, ◌+◌, ◌<◌, ◌≤◌, ℕ, [], false, length, take, slice_index_or, OnOk, vec_len, vec_capacity};
ghost use Rattle.minor_gc.specs.Searches.{marks_of};

use crate::search::Search;
use heap_base::{ObjId, OutOfMemory};

/// Takes memory for one object more than these, in one cell more.
pub fn reserve_one(
    search: &mut Search,
    counts: &mut Vec<u32>,
    remembered: &mut Vec<ObjId>,
    objects: u32,
) -> Result<(), OutOfMemory>
    ensures search { marks_of search.new ≡ marks_of search.old }
    ensures counts { counts.new.items ≡ counts.old.items }
    ensures remembered { remembered.new.items ≡ remembered.old.items }
    ensures grows { vec_capacity remembered.old ≤ vec_capacity remembered.new }
    ensures marks_room { OnOk result ((vec_len search.new.marks < vec_capacity search.new.marks) × (length search.new.marks.items < vec_capacity search.new.work)) }
    ensures counts_room { OnOk result (vec_len counts.new < vec_capacity counts.new) }
    ensures remembered_room { OnOk result (objects + 1 ≤ vec_capacity remembered.new) }
{
    search.reserve()?;
    counts.reserve(1)?;
    remembered.reserve(objects as usize + 1)?;
    Ok(())
}

/// Takes a cell more up, where there are so many cells now.
pub fn add_cells(search: &mut Search, counts: &mut Vec<u32>, cells: u32)
    requires each { length search.old.marks.items ≡ length counts.old.items }
    requires one { (length counts.old.items ≤ cells) × (cells ≤ length counts.old.items + 1) }
    requires marks_room { (vec_len search.old.marks < vec_capacity search.old.marks) × (length search.old.marks.items < vec_capacity search.old.work) }
    requires counts_room { vec_len counts.old < vec_capacity counts.old }
    ensures each_mark { length search.new.marks.items ≡ cells }
    ensures each_count { length counts.new.items ≡ cells }
    ensures marks { (cell : ℕ) → slice_index_or search.new.marks.items cell false ≡ slice_index_or search.old.marks.items cell false }
    ensures counts { (cell : ℕ) → slice_index_or counts.new.items cell 0 ≡ slice_index_or counts.old.items cell 0 }
    ensures work { search.new.work.items ≡ search.old.work.items }
{
    if cells as usize > counts.len() {
        search.add_cell();
        counts.push_reserved(0);
    }
}

/// Takes the cells behind the first so many away, where no search is under way.
pub fn drop_cells(search: &mut Search, counts: &mut Vec<u32>, cells: u32)
    requires { search.old.work.items ≡ [] }
    ensures marks { search.new.marks.items ≡ take cells search.old.marks.items }
    ensures counts { counts.new.items ≡ take cells counts.old.items }
    ensures work { search.new.work.items ≡ [] }
{
    search.drop_cells(cells);
    counts.truncate(cells as usize);
}
