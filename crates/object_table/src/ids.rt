ghost use Rattle.std.specs.Prelude.{◌≡◌, ◌↔◌, ◌-◌, ◌<◌, ◌≤◌, ◌++◌, ◌∷◌, [], All, length, take, drop, filter, Some, OnOk, OnErr, IfSome, IsTrue, slice_get, IfOk};
ghost use Rattle.std.specs.Map.{lookup};
ghost use Rattle.std.specs.Ordering.{nat_cmp};
ghost use Rattle.std.specs.BTreeMap.{is_at};
ghost use Rattle.object_table.specs.Residents.{is_flagged};
ghost use Rattle.object_table.specs.Located.{RisesById, is_marked_id};

use crate::directory::Directory;
use crate::slot::is_flagged;
use heap_base::{ObjId, OutOfMemory};
use std::alloc::Global;
use std::marker::Model;

// So many ids are passed in search of one that mostly stands a little behind the one before.
const MOST_PASSED: usize = 4;

/// The ids of the live objects, rising, each with the cell of its object. Contracts see the list of those pairs.
#[derive(Drop)]
pub struct Ids {
    entries: Vec<(ObjId, u32)>,
    directory: Directory,
}

impl Model for Ids {
    ghost use Rattle.std.specs.Prelude.{List, ℕ};

    ghost Value = { List (ℕ × ℕ) };

    ghost view = { λ i. i.entries.items };
}

impl Ids {
    /// No id.
    pub fn make(alloc: Global) -> Ids
        ensures { result ≡ [] }
    {
        Ids {
            entries: Vec::new(alloc),
            directory: Directory::make(alloc),
        }
    }

    /// Equal ids, with equal cells.
    pub fn copy(&self) -> Result<Ids, OutOfMemory>
        ensures { IfOk result (λ i. i ≡ self.now) }
    {
        Ok(Ids {
            entries: self.entries.to_vec(*self.entries.allocator())?,
            directory: self.directory.copy()?,
        })
    }

    /// How many ids there are.
    pub fn len(&self) -> usize
        ensures { result ≡ length self.now }
    {
        self.entries.len()
    }

    /// The cell of the id, and `None` where the id is not there.
    pub fn find(&self, id: ObjId) -> Option<u32>
        requires { RisesById self.now }
        ensures { result ≡ lookup (is_at (nat_cmp id)) self.now }
    {
        self.find_number(id.number())
    }

    /// The cell of the id with this number, and `None` where it is not there.
    pub fn find_number(&self, number: u32) -> Option<u32>
        requires { RisesById self.now }
        ensures { result ≡ lookup (is_at (nat_cmp number)) self.now }
    {
        match self.find_without_gaps(number) {
            Some(cell) => Some(cell),
            None => self.find_near(number),
        }
    }

    /// What `find` answers, for ids that rise from call to call: where a number is missing, a search from this place on comes first, which passes
    /// a few ids. It leaves the place where it ended.
    pub fn find_from(&self, id: ObjId, place: &mut usize) -> Option<u32>
        requires { RisesById self.now }
        ensures { result ≡ lookup (is_at (nat_cmp id)) self.now }
    {
        let number = id.number();
        if let Some(cell) = self.find_without_gaps(number) {
            return Some(cell);
        }
        match self.find_close(number, place) {
            Some(cell) => Some(cell),
            None => self.find_near(number),
        }
    }

    // The cell of the id with this number, if it is one of the next few from this place on.
    fn find_close(&self, number: u32, place: &mut usize) -> Option<u32>
        requires { RisesById self.now }
        ensures { IfSome result (λ cell. lookup (is_at (nat_cmp number)) self.now ≡ Some cell) }
    {
        for _ in 0..MOST_PASSED {
            let (id, cell) = *self.entries.get(*place)?;
            if id.number() >= number {
                return if id.number() == number {
                    Some(cell)
                } else {
                    None
                };
            }
            *place += 1;
        }
        None
    }

    // The same where a number is missing between the first id and the last. It stands by itself so that the short way above
    // is short where it is called.
    #[inline(never)]
    fn find_near(&self, number: u32) -> Option<u32>
        requires { RisesById self.now }
        ensures { result ≡ lookup (is_at (nat_cmp number)) self.now }
    {
        let near = self.near(number);
        match near.binary_search_by_key(&number, |entry| entry.0.number()) {
            Ok(place) => Some(near[place].1),
            Err(_) => None,
        }
    }

    // The cell of the id with this number, where no number between the first id and the last is missing: the id then stands as
    // far behind the first as its number is above that. It answers `None` too where a number is missing.
    #[inline(always)]
    fn find_without_gaps(&self, number: u32) -> Option<u32>
        requires { RisesById self.now }
        ensures { IfSome result (λ cell. lookup (is_at (nat_cmp number)) self.now ≡ Some cell) }
    {
        let first = self.entries.first()?.0.number();
        let last = self.entries.last()?.0.number();
        if last.wrapping_sub(first) as usize + 1 != self.entries.len() {
            return None;
        }
        // a number below the first wraps to a place behind the last
        let entry = self.entries.get(number.wrapping_sub(first) as usize)?;
        if entry.0.number() == number {
            Some(entry.1)
        } else {
            None
        }
    }

    /// Whether the object whose id has this number stands in a marked cell.
    pub fn is_marked(&self, number: u32, marked: &[bool]) -> bool
        requires { RisesById self.now }
        ensures { result ≡ is_marked_id self.now marked.now number }
    {
        match self.find_number(number) {
            Some(cell) => is_flagged(marked, cell),
            None => false,
        }
    }

    // A part of the list in which the id with this number stands, where it stands in the list: mostly a short one.
    fn near(&self, number: u32) -> &[(ObjId, u32)]
        requires { RisesById self.now }
        ensures rising { RisesById result.now }
        ensures same { lookup (is_at (nat_cmp number)) result.now ≡ lookup (is_at (nat_cmp number)) self.now }
    {
        let (begin, end) = self.directory.guess(number, self.entries.len());
        let begin = self.begin(begin, number);
        let end = self.end(end, number);
        &self.entries[begin..end]
    }

    // The place, or 0 where the id may stand before it.
    fn begin(&self, place: usize, number: u32) -> usize
        requires rising { RisesById self.now }
        requires in_range { place ≤ length self.now }
        ensures bound { result ≤ place }
        ensures below { All (λ e. e.0 < number) (take result self.now) }
    {
        if place > 0 && self.entries[place - 1].0.number() >= number {
            0
        } else {
            place
        }
    }

    // The place, or the end of the list where the id may stand from it on.
    fn end(&self, place: usize, number: u32) -> usize
        requires rising { RisesById self.now }
        requires in_range { place ≤ length self.now }
        ensures bound { (place ≤ result) × (result ≤ length self.now) }
        ensures above { All (λ e. number < e.0) (drop result self.now) }
    {
        if place < self.entries.len() && self.entries[place].0.number() <= number {
            self.entries.len()
        } else {
            place
        }
    }

    /// The cell of the id at a place.
    pub fn cell(&self, place: usize) -> u32
        requires { place < length self.now }
        ensures { IfSome (slice_get self.now place) (λ e. result ≡ e.1) }
    {
        self.entries[place].1
    }

    /// The place of the first id that is above this number, and the end of the list where none is.
    pub fn first_above(&self, number: u32) -> usize
        requires { RisesById self.now }
        ensures bound { result ≤ length self.now }
        ensures before { All (λ e. e.0 ≤ number) (take result self.now) }
        ensures after { All (λ e. number < e.0) (drop result self.now) }
    {
        let mut place = self.entries.len();
        while place > 0 && self.entries[place - 1].0.number() > number {
            place -= 1;
        }
        place
    }

    /// Puts an id last, with its cell.
    pub fn push(&mut self, id: ObjId, cell: u32) -> Result<(), OutOfMemory>
        ensures last { OnOk result (self.new ≡ self.old ++ (id, cell) ∷ []) }
        ensures err { OnErr result (self.new ≡ self.old) }
    {
        self.directory.add(id, &self.entries)?;
        Ok(self.entries.push((id, cell))?)
    }

    /// Takes the last id away.
    pub fn pop(&mut self)
        ensures { self.new ≡ take (length self.old - 1) self.old }
    {
        self.entries.pop();
    }

    /// Whether the cells of all ids are kept.
    pub fn are_kept(&self, kept: &[bool]) -> bool
        ensures { IsTrue result ↔ All (λ e. IsTrue (is_flagged kept.now e.1)) self.now }
    {
        self.entries.iter().all(|entry| is_flagged(kept, entry.1))
    }

    /// Takes the ids away whose cells are not kept.
    pub fn keep(&mut self, kept: &[bool])
        ensures { self.new ≡ filter (λ e. is_flagged kept.now e.1) self.old }
    {
        let before = self.entries.len();
        self.entries.retain(|entry| is_flagged(kept, entry.1));
        self.directory.keep(before, &self.entries);
    }

    /// Takes the ids away from this place on whose cells are not kept. Those before it are.
    pub fn keep_from(&mut self, first: usize, kept: &[bool])
        requires within { first ≤ length self.old }
        requires earlier { All (λ e. IsTrue (is_flagged kept.now e.1)) (take first self.old) }
        ensures { self.new ≡ filter (λ e. is_flagged kept.now e.1) self.old }
    {
        let end = compact(&mut self.entries, first, kept);
        self.entries.truncate(end);
        self.directory.keep_from(first, &self.entries);
    }
}

// Moves the entries from this place on whose cells are kept forward, behind those before it, all of which are kept. It
// answers where the last of them ends.
fn compact(entries: &mut [(ObjId, u32)], first: usize, kept: &[bool]) -> usize
    requires within { first ≤ length entries.old }
    requires earlier { All (λ e. IsTrue (is_flagged kept.now e.1)) (take first entries.old) }
    ensures { take result entries.new ≡ filter (λ e. is_flagged kept.now e.1) entries.old }
{
    let mut end = first;
    for place in first..entries.len() {
        let entry = entries[place];
        if is_flagged(kept, entry.1) {
            entries[end] = entry;
            end += 1;
        }
    }
    end
}
