ghost use Rattle.std.specs.Prelude.{◌≡◌, ℕ, List, ◌-◌, ◌<◌, ◌≤◌, ◌++◌, ◌∷◌, [], length, map, filter, drop, take, true, false};
ghost use Rattle.std.specs.Prelude.{IsTrue, OnOk, OnErr, MatchOption, All, AllPairs, slice_index_or, vec_len, vec_capacity};
ghost use Rattle.std.proofs.lemmas.List.Filters.{FiltersInPlace};
ghost use Rattle.graph_meaning.specs.Heap.{is_live};
ghost use Rattle.region_log.specs.Regions.{unused_thread, thread_with_region, thread_with_object, thread_without_region, thread_with_ids};
ghost use Rattle.region_log.specs.Regions.{start_kept, regions_from, outer_without, AreNested, AreStarts};

use heap_base::{ObjId, OutOfMemory};
use object_table::ObjectTable;
use std::alloc::Global;
use std::marker::Model;
use std::ops::Range;

/// The open regions of a thread, nested as a stack. Contracts see them, the innermost first, also with those ids alone that
/// were in no inner region when it ended, and whether the thread is reserved: whether there is memory to note one object
/// more in each.
#[derive(Drop)]
pub struct RegionStack {
    // the ids in the outermost region, in the order in which they were noted; an inner region has the last of them
    ids: Vec<ObjId>,
    // how many ids there were when each region began, the innermost last
    starts: Vec<usize>,
    // the ids that were in no region that ended, and how many of them there were when each region began
    unasserted: Vec<ObjId>,
    unasserted_starts: Vec<usize>,
    reserved: bool,
}

impl Model for RegionStack {
    ghost use Rattle.std.specs.Prelude.{◌≡◌, ◌-◌, length, vec_len, vec_capacity};
    ghost use Rattle.region_log.specs.Regions.{ThreadRegions, AreStarts, HasRoom, regions_from};

    ghost Value = { ThreadRegions };

    ghost view = { λ s. record { regions = regions_from s.ids.items s.starts.items; unasserted = regions_from s.unasserted.items s.unasserted_starts.items; reserved = s.reserved } };

    ghost invariant = { λ s. AreStarts s.ids.items s.starts.items × HasRoom s.starts.items (vec_capacity s.ids - vec_len s.ids) s.reserved × AreStarts s.unasserted.items s.unasserted_starts.items × HasRoom s.unasserted_starts.items (vec_capacity s.unasserted - vec_len s.unasserted) s.reserved × (length s.starts.items ≡ length s.unasserted_starts.items) };
}

impl RegionStack {
    /// No region is open, and the thread is not reserved.
    pub fn make(alloc: Global) -> RegionStack
        ensures { result ≡ unused_thread }
    {
        RegionStack {
            ids: Vec::new(alloc),
            starts: Vec::new(alloc),
            unasserted: Vec::new(alloc),
            unasserted_starts: Vec::new(alloc),
            reserved: false,
        }
    }

    /// How many regions are open.
    pub fn depth(&self) -> usize
        ensures { result ≡ length self.now.regions }
    {
        self.starts.len()
    }

    /// The ids in the innermost region, and `None` where none is open.
    pub fn innermost(&self) -> Option<&[ObjId]>
        ensures { MatchOption result (self.now.regions ≡ [])
            (λ ids. (0 < length self.now.regions) × (slice_index_or self.now.regions 0 [] ≡ ids.now)) }
    {
        innermost_of(&self.ids, &self.starts)
    }

    /// Those ids in the innermost region that were in no inner region when it ended, and `None` where none is open.
    pub fn unasserted(&self) -> Option<&[ObjId]>
        ensures { MatchOption result (self.now.regions ≡ [])
            (λ ids. (0 < length self.now.regions) × (slice_index_or self.now.unasserted 0 [] ≡ ids.now)) }
    {
        innermost_of(&self.unasserted, &self.unasserted_starts)
    }

    /// Opens a region inside the others. The thread is no longer reserved.
    pub fn open(&mut self) -> Result<(), OutOfMemory>
        ensures ok { OnOk result (self.new ≡ thread_with_region self.old) }
        ensures err { OnErr result (self.new ≡ self.old) }
    {
        self.unasserted_starts.reserve(1)?;
        self.starts.push(self.ids.len())?;
        self.unasserted_starts.push_reserved(self.unasserted.len());
        self.reserved = false;
        Ok(())
    }

    /// Takes memory for one object more in each region: the thread is reserved then.
    pub fn reserve(&mut self) -> Result<(), OutOfMemory>
        ensures ok { OnOk result (self.new ≡ record self.old { reserved = true }) }
        ensures err { OnErr result (self.new ≡ self.old) }
    {
        if !self.starts.is_empty() {
            self.ids.reserve(1)?;
            self.unasserted.reserve(1)?;
        }
        self.reserved = true;
        Ok(())
    }

    /// Adds an object to each region. The thread is no longer reserved.
    pub fn note(&mut self, id: ObjId)
        requires { IsTrue self.old.reserved }
        ensures { self.new ≡ thread_with_object self.old id }
    {
        if !self.starts.is_empty() {
            self.ids.push_reserved(id);
            self.unasserted.push_reserved(id);
        }
        self.reserved = false;
    }

    /// Ends the innermost region. Its objects stay in the others, but are no longer among the ids that were in no region that
    /// ended. After the last region their memory is given back.
    pub fn close(&mut self)
        ensures closed { self.new ≡ thread_without_region self.old }
        ensures nested { AreNested self.old.unasserted }
    {
        self.starts.pop();
        cut_innermost(&mut self.unasserted, &mut self.unasserted_starts);
        if self.starts.is_empty() {
            self.ids = Vec::new(*self.ids.allocator());
            self.unasserted = Vec::new(*self.unasserted.allocator());
        }
    }

    /// Drops the ids that are not live in the table from each region.
    pub fn keep(&mut self, table: &ObjectTable)
        ensures { self.new ≡ thread_with_ids (is_live table.now.table) self.old }
    {
        drop_freed(&mut self.ids, &mut self.starts, table);
        drop_freed(&mut self.unasserted, &mut self.unasserted_starts, table);
    }
}

// The ids in the innermost of the regions that begin at these places.
fn innermost_of<'a>(ids: &'a [ObjId], starts: &[usize]) -> Option<&'a [ObjId]>
    requires { All (λ start. start ≤ length ids.now) starts.now }
    ensures { MatchOption result (starts.now ≡ [])
        (λ inner. (0 < length starts.now) × (slice_index_or (regions_from ids.now starts.now) 0 [] ≡ inner.now)) }
{
    let start = *starts.last()?;
    Some(&ids[start..])
}

// Ends the innermost of the regions that begin at these places, and takes its ids out of the others.
fn cut_innermost(ids: &mut Vec<ObjId>, starts: &mut Vec<usize>)
    requires { AreStarts ids.old.items starts.old.items }
    ensures regions { regions_from ids.new.items starts.new.items ≡ outer_without (regions_from ids.old.items starts.old.items) }
    ensures nested { AreNested (regions_from ids.old.items starts.old.items) }
    ensures starts { AreStarts ids.new.items starts.new.items }
    ensures fewer { length starts.new.items ≡ length starts.old.items - 1 }
    ensures room { vec_capacity ids.old - vec_len ids.old ≤ vec_capacity ids.new - vec_len ids.new }
{
    let Some(start) = starts.pop() else {
        return;
    };
    ids.truncate(start);
}

// Drops the ids that are not live in the table, and moves each start to where its region begins then.
fn drop_freed(ids: &mut Vec<ObjId>, starts: &mut Vec<usize>, table: &ObjectTable)
    requires { AreStarts ids.old.items starts.old.items }
    ensures ids { ids.new.items ≡ filter (is_live table.now.table) ids.old.items }
    ensures starts { starts.new.items ≡ map (start_kept (is_live table.now.table) ids.old.items) starts.old.items }
    ensures room { vec_capacity ids.old - vec_len ids.old ≤ vec_capacity ids.new - vec_len ids.new }
{
    let end = keep_live(ids, starts, table);
    ids.truncate(end);
}

// Moves the live ids to the front, and each start to where its region begins then, in one pass over both. It answers where the
// live ids end.
fn keep_live(ids: &mut [ObjId], starts: &mut [usize], table: &ObjectTable) -> usize
    requires rising { AllPairs (λ a b. a ≤ b) starts.old }
    requires within { All (λ start. start ≤ length ids.old) starts.old }
    ensures ids { take result ids.new ≡ filter (is_live table.now.table) ids.old }
    ensures starts { starts.new ≡ map (start_kept (is_live table.now.table) ids.old) starts.old }
{
    let mut passed = 0;
    let mut kept = 0;
    for start in starts.iter_mut() {
        kept = move_live(ids, passed..*start, kept, table);
        passed = *start;
        *start = kept;
    }
    let end = ids.len();
    move_live(ids, passed..end, kept, table)
}

// Moves the live ones of the ids in the range forward, behind those before it that were kept. It answers where the last of them ends.
fn move_live(ids: &mut [ObjId], range: Range<usize>, kept: usize, table: &ObjectTable) -> usize
    requires behind { kept ≤ range.start }
    requires order { range.start ≤ range.end }
    requires within { range.end ≤ length ids.old }
    ensures { (all : List ℕ) → FiltersInPlace (is_live table.now.table) all ids.old kept range.start
        → FiltersInPlace (is_live table.now.table) all ids.new result range.end }
{
    let mut end = kept;
    for place in range.start..range.end {
        let id = ids[place];
        if table.cell_of(id).is_some() {
            ids[end] = id;
            end += 1;
        }
    }
    end
}
