ghost use Rattle.std.specs.Prelude.{◌≡◌, ◌<◌, ◌≤◌, [], length, map, filter, true, false, IsTrue, AllPairs};
ghost use Rattle.std.specs.Prelude.{MatchOption, IfSome, IfOk, OnOk, OnErr, slice_set, vec_len};
ghost use Rattle.std.specs.Result.{result_err};
ghost use Rattle.heap_base.specs.declared.limits.TheConstants.{MOST_REGIONS, MOST_THREADS};
ghost use Rattle.graph_meaning.specs.Answers.{RefusesBy};
ghost use Rattle.graph_meaning.specs.Heap.{regions_of, is_live};
ghost use Rattle.graph_meaning.specs.Step.{with_member};
ghost use Rattle.region_log.specs.Regions.{no_open_regions, is_reserved, start_refusal, end_refusal, innermost};
ghost use Rattle.region_log.specs.Regions.{table_with_region, table_with_object, table_without_region, table_with_ids};
ghost use Rattle.region_log.specs.Regions.{IsAbove, IsRegionTable, AreNested, unused_thread, for_each_thread};

use crate::stack::RegionStack;
use graph_meaning::{Refusal, Stop};
use heap_base::{MOST_REGIONS, ObjId, OutOfMemory, ThreadNo};
use object_table::ObjectTable;
use std::alloc::Global;
use std::marker::Model;

/// The regions that each thread has open, nested, and the ids of the objects in them. Contracts see the regions as
/// a heap has them; the same with those ids alone that are unasserted: were in no inner region when it ended, and asserted its
/// objects dead; and which threads are reserved: have memory for their next object in each of their regions.
#[derive(Drop)]
pub struct RegionLog {
    // by the number of the thread, up to the highest of which something was asked
    threads: Vec<RegionStack>,
}

impl Model for RegionLog {
    ghost use Rattle.region_log.specs.Regions.{RegionTable, region_table, AreThreads};

    ghost Value = { RegionTable };

    ghost view = { λ l. region_table l.threads.items };

    ghost invariant = { λ l. AreThreads l.threads.items };
}

impl RegionLog {
    /// No region is open, and no thread is reserved.
    pub fn make(alloc: Global) -> Result<RegionLog, OutOfMemory>
        ensures { IfOk result (λ l. l ≡ no_open_regions) }
    {
        Ok(RegionLog {
            threads: Vec::new(alloc),
        })
    }

    /// How many regions of the thread are open: at most `MOST_REGIONS`.
    pub fn depth(&self, thread: ThreadNo) -> u32
        ensures depth { result ≡ length (regions_of self.now.regions thread) }
        ensures few { result ≤ MOST_REGIONS }
        ensures regions { IsRegionTable self.now }
    {
        match self.threads.get(thread.number() as usize) {
            Some(stack) => stack.depth() as u32,
            None => 0,
        }
    }

    /// Opens a region of the thread, inside those that are open; the thread is not reserved then. It refuses a
    /// region too many, where `MOST_REGIONS` of the thread are open (`TooDeep`). After a refusal, and when out of
    /// memory, nothing has changed.
    pub fn start(&mut self, thread: ThreadNo) -> Result<(), Stop>
        ensures refused { RefusesBy result (start_refusal self.old.regions thread) }
        ensures started { OnOk result (self.new ≡ table_with_region self.old thread) }
        ensures err { OnErr result (self.new ≡ self.old) }
    {
        if self.depth(thread) as usize >= MOST_REGIONS {
            return Err(Stop::Refused(Refusal::TooDeep(thread.number())));
        }
        Ok(self.open(thread)?)
    }

    /// Takes the memory to note one object of the thread: the thread is reserved then. When out of memory,
    /// nothing has changed.
    pub fn reserve(&mut self, thread: ThreadNo) -> Result<(), OutOfMemory>
        ensures done { OnOk result (self.new ≡ record self.old { reserved = slice_set self.old.reserved thread true }) }
        ensures reserved { OnOk result (IsTrue (is_reserved self.new thread)) }
        ensures err { OnErr result (self.new ≡ self.old) }
    {
        make_place(&mut self.threads, thread)?;
        let stack = &mut self.threads[thread.number() as usize];
        stack.reserve()
    }

    /// Adds an object to every open region of the thread, and to none where none is open. The thread is not
    /// reserved then.
    pub fn note(&mut self, thread: ThreadNo, id: ObjId)
        requires reserved { IsTrue (is_reserved self.old thread) }
        requires above { IsAbove id (regions_of self.old.regions thread) }
        ensures { self.new ≡ table_with_object self.old thread id }
    {
        let stack = &mut self.threads[thread.number() as usize];
        stack.note(id);
    }

    /// The ids in the innermost open region of the thread, rising. It refuses where none is open (`NoRegion`).
    pub fn members(&self, thread: ThreadNo) -> Result<Vec<ObjId>, Stop>
        ensures refused { RefusesBy result (end_refusal self.now.regions thread) }
        ensures members { IfOk result (λ ids. ids.items ≡ innermost self.now.regions thread) }
        ensures rising { IfOk result (λ ids. AllPairs (λ a b. a < b) ids.items) }
    {
        let Some(ids) = self.innermost(thread) else {
            return Err(Stop::Refused(Refusal::NoRegion(thread.number())));
        };
        Vec::from_slice(*self.threads.allocator(), ids).map_err(|_| Stop::OutOfMemory)
    }

    /// The unasserted ids in the innermost open region of the thread. It refuses where none is open (`NoRegion`).
    pub fn unasserted(&self, thread: ThreadNo) -> Result<&[ObjId], Refusal>
        ensures refused { result_err result ≡ end_refusal self.now.regions thread }
        ensures unasserted { IfOk result (λ ids. ids.now ≡ innermost self.now.unasserted thread) }
    {
        self.innermost_unasserted(thread)
            .ok_or(Refusal::NoRegion(thread.number()))
    }

    /// Ends the innermost open region of the thread. Its objects stay in the outer ones, and are unasserted in none. It refuses
    /// where none is open (`NoRegion`), and nothing has changed then.
    pub fn finish(&mut self, thread: ThreadNo) -> Result<(), Refusal>
        ensures refused { result_err result ≡ end_refusal self.old.regions thread }
        ensures ended { OnOk result (self.new ≡ table_without_region self.old thread) }
        ensures nested { OnOk result (AreNested (regions_of self.old.unasserted thread)) }
        ensures err { OnErr result (self.new ≡ self.old) }
    {
        if self.depth(thread) == 0 {
            return Err(Refusal::NoRegion(thread.number()));
        }
        let stack = &mut self.threads[thread.number() as usize];
        stack.close();
        Ok(())
    }

    /// Drops the ids that are not live in the table from all regions.
    pub fn keep(&mut self, table: &ObjectTable)
        ensures { self.new ≡ table_with_ids (is_live table.now.table) self.old }
    {
        for stack in self.threads.iter_mut() {
            stack.keep(table);
        }
    }

    // Opens a region of the thread.
    fn open(&mut self, thread: ThreadNo) -> Result<(), OutOfMemory>
        requires { length (regions_of self.old.regions thread) < MOST_REGIONS }
        ensures opened { OnOk result (self.new ≡ table_with_region self.old thread) }
        ensures err { OnErr result (self.new ≡ self.old) }
    {
        make_place(&mut self.threads, thread)?;
        let stack = &mut self.threads[thread.number() as usize];
        stack.open()
    }

    // The ids in the innermost open region of the thread.
    fn innermost(&self, thread: ThreadNo) -> Option<&[ObjId]>
        ensures ids { MatchOption result (regions_of self.now.regions thread ≡ [])
            (λ ids. (0 < length (regions_of self.now.regions thread)) × (innermost self.now.regions thread ≡ ids.now)) }
        ensures rising { IfSome result (λ ids. AllPairs (λ a b. a < b) ids.now) }
    {
        let stack = self.threads.get(thread.number() as usize)?;
        stack.innermost()
    }

    // The unasserted ids in the innermost open region of the thread.
    fn innermost_unasserted(&self, thread: ThreadNo) -> Option<&[ObjId]>
        ensures { MatchOption result (regions_of self.now.regions thread ≡ [])
            (λ ids. (0 < length (regions_of self.now.regions thread)) × (innermost self.now.unasserted thread ≡ ids.now)) }
    {
        let stack = self.threads.get(thread.number() as usize)?;
        stack.unasserted()
    }
}

// Makes a place for the thread, and for those below it.
fn make_place(threads: &mut Vec<RegionStack>, thread: ThreadNo) -> Result<(), OutOfMemory>
    requires { length threads.old.items ≤ MOST_THREADS }
    ensures same { for_each_thread unused_thread threads.new.items ≡ for_each_thread unused_thread threads.old.items }
    ensures few { length threads.new.items ≤ MOST_THREADS }
    ensures place { OnOk result (thread < vec_len threads.new) }
{
    let alloc = *threads.allocator();
    while threads.len() <= thread.number() as usize {
        threads.push(RegionStack::make(alloc))?;
    }
    Ok(())
}
