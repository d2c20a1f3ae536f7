//! Ids, each once, in a list that is put in order now and then.
ghost use Rattle.std.specs.Prelude.{◌≡◌, [], filter, fold, OnOk, OnErr};
ghost use Rattle.std.specs.BTreeSet.{insert_key};
ghost use Rattle.std.specs.List.Sorted.{IsStrictlySortedBy};
ghost use Rattle.std.specs.Ordering.{nat_cmp};
ghost use Rattle.graph_meaning.specs.Heap.{is_live};
ghost use Rattle.assert_registry.specs.IdSet.{set_of};

use crate::ids::is_live;
use heap_base::{ObjId, OutOfMemory};
use object_table::ObjectTable;
use std::alloc::Global;
use std::marker::Model;

/// Ids, each once. Contracts see the list of them, rising.
#[derive(Drop)]
pub(crate) struct IdSet {
    // in any order, some more than once
    ids: Vec<ObjId>,
}

impl Model for IdSet {
    ghost use Rattle.std.specs.Prelude.{ℕ, List};
    ghost use Rattle.assert_registry.specs.IdSet.{set_of};

    ghost Value = { List ℕ };

    ghost view = { λ s. set_of s.ids.items };
}

impl IdSet {
    /// The set of no id. It takes no memory.
    pub(crate) fn new(alloc: Global) -> IdSet
        ensures { result ≡ [] }
    {
        IdSet {
            ids: Vec::new(alloc),
        }
    }

    /// Puts the id into the set. When out of memory, nothing has changed.
    pub(crate) fn insert(&mut self, id: ObjId) -> Result<(), OutOfMemory>
        ensures done { OnOk result (self.new ≡ insert_key nat_cmp self.old id) }
        ensures err { OnErr result (self.new ≡ self.old) }
        ensures rising { IsStrictlySortedBy nat_cmp self.new }
    {
        if self.ids.last() == Some(&id) {
            return Ok(());
        }
        self.make_room(1)?;
        self.ids.push(id)?;
        Ok(())
    }

    /// Puts these ids into the set. When out of memory, none is put in, and nothing has changed.
    pub(crate) fn insert_all(&mut self, ids: &[ObjId]) -> Result<(), OutOfMemory>
        ensures done { OnOk result (self.new ≡ fold (insert_key nat_cmp) self.old ids.now) }
        ensures err { OnErr result (self.new ≡ self.old) }
        ensures rising { IsStrictlySortedBy nat_cmp self.new }
    {
        self.make_room(ids.len())?;
        self.ids.extend_from_slice(ids)?;
        Ok(())
    }

    /// Takes the ids out whose objects aren't live in the table. It takes no memory.
    pub(crate) fn retain_live(&mut self, table: &ObjectTable)
        ensures live { self.new ≡ filter (is_live table.now.table) self.old }
        ensures rising { IsStrictlySortedBy nat_cmp self.new }
    {
        self.ids.retain(|id| is_live(table, *id));
    }

    /// The ids in any order, some more than once.
    pub(crate) fn as_slice(&self) -> &[ObjId]
        ensures { set_of result.now ≡ self.now }
    {
        &self.ids
    }

    /// The ids, each once, by id. It takes no memory.
    pub(crate) fn into_sorted_vec(mut self) -> Vec<ObjId>
        ensures { result.items ≡ self }
    {
        sort_unique(&mut self.ids);
        self.ids
    }

    // Makes room for so many more. Where there is none, ids that stand there again go first, so that the memory stays in
    // proportion to the set; then there is room for as many again, so that the ids are seldom sorted.
    fn make_room(&mut self, more: usize) -> Result<(), OutOfMemory>
        ensures same { self.new ≡ self.old }
        ensures rising { IsStrictlySortedBy nat_cmp self.new }
    {
        if self.ids.capacity() - self.ids.len() < more {
            sort_unique(&mut self.ids);
            self.ids.reserve(more.max(self.ids.len()))?;
        }
        Ok(())
    }
}

// Sorts the ids, and leaves each once.
fn sort_unique(ids: &mut Vec<ObjId>)
    ensures { ids.new.items ≡ set_of ids.old.items }
{
    ids.sort_unstable();
    ids.dedup();
}
