ghost use Rattle.std.specs.Prelude.{◌≡◌, ◌+◌, ◌<◌, ◌≤◌, ◌∷◌, ◌++◌, [], length, take, drop, Some, slice_get, slice_set, IfSome, IfOk, IfErr, OnOk, OnErr};
ghost use Rattle.std.specs.List.{insert, remove};
ghost use Rattle.std.specs.List.Sorted.{IsSearchInRange};
ghost use Rattle.object_table.specs.declared.block.TheConstants.{MOST_ENTRIES};
ghost use Rattle.object_table.specs.Blocks.{EntryBlock, begins_above, run_cleared};
ghost use Rattle.object_table.specs.Located.{RisesById};
ghost use Rattle.object_table.specs.Ordered.{IsNamedAt, IsGapFor, RisesByName};

use crate::entry::Entry;
use crate::ids::Ids;
use heap_base::{MOST_KINDS, MOST_ROOTS, Name, OutOfMemory};
use std::alloc::Global;
use std::marker::Model;

/// The most entries that a list in blocks may have.
pub const MOST_ENTRIES: u32 = MOST_ROOTS;

// The types are numbered in such a list too.
const _: () = prove!(MOST_KINDS <= MOST_ENTRIES);

/// A run of the entries of a longer list, with the place of its first entry in that list.
#[derive(Drop)]
pub struct Block {
    start: usize,
    entries: Vec<Entry>,
}

impl Model for Block {
    ghost use Rattle.std.specs.Prelude.{List, ℕ};
    ghost use Rattle.object_table.specs.Blocks.{EntryBlock};

    ghost Value = { EntryBlock (List ℕ × ℕ) };

    ghost view = { λ b. record { start = b.start; entries = b.entries.items } };
}

impl Block {
    /// A block without entries.
    pub fn empty(alloc: Global) -> Block
        ensures { result ≡ record { start = 0; entries = [] } }
    {
        Block {
            start: 0,
            entries: Vec::new(alloc),
        }
    }

    /// The first block of a list, with this entry alone.
    pub fn of(alloc: Global, entry: Entry) -> Result<Block, OutOfMemory>
        ensures { IfOk result (λ b. b ≡ record { start = 0; entries = entry ∷ [] }) }
    {
        let mut entries = Vec::new(alloc);
        entries.push(entry)?;
        Ok(Block { start: 0, entries })
    }

    /// An equal block.
    pub fn copy(&self) -> Result<Block, OutOfMemory>
        ensures { IfOk result (λ b. b ≡ self.now) }
    {
        let mut entries = Vec::with_capacity(*self.entries.allocator(), self.entries.len())?;
        for entry in &self.entries {
            entries.push(entry.copy()?)?;
        }
        Ok(Block {
            start: self.start,
            entries,
        })
    }

    /// The place of its first entry in the list.
    pub fn start(&self) -> usize
        ensures { result ≡ self.now.start }
    {
        self.start
    }

    /// How many entries it has.
    pub fn len(&self) -> usize
        ensures { result ≡ length self.now.entries }
    {
        self.entries.len()
    }

    /// The entry at this place of the block.
    pub fn at(&self, place: usize) -> &Entry
        requires { place < length self.now.entries }
        ensures { slice_get self.now.entries place ≡ Some result.now }
    {
        &self.entries[place]
    }

    /// Whether its first entry has a name above this one.
    pub fn begins_above(&self, name: &Name) -> bool
        ensures { result ≡ begins_above name.now self.now.entries }
    {
        match self.entries.first() {
            Some(first) => first.name().as_str().cmp(name.as_str()).is_gt(),
            None => false,
        }
    }

    /// Where in the block the name is, or where it would go.
    pub fn search(&self, name: &Name) -> Result<usize, usize>
        requires { RisesByName self.now.entries }
        ensures in_range { IsSearchInRange result (length self.now.entries) }
        ensures found { IfOk result (IsNamedAt name.now self.now.entries) }
        ensures gap { IfErr result (IsGapFor name.now self.now.entries) }
    {
        let text = name.as_str();
        self.entries
            .binary_search_by(|entry| entry.name().as_str().cmp(text))
    }

    /// Gives the name at this place of the block another number.
    pub fn set_number(&mut self, place: usize, number: u32)
        requires { place < length self.old.entries }
        ensures start { self.new.start ≡ self.old.start }
        ensures set { IfSome (slice_get self.old.entries place) (λ e. self.new.entries ≡ slice_set self.old.entries place (e.0, number)) }
    {
        self.entries[place].set_number(number);
    }

    /// Puts the entry at this place of the block.
    pub fn insert(&mut self, place: usize, entry: Entry) -> Result<(), OutOfMemory>
        requires { place ≤ length self.old.entries }
        ensures start { self.new.start ≡ self.old.start }
        ensures inserted { OnOk result (self.new.entries ≡ insert self.old.entries place entry) }
        ensures err { OnErr result (self.new ≡ self.old) }
    {
        Ok(self.entries.insert(place, entry)?)
    }

    /// Takes away the entry at this place of the block.
    pub fn remove(&mut self, place: usize)
        requires { place < length self.old.entries }
        ensures { self.new ≡ record self.old { entries = remove self.old.entries place } }
    {
        self.entries.remove(place);
    }

    /// Takes away the entries whose number is the id of an object in a marked cell.
    pub fn clear_to(&mut self, ids: &Ids, marked: &[bool])
        requires { RisesById ids.now }
        ensures { self.new ≡ run_cleared ids.now marked.now self.old }
    {
        self.entries
            .retain(|entry| !ids.is_marked(entry.number(), marked));
    }

    /// Takes the entries from this place on into a block of their own.
    pub fn split(&mut self, place: usize) -> Result<Block, OutOfMemory>
        requires in_range { place ≤ length self.old.entries }
        requires small { self.old.start + length self.old.entries ≤ MOST_ENTRIES }
        ensures front { OnOk result (self.new ≡ record self.old { entries = take place self.old.entries }) }
        ensures tail { IfOk result (λ tail. tail ≡ record { start = self.old.start + place; entries = drop place self.old.entries }) }
        ensures err { OnErr result (self.new ≡ self.old) }
    {
        let entries = self.entries.split_off(place)?;
        Ok(Block {
            start: self.start + place,
            entries,
        })
    }

    /// Puts the entries of another block behind its own. When out of memory it gives the other block back.
    pub fn append(&mut self, mut other: Block) -> Result<(), Block>
        ensures start { self.new.start ≡ self.old.start }
        ensures appended { OnOk result (self.new.entries ≡ self.old.entries ++ other.entries) }
        ensures err { OnErr result (self.new.entries ≡ self.old.entries) }
        ensures given_back { IfErr result (λ back. back.entries ≡ other.entries) }
    {
        match self.entries.append(&mut other.entries) {
            Ok(()) => Ok(()),
            Err(_) => Err(other),
        }
    }

    /// Lets it start at this place of the list.
    pub fn move_to(&mut self, start: usize)
        ensures { self.new ≡ record self.old { start = start } }
    {
        self.start = start;
    }
}
