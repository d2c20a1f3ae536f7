ghost use Rattle.std.specs.Prelude.{◌≡◌, ◌+◌, ◌<◌, ◌≤◌, ◌++◌, [], length, map, take, drop, All, HoldsAt, Some, slice_get, slice_set, IfSome, IfOk, IfErr, OnOk, OnErr};
ghost use Rattle.std.specs.List.{insert, remove};
ghost use Rattle.std.specs.List.Sorted.{IsSearchInRange};
ghost use Rattle.object_table.specs.declared.block.TheConstants.{MOST_ENTRIES};
ghost use Rattle.object_table.specs.Blocks.{all_entries, IsLaid, IsRunOf, NoneEmpty, laid_from, roots_cleared};
ghost use Rattle.object_table.specs.Located.{RisesById};
ghost use Rattle.object_table.specs.Ordered.{EntriesAreOrdered, IsNamedAt, IsGapFor};

use crate::block::Block;
use crate::entry::Entry;
use crate::ids::Ids;
use heap_base::{Name, OutOfMemory};
use std::alloc::Global;
use std::marker::Model;
use std::mem;

// The most entries that a block is let grow to: an insertion or a removal moves no more than these.
const BLOCK: usize = 512;

// Two neighbours that have no more entries than these together are made into one block, so that memory goes with the
// number of entries. A block that was ever full has the room for them; where memory for it runs out, both stay.
const FEW: usize = BLOCK / 2;

/// A list of entries in blocks, so that an insertion or a removal moves the entries of one block and not all
/// that follow. Contracts see the list.
#[derive(Drop)]
pub struct Blocks {
    blocks: Vec<Block>,
}

impl Model for Blocks {
    ghost use Rattle.std.specs.Prelude.{List, ℕ};
    ghost use Rattle.object_table.specs.Blocks.{all_entries, IsLaid};

    ghost Value = { List (List ℕ × ℕ) };

    ghost view = { λ b. all_entries b.blocks.items };

    ghost invariant = { λ b. IsLaid 0 b.blocks.items };
}

impl Blocks {
    /// No entry.
    pub fn make(alloc: Global) -> Blocks
        ensures { result ≡ [] }
    {
        Blocks {
            blocks: Vec::new(alloc),
        }
    }

    /// An equal list, in equal blocks.
    pub fn copy(&self) -> Result<Blocks, OutOfMemory>
        ensures { IfOk result (λ b. b ≡ self.now) }
    {
        let mut blocks = Vec::with_capacity(*self.blocks.allocator(), self.blocks.len())?;
        for block in &self.blocks {
            blocks.push(block.copy()?)?;
        }
        Ok(Blocks { blocks })
    }

    /// How many entries there are.
    pub fn len(&self) -> usize
        requires { length self.now ≤ MOST_ENTRIES }
        ensures { result ≡ length self.now }
    {
        match self.blocks.last() {
            Some(block) => block.start() + block.len(),
            None => 0,
        }
    }

    /// The entry at this place.
    pub fn at(&self, place: usize) -> &Entry
        requires { place < length self.now }
        ensures { slice_get self.now place ≡ Some result.now }
    {
        let block = &self.blocks[block_of(&self.blocks, place)];
        block.at(place - block.start())
    }

    /// Where the name is, or where it would go.
    pub fn search(&self, name: &Name) -> Result<usize, usize>
        requires { EntriesAreOrdered self.now }
        ensures in_range { IsSearchInRange result (length self.now) }
        ensures found { IfOk result (IsNamedAt name.now self.now) }
        ensures gap { IfErr result (IsGapFor name.now self.now) }
    {
        let after = self
            .blocks
            .partition_point(|block| !block.begins_above(name));
        if after == 0 {
            return Err(0);
        }
        let block = &self.blocks[after - 1];
        match block.search(name) {
            Ok(place) => Ok(block.start() + place),
            Err(place) => Err(block.start() + place),
        }
    }

    /// Gives the name at this place another number.
    pub fn set_number(&mut self, place: usize, number: u32)
        requires { place < length self.old }
        ensures { IfSome (slice_get self.old place) (λ e. self.new ≡ slice_set self.old place (e.0, number)) }
    {
        let at = block_of(&self.blocks, place);
        let block = &mut self.blocks[at];
        let start = block.start();
        block.set_number(place - start, number);
    }

    /// Puts the entry at this place.
    pub fn insert(&mut self, place: usize, entry: Entry) -> Result<(), OutOfMemory>
        requires in_range { place ≤ length self.old }
        requires room { length self.old < MOST_ENTRIES }
        ensures inserted { OnOk result (self.new ≡ insert self.old place entry) }
        ensures err { OnErr result (self.new ≡ self.old) }
    {
        if self.blocks.is_empty() {
            return put_first(&mut self.blocks, entry);
        }
        split_full(&mut self.blocks, place)?;
        put(&mut self.blocks, place, entry)
    }

    /// Takes away the entry at this place. Blocks that then have few entries together become one.
    pub fn remove(&mut self, place: usize)
        requires in_range { place < length self.old }
        requires few { length self.old ≤ MOST_ENTRIES }
        ensures { self.new ≡ remove self.old place }
    {
        let at = block_of(&self.blocks, place);
        take(&mut self.blocks, at, place);
        merge_with_next(&mut self.blocks, at);
        merge_with_next(&mut self.blocks, at.saturating_sub(1));
        renumber(&mut self.blocks);
    }

    /// Takes away the entries whose number is the id of an object in a marked cell. Blocks that then have few entries
    /// together become one.
    pub fn clear_to(&mut self, ids: &Ids, marked: &[bool])
        requires rising { RisesById ids.now }
        requires few { length self.old ≤ MOST_ENTRIES }
        ensures { self.new ≡ roots_cleared ids.now marked.now self.old }
    {
        clear_blocks(&mut self.blocks, ids, marked);
        drop_empty(&mut self.blocks);
        merge_neighbours(&mut self.blocks);
        renumber(&mut self.blocks);
    }
}

// The block of the entry at this place, and at the list's end the last block.
fn block_of(blocks: &[Block], place: usize) -> usize
    requires laid { IsLaid 0 blocks.now }
    requires some { 0 < length blocks.now }
    requires in_range { place ≤ length (all_entries blocks.now) }
    ensures { IsRunOf blocks.now place result }
{
    blocks.partition_point(|block| block.start() <= place) - 1
}

// Puts the first entry of an empty list.
fn put_first(blocks: &mut Vec<Block>, entry: Entry) -> Result<(), OutOfMemory>
    requires { blocks.old.items ≡ [] }
    ensures laid { IsLaid 0 blocks.new.items }
    ensures put { OnOk result (all_entries blocks.new.items ≡ insert (all_entries blocks.old.items) 0 entry) }
    ensures err { OnErr result (blocks.new.items ≡ blocks.old.items) }
{
    let block = Block::of(*blocks.allocator(), entry)?;
    Ok(blocks.push(block)?)
}

// Splits the block of this place in two where it is full: in halves, but the last one is left all but full. So the blocks of
// names that come in their order are full.
fn split_full(blocks: &mut Vec<Block>, place: usize) -> Result<(), OutOfMemory>
    requires laid { IsLaid 0 blocks.old.items }
    requires some { 0 < length blocks.old.items }
    requires in_range { place ≤ length (all_entries blocks.old.items) }
    requires few { length (all_entries blocks.old.items) ≤ MOST_ENTRIES }
    ensures laid { IsLaid 0 blocks.new.items }
    ensures some { 0 < length blocks.new.items }
    ensures same { all_entries blocks.new.items ≡ all_entries blocks.old.items }
{
    let at = block_of(blocks, place);
    let len = blocks[at].len();
    if len < BLOCK {
        return Ok(());
    }
    let kept = if at == blocks.len() - 1 {
        len - 1
    } else {
        len / 2
    };
    split(blocks, at, kept)
}

// Splits this block in two, of which the first keeps so many entries. The room for one more block is taken first, so that
// nothing is lost where memory runs out.
fn split(blocks: &mut Vec<Block>, at: usize, kept: usize) -> Result<(), OutOfMemory>
    requires laid { IsLaid 0 blocks.old.items }
    requires in_range { at < length blocks.old.items }
    requires kept { 0 < kept }
    requires long { HoldsAt (λ r. kept < length r.entries) blocks.old.items at }
    requires few { length (all_entries blocks.old.items) ≤ MOST_ENTRIES }
    ensures laid { IsLaid 0 blocks.new.items }
    ensures some { 0 < length blocks.new.items }
    ensures same { all_entries blocks.new.items ≡ all_entries blocks.old.items }
{
    blocks.reserve(1)?;
    let block = &mut blocks[at];
    let tail = block.split(kept)?;
    Ok(blocks.insert(at + 1, tail)?)
}

// Puts the entry at this place, in the block of the place.
fn put(blocks: &mut Vec<Block>, place: usize, entry: Entry) -> Result<(), OutOfMemory>
    requires laid { IsLaid 0 blocks.old.items }
    requires some { 0 < length blocks.old.items }
    requires in_range { place ≤ length (all_entries blocks.old.items) }
    requires room { length (all_entries blocks.old.items) < MOST_ENTRIES }
    ensures laid { IsLaid 0 blocks.new.items }
    ensures put { OnOk result (all_entries blocks.new.items ≡ insert (all_entries blocks.old.items) place entry) }
    ensures err { OnErr result (all_entries blocks.new.items ≡ all_entries blocks.old.items) }
{
    let at = block_of(blocks, place);
    let block = &mut blocks[at];
    let start = block.start();
    block.insert(place - start, entry)?;
    renumber(blocks);
    Ok(())
}

// Takes away the entry at this place of the list, and its block where it was alone there.
fn take(blocks: &mut Vec<Block>, at: usize, place: usize)
    requires laid { IsLaid 0 blocks.old.items }
    requires run { IsRunOf blocks.old.items place at }
    requires inside { place < length (all_entries blocks.old.items) }
    ensures some { NoneEmpty blocks.new.items }
    ensures taken { all_entries blocks.new.items ≡ remove (all_entries blocks.old.items) place }
{
    if blocks[at].len() == 1 {
        blocks.remove(at);
    } else {
        let block = &mut blocks[at];
        let start = block.start();
        block.remove(place - start);
    }
}

// Takes away the entries of each block whose number is the id of an object in a marked cell.
fn clear_blocks(blocks: &mut Vec<Block>, ids: &Ids, marked: &[bool])
    requires { RisesById ids.now }
    ensures { all_entries blocks.new.items ≡ roots_cleared ids.now marked.now (all_entries blocks.old.items) }
{
    for at in 0..blocks.len() {
        let block = &mut blocks[at];
        block.clear_to(ids, marked);
    }
}

// Takes the blocks away that have no entry.
fn drop_empty(blocks: &mut Vec<Block>)
    ensures some { NoneEmpty blocks.new.items }
    ensures same { all_entries blocks.new.items ≡ all_entries blocks.old.items }
{
    blocks.retain(|block| block.len() > 0);
}

// Makes one block of neighbours that have few entries together. It goes from the last block to the first: one that takes
// its neighbour in still has too many entries together with the one after.
fn merge_neighbours(blocks: &mut Vec<Block>)
    requires { NoneEmpty blocks.old.items }
    ensures some { NoneEmpty blocks.new.items }
    ensures same { all_entries blocks.new.items ≡ all_entries blocks.old.items }
{
    for at in (0..blocks.len()).rev() {
        merge_with_next(blocks, at);
    }
}

// Makes this block and the next one into one block where they have few entries together.
fn merge_with_next(blocks: &mut Vec<Block>, at: usize)
    requires some { NoneEmpty blocks.old.items }
    ensures some { NoneEmpty blocks.new.items }
    ensures same { all_entries blocks.new.items ≡ all_entries blocks.old.items }
{
    if blocks.len() <= 1 || at >= blocks.len() - 1 {
        return;
    }
    if blocks[at].len() > FEW || blocks[at + 1].len() > FEW - blocks[at].len() {
        return;
    }
    let empty = Block::empty(*blocks.allocator());
    let next = mem::replace(&mut blocks[at + 1], empty);
    let this = &mut blocks[at];
    match this.append(next) {
        Ok(()) => {
            blocks.remove(at + 1);
        }
        Err(next) => blocks[at + 1] = next,
    }
}

// Lets each block start where the one before it ends.
fn renumber(blocks: &mut Vec<Block>)
    requires { length (all_entries blocks.old.items) ≤ MOST_ENTRIES }
    ensures { blocks.new.items ≡ laid_from 0 blocks.old.items }
{
    let mut start = 0;
    for at in 0..blocks.len() {
        let block = &mut blocks[at];
        block.move_to(start);
        start += block.len();
    }
}
