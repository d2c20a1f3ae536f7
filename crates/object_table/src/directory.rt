ghost use Rattle.std.specs.Prelude.{◌<◌, ◌≤◌, ◌^◌};

use heap_base::{ObjId, OutOfMemory};
use std::alloc::Global;

/// Where the blocks of a rising list of ids begin. A block has the ids that agree in their high bits, and some four of
/// them where ids lie evenly. It only guesses where an id stands: whoever asks must look at the neighbours.
#[derive(Drop)]
pub struct Directory {
    // the number from which the blocks are counted
    first: u32,
    // a block spans 2^shift numbers
    shift: u32,
    // how many ids stand before each block
    starts: Vec<u32>,

    ghost small: { shift < 64 },
}

impl Directory {
    /// No block.
    pub fn make(alloc: Global) -> Directory {
        Directory {
            first: 0,
            shift: 0,
            starts: Vec::new(alloc),
        }
    }

    /// An equal directory.
    pub fn copy(&self) -> Result<Directory, OutOfMemory> {
        Ok(Directory {
            first: self.first,
            shift: self.shift,
            starts: self.starts.clone()?,
        })
    }

    /// Where the id with this number may stand in a list of `count`: from the first place on, and before the second.
    pub fn guess(&self, number: u32, count: usize) -> (usize, usize)
        ensures { (result.0 ≤ result.1) × (result.1 ≤ count) }
    {
        let block = self.block(number);
        let end = self.start(block + 1).unwrap_or(count).min(count);
        let begin = self.start(block).unwrap_or(end).min(end);
        (begin, end)
    }

    /// Takes up an id that is put behind these.
    pub fn add(&mut self, id: ObjId, ids: &[(ObjId, u32)]) -> Result<(), OutOfMemory> {
        let most = blocks_for(ids.len());
        if self.block(id.number()) >= most {
            self.lay(ids, id, most)?;
        }
        self.reach(id, ids.len())
    }

    /// Takes up these ids, which are left of so many, in place of those. It asks for no memory: there are no more blocks than there is
    /// memory for.
    pub fn keep(&mut self, before: usize, ids: &[(ObjId, u32)]) {
        // where none went, each block begins where it did
        if ids.len() == before {
            return;
        }
        let most = blocks_for(ids.len()).min(self.starts.capacity());
        self.starts.clear();
        if let Some(last) = ids.last() {
            let _ = self.lay(ids, last.0, most);
        }
    }

    /// Takes up these ids in place of those before, where the ones before this place are as they were. It asks for no
    /// memory.
    pub fn keep_from(&mut self, first: usize, ids: &[(ObjId, u32)]) {
        let known = match first.checked_sub(1) {
            Some(last) => ids
                .get(last)
                .map_or(0, |entry| self.block(entry.0.number()) + 1),
            None => 0,
        };
        self.starts.truncate(known);
        for place in first..ids.len() {
            let _ = self.reach(ids[place].0, place);
        }
    }

    // Takes up these ids anew, in blocks of which fewer than `most` reach up to the last.
    fn lay(&mut self, ids: &[(ObjId, u32)], last: ObjId, most: usize) -> Result<(), OutOfMemory> {
        let first = ids.first().map_or(last, |entry| entry.0);
        let span = last.number().saturating_sub(first.number());
        self.first = first.number();
        self.shift = shift_for(span, most);
        self.starts.clear();
        for (place, entry) in ids.iter().enumerate() {
            self.reach(entry.0, place)?;
        }
        Ok(())
    }

    // Lets each block up to that of the id begin at this place, where it does not begin earlier.
    #[inline(always)]
    fn reach(&mut self, id: ObjId, place: usize) -> Result<(), OutOfMemory> {
        let block = self.block(id.number());
        if self.starts.len() <= block {
            self.begin_up_to(block, place)?;
        }
        Ok(())
    }

    // Lets all blocks up to this one that begin nowhere yet begin at this place.
    #[inline(never)]
    fn begin_up_to(&mut self, block: usize, place: usize) -> Result<(), OutOfMemory>
        requires { block < 2 ^ 32 }
    {
        let start = u32::try_from(place).unwrap_or(u32::MAX);
        self.starts.resize(block + 1, start)?;
        Ok(())
    }

    // The block of the id with this number; ids below the first have that of the first.
    fn block(&self, number: u32) -> usize
        ensures { result < 2 ^ 32 }
    {
        let span = number.saturating_sub(self.first);
        (u64::from(span) >> self.shift) as usize
    }

    fn start(&self, block: usize) -> Option<usize> {
        self.starts.get(block).map(|start| *start as usize)
    }
}

// How many blocks so many ids want, where they lie evenly.
fn blocks_for(count: usize) -> usize {
    count / 4 + 64
}

// The shift that leaves about `most` blocks in this span, and no more.
fn shift_for(span: u32, most: usize) -> u32
    ensures { result < 64 }
{
    let bits = (2 * u64::from(span) + 1).ilog2();
    bits.saturating_sub(most.max(1).ilog2())
}
