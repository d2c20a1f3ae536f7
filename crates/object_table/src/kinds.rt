ghost use Rattle.std.specs.Prelude.{◌≡◌, ◌<◌, ◌≤◌, ◌++◌, ◌∷◌, [], length, position, slice_get, Some, None, false, IfOk, OnOk, OnErr};
ghost use Rattle.std.specs.Str.{bytes_eq};
ghost use Rattle.graph_meaning.specs.Heap.{is_seen};
ghost use Rattle.graph_meaning.specs.Step.{with_kind};
ghost use Rattle.heap_base.specs.declared.limits.TheConstants.{MOST_KINDS};

use crate::blocks::Blocks;
use crate::entry::Entry;
use crate::guesses::Guesses;
use heap_base::{Name, OutOfMemory};
use std::alloc::Global;
use std::marker::Model;

/// The type names that were seen, no more than there may be, in the order in which they first came. Contracts see their
/// list.
#[derive(Drop)]
pub struct Kinds {
    names: Vec<Name>,
    // each name with its place, by its bytes
    places: Blocks,
    guesses: Guesses,
}

impl Model for Kinds {
    ghost use Rattle.std.specs.Prelude.{List, ℕ};

    ghost Value = { List (List ℕ) };

    ghost use Rattle.object_table.specs.Indexed.{IsIndexed};

    ghost view = { λ k. k.names.items };

    ghost invariant = { λ k. IsIndexed k.names.items k.places };
}

impl Kinds {
    /// No name.
    pub fn make(alloc: Global) -> Kinds
        ensures { result ≡ [] }
    {
        Kinds {
            names: Vec::new(alloc),
            places: Blocks::make(alloc),
            guesses: Guesses::make(alloc),
        }
    }

    /// Equal names, in the same order.
    pub fn copy(&self) -> Result<Kinds, OutOfMemory>
        ensures { IfOk result (λ k. k ≡ self.now) }
    {
        let mut names = Vec::with_capacity(*self.names.allocator(), self.names.len())?;
        for name in &self.names {
            names.push(name.copy()?)?;
        }
        Ok(Kinds {
            names,
            places: self.places.copy()?,
            guesses: self.guesses.copy()?,
        })
    }

    /// The place of the name, from 0, and `None` where it was not seen.
    pub fn find(&self, name: &Name) -> Option<u32>
        ensures { result ≡ position (bytes_eq name.now) self.now }
    {
        if let Some(guess) = self.guesses.guess(name) {
            if let Some(guessed) = self.names.get(guess as usize) {
                if guessed.as_str() == name.as_str() {
                    return Some(guess);
                }
            }
        }
        match self.places.search(name) {
            Ok(place) => Some(self.places.at(place).number()),
            Err(_) => None,
        }
    }

    /// How many names there are.
    pub fn len(&self) -> u32
        ensures count { result ≡ length self.now }
        ensures few { result ≤ MOST_KINDS }
    {
        self.names.len() as u32
    }

    /// The name at this place.
    pub fn name(&self, place: u32) -> &Name
        requires { place < length self.now }
        ensures { slice_get self.now place ≡ Some result.now }
    {
        &self.names[place as usize]
    }

    /// The place of the name, for which `find` has looked; it is put last where it was not seen.
    pub fn learn(&mut self, name: &Name, found: Option<u32>) -> Result<u32, OutOfMemory>
        requires found { found ≡ position (bytes_eq name.now) self.old }
        requires room { is_seen self.old name.now ≡ false → length self.old < MOST_KINDS }
        ensures number { IfOk result (λ n. position (bytes_eq name.now) self.new ≡ Some n) }
        ensures seen { OnOk result (self.new ≡ with_kind self.old name.now) }
        ensures err { OnErr result (self.new ≡ self.old) }
    {
        match found {
            Some(number) => Ok(number),
            None => self.add(name),
        }
    }

    fn add(&mut self, name: &Name) -> Result<u32, OutOfMemory>
        requires new { position (bytes_eq name.now) self.old ≡ None }
        requires room { length self.old < MOST_KINDS }
        ensures number { IfOk result (λ n. position (bytes_eq name.now) self.new ≡ Some n) }
        ensures seen { OnOk result (self.new ≡ with_kind self.old name.now) }
        ensures err { OnErr result (self.new ≡ self.old) }
    {
        let Err(gap) = self.places.search(name) else {
            unreachable!()
        };
        let number = self.names.len() as u32;
        self.guesses.reserve()?;
        let entry = Entry::make(name.copy()?, number);
        self.names.push(name.copy()?)?;
        let Ok(()) = self.places.insert(gap, entry) else {
            self.names.pop();
            return Err(OutOfMemory);
        };
        self.guesses.note(name, number);
        Ok(number)
    }
}
