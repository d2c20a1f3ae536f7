ghost use Rattle.std.specs.Prelude.{◌≡◌, ◌<◌, ◌≤◌, [], length, is_some, slice_get, IfSome, IfOk, IfErr, OnOk, OnErr, None};
ghost use Rattle.std.specs.List.{count_by};
ghost use Rattle.std.specs.List.Sorted.{IsSearchInRange};
ghost use Rattle.std.specs.Map.{lookup, remove_entry};
ghost use Rattle.std.specs.BTreeMap.{insert_entry, is_at};
ghost use Rattle.heap_base.specs.declared.limits.TheConstants.{MOST_ROOTS};
ghost use Rattle.graph_meaning.specs.Heap.{name_cmp};
ghost use Rattle.object_table.specs.Blocks.{roots_cleared};
ghost use Rattle.object_table.specs.Located.{RisesById, is_marked_id};
ghost use Rattle.object_table.specs.Ordered.{EntriesAreOrdered, IsNamedAt, IsGapFor};

use crate::blocks::Blocks;
use crate::entry::Entry;
use crate::ids::Ids;
use heap_base::{Name, ObjId, OutOfMemory};
use std::alloc::Global;
use std::marker::Model;

/// The roots by the bytes of their names, no more than there may be, each with the object that it holds. Contracts see
/// the list of those pairs.
#[derive(Drop)]
pub struct Roots {
    blocks: Blocks,
}

impl Model for Roots {
    ghost use Rattle.std.specs.Prelude.{List, ℕ};
    ghost use Rattle.object_table.specs.Ordered.{EntriesAreOrdered};

    ghost Value = { List (List ℕ × ℕ) };

    ghost view = { λ r. r.blocks };

    ghost invariant = { λ r. EntriesAreOrdered r.blocks };
}

impl Roots {
    /// No root.
    pub fn make(alloc: Global) -> Roots
        ensures { result ≡ [] }
    {
        Roots {
            blocks: Blocks::make(alloc),
        }
    }

    /// Equal roots.
    pub fn copy(&self) -> Result<Roots, OutOfMemory>
        ensures { IfOk result (λ r. r ≡ self.now) }
    {
        Ok(Roots {
            blocks: self.blocks.copy()?,
        })
    }

    /// How many there are.
    pub fn len(&self) -> u32
        ensures count { result ≡ length self.now }
        ensures few { result ≤ MOST_ROOTS }
    {
        self.blocks.len() as u32
    }

    /// The name of the root at this place.
    pub fn name(&self, place: u32) -> &Name
        requires { place < length self.now }
        ensures { IfSome (slice_get self.now place) (λ r. result.now ≡ r.0) }
    {
        self.blocks.at(place as usize).name()
    }

    /// The number of the id of the object that the root at this place holds.
    pub fn number(&self, place: u32) -> u32
        requires { place < length self.now }
        ensures { IfSome (slice_get self.now place) (λ r. result ≡ r.1) }
    {
        self.blocks.at(place as usize).number()
    }

    /// Whether a root has this name.
    pub fn has(&self, name: &Name) -> bool
        ensures { result ≡ is_some (lookup (is_at (name_cmp name.now)) self.now) }
    {
        self.search(name).is_ok()
    }

    /// Lets the name hold the object. Only a new name takes memory.
    pub fn set(&mut self, name: &Name, id: ObjId) -> Result<(), OutOfMemory>
        requires { lookup (is_at (name_cmp name.now)) self.old ≡ None → length self.old < MOST_ROOTS }
        ensures set { OnOk result (self.new ≡ insert_entry name_cmp self.old name.now id) }
        ensures err { OnErr result (self.new ≡ self.old) }
        ensures memory { OnErr result (lookup (is_at (name_cmp name.now)) self.old ≡ None) }
    {
        let number = id.number();
        match self.search(name) {
            Ok(place) => {
                self.blocks.set_number(place, number);
                Ok(())
            }
            Err(place) => {
                let name = name.copy()?;
                self.blocks.insert(place, Entry::make(name, number))?;
                Ok(())
            }
        }
    }

    /// Takes the name away, where it is there.
    pub fn remove(&mut self, name: &Name)
        ensures { self.new ≡ remove_entry (is_at (name_cmp name.now)) self.old }
    {
        if let Ok(place) = self.search(name) {
            self.blocks.remove(place);
        }
    }

    /// Takes away the roots that hold the object of a marked cell. Answers how many these were.
    pub fn clear_to(&mut self, ids: &Ids, marked: &[bool]) -> u32
        requires { RisesById ids.now }
        ensures cleared { self.new ≡ roots_cleared ids.now marked.now self.old }
        ensures count { result ≡ count_by (λ r. is_marked_id ids.now marked.now r.1) self.old }
        ensures few { result ≤ MOST_ROOTS }
    {
        let before = self.len();
        self.blocks.clear_to(ids, marked);
        before - self.len()
    }

    // Where the name is, or where it would go.
    fn search(&self, name: &Name) -> Result<usize, usize>
        ensures in_range { IsSearchInRange result (length self.now) }
        ensures found { IfOk result (IsNamedAt name.now self.now) }
        ensures gap { IfErr result (IsGapFor name.now self.now) }
        ensures ordered { EntriesAreOrdered self.now }
    {
        self.blocks.search(name)
    }
}
