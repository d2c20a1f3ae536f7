//! What an owner finds.
ghost use Rattle.graph_meaning.specs.Heap.{targets};
ghost use Rattle.graph_meaning.specs.Reach.{has_id};
ghost use Rattle.graph_meaning.specs.Roles.{AreRolesOf, cells_of, id_at};
ghost use Rattle.object_table.specs.Placed.{id_in, IsPlaced};
ghost use Rattle.path_cert.specs.Finds.{is_border_cell, finds_in};
ghost use Rattle.path_cert.specs.Quests.{MeetsAll, Reaches, KeepsSearching, remaining};
ghost use Rattle.std.specs.Prelude.{◌≡◌, ◌≤◌, ◌<◌, ◌||◌, ◌∷◌, ℕ, List, [], length, map, false, All, IfOk, OnOk, IsTrue, IsSome};

use graph_meaning::Roles;
use heap_base::OutOfMemory;
use object_table::ObjectTable;
use std::alloc::Global;
use std::marker::Model;

/// Whether the owner finds each of these objects: a path of one or more edges leads to it from the owner and goes on from
/// no owner and no ownee. The search ends when all are found. It takes 4 bytes a cell, and memory for what it has still to follow. Who asks
/// several owners of a table makes an `OwnerSearch` for all of them.
pub fn finds(
    alloc: Global,
    table: &ObjectTable,
    roles: &Roles,
    owner: u32,
    ownees: &[u32],
) -> Result<Vec<bool>, OutOfMemory>
    requires roles { AreRolesOf table.now.cells (length table.now.table.kinds) roles.now }
    requires owner { IsSome (id_in table.now owner) }
    requires ownees { All (λ ownee. IsSome (id_in table.now ownee)) ownees.now }
    ensures found { IfOk result (λ found. found.items ≡ map (finds_in table.now roles.now owner) ownees.now) }
{
    let mut search = OwnerSearch::make(alloc, table.cells())?;
    search.finds(table, roles, owner, ownees)
}

/// Asks owners of a table, one after another, what they find. What it keeps is made once for all of them, and no search clears it, so
/// that each takes the time of the edges that it follows. Contracts see the number of cells.
#[derive(Drop)]
pub struct OwnerSearch {
    search: Search,
}

impl Model for OwnerSearch {
    ghost use Rattle.std.specs.Prelude.{ℕ, length};

    ghost Value = { ℕ };

    ghost view = { λ s. length s.search.met_in.items };
}

impl OwnerSearch {
    /// For a table of so many cells. It takes 4 bytes a cell.
    pub fn make(alloc: Global, cells: u32) -> Result<OwnerSearch, OutOfMemory>
        ensures cells { IfOk result (λ s. s ≡ cells) }
    {
        let search = Search::make(alloc, cells)?;
        Ok(OwnerSearch { search })
    }

    /// Whether the owner finds each of these objects: a path of one or more edges leads to it from the owner and goes on from no owner
    /// and no ownee. The search ends when all are found. It takes memory for what it has still to follow. After `OutOfMemory` it can be
    /// asked again.
    pub fn finds(
        &mut self,
        table: &ObjectTable,
        roles: &Roles,
        owner: u32,
        ownees: &[u32],
    ) -> Result<Vec<bool>, OutOfMemory>
        requires cells { self.old ≡ length table.now.cells }
        requires roles { AreRolesOf table.now.cells (length table.now.table.kinds) roles.now }
        requires owner { IsSome (id_in table.now owner) }
        requires ownees { All (λ ownee. IsSome (id_in table.now ownee)) ownees.now }
        ensures cells { self.new ≡ self.old }
        ensures found { IfOk result (λ found. found.items ≡ map (finds_in table.now roles.now owner) ownees.now) }
    {
        let quest = Quest {
            table,
            roles,
            owner,
        };
        self.search.ask(quest, ownees)
    }
}

// The search of an owner in a table with its roles.
#[derive(Clone, Copy)]
pub(crate) struct Quest<'a> {
    table: &'a ObjectTable,
    roles: &'a Roles,
    owner: u32,
}

// For each cell the number of the last round in which its object was met, and 0 where it never was; the number of the round that is
// under way; and the cells from which this round has still to go on.
#[derive(Drop)]
pub(crate) struct Search {
    met_in: Vec<u32>,
    round: u32,
    work: Vec<u32>,
    ghost past: { All (λ number. number ≤ round) met_in.items },
}

impl Search {
    ghost use Rattle.path_cert.specs.Searches.{sought_in};

    fn make(alloc: Global, cells: u32) -> Result<Search, OutOfMemory>
        ensures each { IfOk result (λ s. length s.met_in.items ≡ cells) }
    {
        let met_in = vec![in alloc; 0; cells as usize]?;
        Ok(Search {
            met_in,
            round: 0,
            work: Vec::new(alloc),
        })
    }

    // One round: whether the owner finds each of these.
    fn ask(&mut self, quest: Quest<'_>, ownees: &[u32]) -> Result<Vec<bool>, OutOfMemory>
        requires each { length self.old.met_in.items ≡ length quest.table.now.cells }
        requires roles { AreRolesOf quest.table.now.cells (length quest.table.now.table.kinds) quest.roles.now }
        requires owner { IsSome (id_in quest.table.now quest.owner) }
        requires ownees { All (λ ownee. IsSome (id_in quest.table.now ownee)) ownees.now }
        ensures each { length self.new.met_in.items ≡ length self.old.met_in.items }
        ensures found { IfOk result (λ found. found.items ≡ map (finds_in quest.entry.table.now quest.entry.roles.now quest.entry.owner) ownees.now) }
    {
        let Quest {
            table,
            roles,
            owner,
        } = quest;
        let cells = table.cells();
        prove!(owner < cells);
        let mut found = Vec::with_capacity(*self.work.allocator(), ownees.len())?;
        self.begin();
        self.follow(table, roles, owner)?;
        for ownee in ownees {
            found.push_reserved(self.seek(table, roles, *ownee)?);
        }
        Ok(found)
    }

    // Begins a round, in which nothing is met so far, since its number is above all that stand in cells.
    fn begin(&mut self)
        ensures each { length self.new.met_in.items ≡ length self.old.met_in.items }
        ensures met { (x : ℕ) → (sought_in self.new).met x ≡ false }
        ensures work { self.new.work.items ≡ [] }
    {
        self.reserve_number();
        self.round += 1;
        self.work.clear();
    }

    // Sees to it that a number is left for one more round: where there is none, the cells forget theirs.
    fn reserve_number(&mut self)
        ensures each { length self.new.met_in.items ≡ length self.old.met_in.items }
        ensures left { self.new.round < u32.MAX }
    {
        if self.round == u32::MAX {
            self.met_in.as_mut_slice().fill(0);
            self.round = 0;
        }
    }

    // Goes on until the object in a cell is met, or there is nothing left to follow: whether it was met.
    fn seek(&mut self, table: &ObjectTable, roles: &Roles, ownee: u32) -> Result<bool, OutOfMemory>
        requires each { length self.old.met_in.items ≡ length table.now.cells }
        requires placed { IsPlaced table.now }
        requires roles { AreRolesOf table.now.cells (length table.now.table.kinds) roles.now }
        requires ownee { ownee < length table.now.cells }
        requires work { (x : ℕ) → IsTrue (has_id self.old.work.items x) → IsSome (id_in table.now x) }
        ensures each { length self.new.met_in.items ≡ length self.old.met_in.items }
        ensures work { OnOk result ((x : ℕ) → IsTrue (has_id self.new.work.items x) → IsSome (id_in table.now x)) }
        ensures searching { OnOk result ((owner : ℕ) → KeepsSearching (record { placed = table.now; roles = roles.now; owner = owner }) (sought_in self.old) (sought_in self.new)) }
        ensures met { IfOk result (λ is_met. is_met ≡ (sought_in self.new).met ownee) }
        ensures done { IfOk result (λ is_met. is_met ≡ false → self.new.work.items ≡ []) }
    {
        while !self.is_met(ownee) {
            let Some(cell) = self.work.pop() else {
                return Ok(false);
            };
            self.follow(table, roles, cell)?;
        }
        Ok(true)
    }

    // Meets what the edges of the object in a cell lead to.
    #[inline(always)]
    fn follow(&mut self, table: &ObjectTable, roles: &Roles, cell: u32) -> Result<(), OutOfMemory>
        requires each { length self.old.met_in.items ≡ length table.now.cells }
        requires placed { IsPlaced table.now }
        requires roles { cells_of roles.now ≡ length table.now.cells }
        requires cell { IsSome (id_in table.now cell) }
        ensures each { length self.new.met_in.items ≡ length self.old.met_in.items }
        ensures reaches { OnOk result (Reaches (record { placed = table.now; roles = roles.now }) (targets table.now.table (id_at table.now.cells cell)) (sought_in self.old) (sought_in self.new)) }
        ensures remaining { OnOk result (remaining (length table.now.cells) (sought_in self.new) ≤ remaining (length table.now.cells) (sought_in self.old)) }
    {
        let edges = table.edges_at(cell);
        for slot in 0..edges.len() {
            if let Some(target) = edges.at(slot) {
                self.meet(roles, target)?;
            }
        }
        Ok(())
    }

    // Meets the object in a cell. Where it is new in this round and no border object, the round goes on from it.
    fn meet(&mut self, roles: &Roles, cell: u32) -> Result<(), OutOfMemory>
        requires each { length self.old.met_in.items ≡ cells_of roles.now }
        requires cell { cell < cells_of roles.now }
        ensures each { length self.new.met_in.items ≡ length self.old.met_in.items }
        ensures meets { OnOk result (MeetsAll roles.now (cell ∷ []) (sought_in self.old) (sought_in self.new)) }
        ensures remaining { OnOk result (remaining (cells_of roles.now) (sought_in self.new) ≤ remaining (cells_of roles.now) (sought_in self.old)) }
    {
        if !self.is_met(cell) {
            self.met_in[cell as usize] = self.round;
            if !is_border(roles, cell) {
                self.work.push(cell)?;
            }
        }
        Ok(())
    }

    // Whether the object in a cell was met in this round.
    fn is_met(&self, cell: u32) -> bool
        requires { cell < length self.now.met_in.items }
        ensures { result ≡ (sought_in self.now).met cell }
    {
        self.met_in[cell as usize] == self.round
    }
}

// Whether the object in a cell is an owner or an ownee.
fn is_border(roles: &Roles, cell: u32) -> bool
    requires { cell < cells_of roles.now }
    ensures { result ≡ is_border_cell roles.now cell }
{
    let border = roles.border(cell);
    border.owner || border.ownee
}
