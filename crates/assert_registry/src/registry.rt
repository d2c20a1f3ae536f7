ghost use Rattle.std.specs.Prelude.{◌≡◌, ◌<◌, ◌==◌, length, fold, Some, IfOk, OnOk, OnErr, slice_set};
ghost use Rattle.std.specs.BTreeMap.{insert_entry};
ghost use Rattle.std.specs.BTreeSet.{insert_key};
ghost use Rattle.std.specs.Ordering.{nat_cmp};
ghost use Rattle.graph_meaning.specs.declared.refusal.Refusal.TheVariants.{SelfOwned};
ghost use Rattle.graph_meaning.specs.Answers.{RefusesBy};
ghost use Rattle.graph_meaning.specs.Roles.{AreRolesOf};
ghost use Rattle.graph_meaning.specs.Step.{refusal_where};
ghost use Rattle.assert_registry.specs.Assertions.{no_assertions, kind_room, owner_of, with_room, live_part, AreConsistent};
ghost use Rattle.assert_registry.specs.ByCell.{SpeakOfTable, AreRolesBy};

use crate::id_set::IdSet;
use crate::ids::IdCursor;
use crate::roles::{add_owners, live_owners, set_dead, set_limits, set_owners, set_unshared};
use graph_meaning::{Refusal, Roles, Stop};
use heap_base::{ObjId, OutOfMemory};
use object_table::ObjectTable;
use std::alloc::Global;
use std::collections::BTreeMap;
use std::marker::Model;

/// What a trace asserts of objects and types. Contracts see it as `Assertions`.
#[derive(Drop)]
pub struct AssertRegistry {
    dead: IdSet,
    unshared: IdSet,
    // the limit of each type, by its number
    limits: Vec<Option<u32>>,
    // the owner of each ownee
    owners: BTreeMap<ObjId, ObjId>,
    alloc: Global,
}

impl Model for AssertRegistry {
    ghost use Rattle.std.specs.Prelude.{◌<◌, ◌^◌, vec_len};
    ghost use Rattle.assert_registry.specs.Assertions.{Assertions, AreConsistent};

    ghost Value = { Assertions };

    ghost view = { λ r. record { dead = r.dead; unshared = r.unshared; limits = r.limits.items; owners = r.owners.entries } };

    ghost invariant = { λ r. AreConsistent (record { dead = r.dead; unshared = r.unshared; limits = r.limits.items; owners = r.owners.entries }) × (vec_len r.limits < 2 ^ 32) };
}

impl AssertRegistry {
    /// A registry with no assertion, and with room for no limit.
    pub fn make(alloc: Global) -> Result<AssertRegistry, OutOfMemory>
        ensures { IfOk result (λ r. r ≡ no_assertions) }
    {
        Ok(AssertRegistry {
            dead: IdSet::new(alloc),
            unshared: IdSet::new(alloc),
            limits: Vec::new(alloc),
            owners: BTreeMap::new(alloc),
            alloc,
        })
    }

    /// The object is asserted dead from now on. When out of memory, nothing has changed.
    pub fn assert_dead(&mut self, id: ObjId) -> Result<(), OutOfMemory>
        ensures done { OnOk result (self.new ≡ record self.old { dead = insert_key nat_cmp self.old.dead id }) }
        ensures err { OnErr result (self.new ≡ self.old) }
    {
        self.dead.insert(id)
    }

    /// All these objects are asserted dead from now on. When out of memory, none of them is, and
    /// nothing has changed.
    pub fn assert_dead_all(&mut self, ids: &[ObjId]) -> Result<(), OutOfMemory>
        ensures done { OnOk result (self.new ≡ record self.old { dead = fold (insert_key nat_cmp) self.old.dead ids.now }) }
        ensures err { OnErr result (self.new ≡ self.old) }
    {
        self.dead.insert_all(ids)
    }

    /// The object is asserted unshared from now on. When out of memory, nothing has changed.
    pub fn assert_unshared(&mut self, id: ObjId) -> Result<(), OutOfMemory>
        ensures done { OnOk result (self.new ≡ record self.old { unshared = insert_key nat_cmp self.old.unshared id }) }
        ensures err { OnErr result (self.new ≡ self.old) }
    {
        self.unshared.insert(id)
    }

    /// Makes room for the limits of so many types, with the numbers from 0. When out of memory, nothing has
    /// changed.
    pub fn reserve_kinds(&mut self, kinds: u32) -> Result<(), OutOfMemory>
        ensures done { OnOk result (self.new ≡ record self.old { limits = with_room self.old.limits kinds }) }
        ensures err { OnErr result (self.new ≡ self.old) }
    {
        let kinds = kinds as usize;
        if kinds > self.limits.len() {
            self.limits.resize(kinds, None)?;
        }
        Ok(())
    }

    /// For how many types there is room for a limit: those with the numbers below this.
    pub fn kind_room(&self) -> u32
        ensures room { result ≡ kind_room self.now }
        ensures consistent { AreConsistent self.now }
    {
        self.limits.len() as u32
    }

    /// The type has this limit from now on, in place of an earlier one. It takes no memory.
    pub fn assert_instances(&mut self, kind: u32, limit: u32)
        requires { kind < kind_room self.old }
        ensures { self.new ≡ record self.old { limits = slice_set self.old.limits kind (Some limit) } }
    {
        self.limits[kind as usize] = Some(limit);
    }

    /// The ownee has this owner from now on, in place of an earlier one. It refuses an object that is to own itself
    /// (`SelfOwned`). After a refusal, and when out of memory, nothing has changed.
    pub fn assert_ownedby(&mut self, owner: ObjId, ownee: ObjId) -> Result<(), Stop>
        ensures refused { RefusesBy result (refusal_where (owner == ownee) (SelfOwned owner)) }
        ensures done { OnOk result (self.new ≡ record self.old { owners = insert_entry nat_cmp self.old.owners ownee owner }) }
        ensures err { OnErr result (self.new ≡ self.old) }
    {
        if owner == ownee {
            return Err(Stop::Refused(Refusal::SelfOwned(owner.number())));
        }
        let Ok(_) = self.owners.insert(ownee, owner) else {
            return Err(Stop::OutOfMemory);
        };
        Ok(())
    }

    /// The owner of an ownee, which may have been freed; no other object has one.
    pub fn owner_of(&self, ownee: ObjId) -> Option<ObjId>
        ensures { result ≡ owner_of self.now.owners ownee }
    {
        self.owners.get(&ownee).copied()
    }

    /// The roles that the assertions make of the table: whether the object in a cell is asserted dead, whether unshared,
    /// and whose ownee it is; the limit of each type; and the cells of the live owners, by the owners' ids. It is asked
    /// where what is asserted dead, unshared or an ownee is live in the table, and types with a limit were seen.
    pub fn roles(&self, table: &ObjectTable) -> Result<Roles, OutOfMemory>
        requires { SpeakOfTable self.now table.now.table }
        ensures of_table { IfOk result (AreRolesOf table.now.cells (length table.now.table.kinds)) }
        ensures by_assertions { IfOk result (AreRolesBy self.now table.now) }
    {
        let mut roles = Roles::make(self.alloc, table.cells(), table.kinds())?;
        set_dead(&mut roles, table, self.dead.as_slice());
        set_unshared(&mut roles, table, self.unshared.as_slice());
        set_limits(&mut roles, table.kinds(), &self.limits);
        set_owners(&mut roles, table, &self.owners);
        let live = live_owners(self.alloc, table, &self.owners)?;
        add_owners(&mut roles, table, &live);
        Ok(roles)
    }

    /// Forgets what is asserted of objects that are not live in the table. The owner of a live ownee stays, though it be
    /// freed; limits and their room stay. It takes no memory.
    pub fn keep(&mut self, table: &ObjectTable)
        ensures { self.new ≡ live_part table.now.table self.old }
    {
        self.dead.retain_live(table);
        self.unshared.retain_live(table);
        let mut ids = IdCursor::new();
        self.owners.retain(|ownee, _| ids.is_live(table, *ownee));
    }
}
