ghost use Rattle.std.specs.Prelude.{◌≡◌, ◌||◌, ℕ, [], ◌<◌, length, map, IsSome, IfOk, IfSome, IsTrue, Some, None, false, slice_index_or};
ghost use Rattle.std.specs.List.Sorted.{IsStrictlySortedBy};
ghost use Rattle.std.specs.Map.{keys_of};
ghost use Rattle.std.specs.Ordering.{nat_cmp};
ghost use Rattle.graph_meaning.specs.declared.roles.OwnerRole.TheVariants.{NotOwned};
ghost use Rattle.graph_meaning.specs.Heap.{is_live};
ghost use Rattle.graph_meaning.specs.Laws.{AllLive, IdsRise};
ghost use Rattle.graph_meaning.specs.Roles.{kinds_of, owner_in};
ghost use Rattle.object_table.specs.Placed.{id_in, IsPlaced};
ghost use Rattle.assert_registry.specs.Assertions.{limit_of};
ghost use Rattle.assert_registry.specs.ByCell.{HaveCells, holds_one_of, owner_at, IsRoleBy, live_owners};

use crate::id_set::IdSet;
use crate::ids::{IdCursor, live_cell};
use graph_meaning::{OwnerRole, Roles};
use heap_base::{ObjId, OutOfMemory};
use object_table::ObjectTable;
use std::alloc::Global;
use std::collections::BTreeMap;

/// Says of the cells of these objects that they are asserted dead.
pub(crate) fn set_dead(roles: &mut Roles, table: &ObjectTable, dead: &[ObjId])
    requires placed { IsPlaced table.now }
    requires cells { HaveCells table.now roles.old }
    requires live { AllLive table.now.table dead.now }
    ensures set { (cell : ℕ) → slice_index_or roles.new.dead cell false ≡ (slice_index_or roles.old.dead cell false || holds_one_of table.now dead.now cell) }
    ensures cells { HaveCells table.now roles.new }
    ensures rest { roles.new ≡ record roles.old { dead = roles.new.dead } }
{
    for id in dead {
        roles.set_dead(live_cell(table, *id));
    }
}

/// Says of the cells of these objects that they are asserted unshared.
pub(crate) fn set_unshared(roles: &mut Roles, table: &ObjectTable, unshared: &[ObjId])
    requires placed { IsPlaced table.now }
    requires cells { HaveCells table.now roles.old }
    requires live { AllLive table.now.table unshared.now }
    ensures set { (cell : ℕ) → slice_index_or roles.new.unshared cell false ≡ (slice_index_or roles.old.unshared cell false || holds_one_of table.now unshared.now cell) }
    ensures cells { HaveCells table.now roles.new }
    ensures rest { roles.new ≡ record roles.old { unshared = roles.new.unshared } }
{
    for id in unshared {
        roles.set_unshared(live_cell(table, *id));
    }
}

/// Sets the limits of so many types by their numbers; the roles have none before. No type past these has one.
pub(crate) fn set_limits(roles: &mut Roles, kinds: u32, limits: &[Option<u32>])
    requires kinds { kinds_of roles.old ≡ kinds }
    requires none { (kind : ℕ) → slice_index_or roles.old.limits kind None ≡ None }
    requires below { (kind : ℕ) → IsSome (limit_of limits.now kind) → kind < kinds }
    ensures set { (kind : ℕ) → slice_index_or roles.new.limits kind None ≡ limit_of limits.now kind }
    ensures kinds { kinds_of roles.new ≡ kinds }
    ensures rest { roles.new ≡ record roles.old { limits = roles.new.limits } }
{
    for kind in 0..kinds {
        if let Some(limit) = limits.get(kind as usize) {
            roles.set_limit(kind, *limit);
        }
    }
}

/// Says of the cell of each ownee whose ownee it is.
pub(crate) fn set_owners(roles: &mut Roles, table: &ObjectTable, owners: &BTreeMap<ObjId, ObjId>)
    requires placed { IsPlaced table.now }
    requires cells { HaveCells table.now roles.old }
    requires live { AllLive table.now.table (keys_of owners.now.entries) }
    requires none { (cell : ℕ) → owner_in roles.old cell ≡ NotOwned }
    ensures set { (cell : ℕ) → IsRoleBy table.now (owner_at table.now owners.now.entries cell) (owner_in roles.new cell) }
    ensures cells { HaveCells table.now roles.new }
    ensures rest { roles.new ≡ record roles.old { ownees = roles.new.ownees } }
{
    let mut ids = IdCursor::new();
    let mut last = None;
    for (ownee, owner) in owners {
        let known = known_owner(table, last, *owner);
        roles.set_owner(ids.live_cell(table, *ownee), known.role);
        last = Some(known);
    }
}

/// The owners that are live, each once, by id.
pub(crate) fn live_owners(
    alloc: Global,
    table: &ObjectTable,
    owners: &BTreeMap<ObjId, ObjId>,
) -> Result<Vec<ObjId>, OutOfMemory>
    requires { IdsRise table.now.table }
    ensures { IfOk result (λ ids. ids.items ≡ live_owners table.now.table owners.now.entries) }
{
    let mut ids = IdSet::new(alloc);
    for owner in owners.values() {
        ids.insert(*owner)?;
    }
    ids.retain_live(table);
    Ok(ids.into_sorted_vec())
}

/// Adds the cells of these objects, which are given by id, to those of the owners.
pub(crate) fn add_owners(roles: &mut Roles, table: &ObjectTable, owners: &[ObjId])
    requires cells { HaveCells table.now roles.old }
    requires live { AllLive table.now.table owners.now }
    requires rising { IsStrictlySortedBy nat_cmp owners.now }
    requires none { roles.old.owners ≡ [] }
    ensures added { map (id_in table.now) roles.new.owners ≡ map Some owners.now }
    ensures rest { roles.new ≡ record roles.old { owners = roles.new.owners } }
{
    for id in owners {
        roles.add_owner(live_cell(table, *id));
    }
}

// An owner, and the role of its ownees.
#[derive(Clone, Copy)]
struct KnownOwner {
    owner: ObjId,
    role: OwnerRole,
}

// The owner with the role of its ownees. Ownees that follow one another by id mostly have one owner, which is looked up once.
fn known_owner(table: &ObjectTable, last: Option<KnownOwner>, owner: ObjId) -> KnownOwner
    requires last { IfSome last (λ l. IsRoleBy table.now (Some l.owner) l.role) }
    ensures owner { result.owner ≡ owner }
    ensures role { IsRoleBy table.now (Some owner) result.role }
{
    match last {
        Some(known) if known.owner == owner => known,
        _ => KnownOwner {
            owner,
            role: role_of(table, owner),
        },
    }
}

// The role of an ownee of this owner.
fn role_of(table: &ObjectTable, owner: ObjId) -> OwnerRole
    ensures { IsRoleBy table.now (Some owner) result }
{
    match table.cell_of(owner) {
        Some(cell) => OwnerRole::OwnerCell(cell),
        None => OwnerRole::OwnerGone(owner.number()),
    }
}
