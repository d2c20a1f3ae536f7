//! Sample heaps: a table, a registry of what is asserted, and the roles of the table's cells.
ghost use Rattle.std.specs.Prelude.{length, IfOk};
ghost use Rattle.graph_meaning.specs.Roles.{AreRolesOf};

use crate::names::{id, name};
use assert_registry::AssertRegistry;
use graph_meaning::Roles;
use heap_base::Limits;
use object_table::ObjectTable;
use std::alloc::Global;
use std::test::Fail;

/// A heap and what is asserted of it. All objects are named by their ids.
#[derive(Clone, Copy)]
pub struct SampleHeap<'a> {
    /// The id, the type and the number of slots of each object, by rising ids.
    pub objects: &'a [(u32, &'a str, u32)],
    /// Object, slot, and the object that the slot holds.
    pub stores: &'a [(u32, u32, u32)],
    /// Object and slot of each weak slot.
    pub weak: &'a [(u32, u32)],
    /// Each root with the object that it names.
    pub roots: &'a [(&'a str, u32)],
    /// Each owner with its ownee, in the order in which they are asserted.
    pub owned: &'a [(u32, u32)],
    /// The objects that are asserted dead.
    pub dead: &'a [u32],
    /// The objects that are asserted unshared.
    pub unshared: &'a [u32],
}

impl SampleHeap<'_> {
    /// Nothing at all: what a sample doesn't name is taken from here.
    pub const EMPTY: SampleHeap<'static> = SampleHeap {
        objects: &[],
        stores: &[],
        weak: &[],
        roots: &[],
        owned: &[],
        dead: &[],
        unshared: &[],
    };
}

fn add_objects(
    alloc: Global,
    table: &mut ObjectTable,
    objects: &[(u32, &str, u32)],
) -> Result<(), Fail> {
    for (object, kind, slots) in objects {
        table.alloc_object(id(*object)?, &name(alloc, kind)?, *slots)?;
    }
    Ok(())
}

fn fill_slots(table: &mut ObjectTable, stores: &[(u32, u32, u32)]) -> Result<(), Fail> {
    for (at, slot, to) in stores {
        table.store(id(*at)?, *slot, Some(id(*to)?))?;
    }
    Ok(())
}

fn make_weak(table: &mut ObjectTable, weak: &[(u32, u32)]) -> Result<(), Fail> {
    for (at, slot) in weak {
        table.set_weak(id(*at)?, *slot, true)?;
    }
    Ok(())
}

fn set_roots(alloc: Global, table: &mut ObjectTable, roots: &[(&str, u32)]) -> Result<(), Fail> {
    for (root, to) in roots {
        table.set_root(&name(alloc, root)?, Some(id(*to)?))?;
    }
    Ok(())
}

/// The table of the heap; an error where one of its operations is refused.
pub fn table_of(alloc: Global, heap: SampleHeap<'_>) -> Result<ObjectTable, Fail> {
    let mut table = ObjectTable::make(alloc, Limits::usual())?;
    add_objects(alloc, &mut table, heap.objects)?;
    fill_slots(&mut table, heap.stores)?;
    make_weak(&mut table, heap.weak)?;
    set_roots(alloc, &mut table, heap.roots)?;
    Ok(table)
}

/// What is asserted of the heap's objects.
pub fn registry_of(alloc: Global, heap: SampleHeap<'_>) -> Result<AssertRegistry, Fail> {
    let mut registry = AssertRegistry::make(alloc)?;
    for (owner, ownee) in heap.owned {
        registry.assert_ownedby(id(*owner)?, id(*ownee)?)?;
    }
    for object in heap.dead {
        registry.assert_dead(id(*object)?)?;
    }
    for object in heap.unshared {
        registry.assert_unshared(id(*object)?)?;
    }
    Ok(registry)
}

/// The roles that the registry gives the table, once what is asserted of objects that aren't live was forgotten.
/// An error where the registry has room for the limit of a type that the table doesn't know, or out of memory.
pub fn roles_of(registry: &mut AssertRegistry, table: &ObjectTable) -> Result<Roles, Fail>
    ensures { IfOk result (λ r. AreRolesOf table.now.cells (length table.now.table.kinds) r) }
{
    registry.keep(table);
    if registry.kind_room() > table.kinds() {
        return Err("limits of types that were not seen".into());
    }
    Ok(registry.roles(table)?)
}

/// The roles that what is asserted of the heap gives the table.
pub fn roles_in(alloc: Global, table: &ObjectTable, heap: SampleHeap<'_>) -> Result<Roles, Fail>
    ensures { IfOk result (λ r. AreRolesOf table.now.cells (length table.now.table.kinds) r) }
{
    let mut registry = registry_of(alloc, heap)?;
    roles_of(&mut registry, table)
}
