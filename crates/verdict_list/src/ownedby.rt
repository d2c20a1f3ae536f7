//! The verdicts on ownees.
ghost use Rattle.graph_meaning.specs.Heap.{Heap};
ghost use Rattle.graph_meaning.specs.Paths.{shown_path, unowned_way};
ghost use Rattle.graph_meaning.specs.Reach.{has_id};
ghost use Rattle.graph_meaning.specs.Roles.{AreRolesOf, id_at};
ghost use Rattle.verdict_list.specs.Ownership.{AreViolating};
ghost use Rattle.std.specs.Prelude.{◌≡◌, ◌<◌, ◌+◌, ◌^◌, length, map, IsTrue, IfOk, OnOk};
ghost use Rattle.verdict_list.specs.Listed.{ownedby_in, path_if, verdict_if, ChecksHeap, GoesOn};

use crate::owner::owner_of;
use crate::ownership::OwnershipCheck;
use crate::shown_paths::shown;
use graph_meaning::{Roles, Shown, Verdict, VerdictList};
use heap_base::OutOfMemory;
use object_table::ObjectTable;
use path_cert::{object_id, object_kind};
use std::alloc::Global;

/// A table with its roles, of which it is known which ownees violate.
#[derive(Clone, Copy)]
pub(crate) struct CheckedTable<'a> {
    pub(crate) alloc: Global,
    pub(crate) table: &'a ObjectTable,
    pub(crate) roles: &'a Roles,
    pub(crate) check: &'a OwnershipCheck,
}

// The path to a violating ownee, where it is to be shown.
fn ownee_path(checked: CheckedTable<'_>, cell: u32, is_shown: bool) -> Result<Shown, OutOfMemory>
    requires check { (h : Heap) × AreViolating checked.table.now h checked.check.now }
    requires ownee { IsTrue (has_id checked.check.now.ownees cell) }
    ensures { let c = checked.entry in IfOk result (λ s. (h : Heap) → AreViolating c.table.now h c.check.now → s ≡ path_if is_shown (shown_path (unowned_way h (id_at c.table.now.cells cell)))) }
{
    if is_shown {
        shown(checked.alloc, checked.check.path(checked.table, cell)?)
    } else {
        Ok(Shown::LeftOut)
    }
}

// The verdict on the ownee in a cell.
fn ownee_verdict(
    checked: CheckedTable<'_>,
    cell: u32,
    is_shown: bool,
) -> Result<Verdict, OutOfMemory>
    requires roles { AreRolesOf checked.table.now.cells (length checked.table.now.table.kinds) checked.roles.now }
    requires check { (h : Heap) × ChecksHeap checked h }
    requires ownee { IsTrue (has_id checked.check.now.ownees cell) }
    ensures { let c = checked.entry in IfOk result (λ v. (h : Heap) → ChecksHeap c h → v ≡ verdict_if is_shown (ownedby_in c.table.now h cell)) }
{
    let CheckedTable { table, roles, .. } = checked;
    let path = ownee_path(checked, cell, is_shown)?;
    let kind = object_kind(table, cell)?;
    let id = object_id(table, cell);
    let owner = owner_of(table, roles, cell);
    Ok(Verdict::OwnedBy {
        id,
        kind,
        owner: owner.id,
        gone: owner.gone,
        path,
    })
}

/// Puts the verdicts on the violating ownees last.
pub(crate) fn push_ownees(
    list: &mut VerdictList,
    checked: CheckedTable<'_>,
    paths: u32,
) -> Result<(), OutOfMemory>
    requires room { length list.old + length checked.check.now.ownees < 2 ^ 32 }
    requires roles { AreRolesOf checked.table.now.cells (length checked.table.now.table.kinds) checked.roles.now }
    requires check { (h : Heap) × ChecksHeap checked h }
    ensures length { OnOk result (length list.new ≡ length list.old + length checked.entry.check.now.ownees) }
    ensures verdicts { let c = checked.entry in OnOk result ((h : Heap) → ChecksHeap c h → GoesOn paths list.old (map (ownedby_in c.table.now h) c.check.now.ownees) list.new) }
{
    list.reserve(checked.check.ownees().len() as u32)?;
    for cell in checked.check.ownees() {
        let is_shown = list.len() < paths;
        let verdict = ownee_verdict(checked, *cell, is_shown)?;
        list.push(verdict)?;
    }
    Ok(())
}
