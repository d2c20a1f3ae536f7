//! The verdicts on objects that are asserted dead.
ghost use Rattle.graph_meaning.specs.Collecting.{dead_verdict};
ghost use Rattle.graph_meaning.specs.Heap.{Heap};
ghost use Rattle.graph_meaning.specs.Roles.{RoleTable, id_at};
ghost use Rattle.object_paths.specs.PlainPaths.{ArePlainLevels};
ghost use Rattle.object_table.specs.Placed.{id_in};
ghost use Rattle.std.specs.Prelude.{◌≡◌, ◌<◌, ◌+◌, ◌^◌, true, length, map, All, IsSome, IfSome, IfOk, OnOk};
ghost use Rattle.verdict_list.specs.Listed.{verdict_if, GoesOn, ShowsPaths};

use crate::shown_paths::{PlainPaths, plain_path};
use graph_meaning::{Verdict, VerdictList};
use heap_base::OutOfMemory;
use path_cert::{object_id, object_kind};

// The verdict on the object in a cell.
fn dead_verdict(plain: PlainPaths<'_>, cell: u32, is_shown: bool) -> Result<Verdict, OutOfMemory>
    requires cell { IsSome (id_in plain.table.now cell) }
    requires levels { (r : RoleTable) × IfSome plain.levels.now (ArePlainLevels plain.table.now r) }
    requires there { is_shown ≡ true → IsSome plain.levels.now }
    ensures { IfOk result (λ v. (h : Heap) → ShowsPaths plain.entry h → v ≡ verdict_if is_shown (dead_verdict h (id_at plain.entry.table.now.cells cell))) }
{
    let path = plain_path(plain, cell, is_shown)?;
    let kind = object_kind(plain.table, cell)?;
    let id = object_id(plain.table, cell);
    Ok(Verdict::Dead { id, kind, path })
}

/// Puts the verdicts on these objects last. The levels are there where one of them shows its path.
pub(crate) fn push_dead(
    list: &mut VerdictList,
    plain: PlainPaths<'_>,
    cells: &[u32],
) -> Result<(), OutOfMemory>
    requires room { length list.old + length cells.now < 2 ^ 32 }
    requires cells { All (λ cell. IsSome (id_in plain.table.now cell)) cells.now }
    requires levels { (r : RoleTable) × IfSome plain.levels.now (ArePlainLevels plain.table.now r) }
    requires there { length list.old < plain.most → 0 < length cells.now → IsSome plain.levels.now }
    ensures length { OnOk result (length list.new ≡ length list.old + length cells.now) }
    ensures verdicts { let p = plain.entry in OnOk result ((h : Heap) → ShowsPaths p h → GoesOn p.most list.old (map (λ cell. dead_verdict h (id_at p.table.now.cells cell)) cells.now) list.new) }
{
    for cell in cells {
        let is_shown = list.len() < plain.most;
        let verdict = dead_verdict(plain, *cell, is_shown)?;
        list.push(verdict)?;
    }
    Ok(())
}
