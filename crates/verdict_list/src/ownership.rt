//! The ownees that are met and that their owner doesn't find.
ghost use Rattle.assert_registry.specs.Laws.{StandFor};
ghost use Rattle.graph_meaning.specs.Heap.{Heap};
ghost use Rattle.graph_meaning.specs.Paths.{unowned_way, view_of};
ghost use Rattle.graph_meaning.specs.Reach.{has_id};
ghost use Rattle.graph_meaning.specs.Roles.{AreRolesOf, id_at};
ghost use Rattle.object_table.specs.Placed.{id_in};
ghost use Rattle.verdict_list.specs.Ownership.{AreDoubts, AreViolating};
ghost use Rattle.path_cert.specs.Levels.{Search, AreLevelsOf, AreLevelsIn, way_in};
ghost use Rattle.std.specs.Prelude.{◌≡◌, ◌<◌, length, All, IfOk, IfSome, IsSome, IsSomeAnd, IsTrue, option_map};

use crate::settling::{AskedOwnees, not_found};
use crate::unowned::{unowned_levels, with_level};
use graph_meaning::{PathView, Roles};
use heap_base::OutOfMemory;
use object_table::ObjectTable;
use path_cert::Levels;
use std::alloc::Global;
use std::marker::Model;

/// The ownees that violate what was asserted of them, and the paths to them. Contracts see an `OwnershipTable`.
#[derive(Drop)]
pub struct OwnershipCheck {
    ownees: Vec<u32>,
    levels: Option<Levels>,
}

impl Model for OwnershipCheck {
    ghost use Rattle.verdict_list.specs.Ownership.{OwnershipTable};

    ghost Value = { OwnershipTable };

    ghost view = { λ c. record { ownees = c.ownees.items; levels = c.levels } };
}

/// Those of the ownees in doubt that are met and that their owner doesn't find, or whose owner is gone, in the same order. An
/// ownee is met exactly where it has a level, and found exactly where a search from its owner says so: one search an owner.
/// Levels and searches are made only where there is an ownee in doubt. Answers `OutOfMemory` where memory is wanting.
pub fn check_ownees(
    alloc: Global,
    table: &ObjectTable,
    roles: &Roles,
    doubts: Vec<u32>,
) -> Result<OwnershipCheck, OutOfMemory>
    requires roles { AreRolesOf table.now.cells (length table.now.table.kinds) roles.now }
    requires doubts { All (λ ownee. IsSome (id_in table.now ownee)) doubts.items }
    ensures objects { IfOk result (λ c. All (λ ownee. IsSome (id_in table.now ownee)) c.ownees) }
    ensures levels { IfOk result (λ c. IfSome c.levels (AreLevelsIn table.now)) }
    ensures violating { IfOk result (λ c. (h : Heap) → StandFor table.now roles.now h → AreDoubts table.now h doubts.items → AreViolating table.now h c) }
{
    // what is true of every table
    let cells = table.cells();
    prove!(cells < u32::MAX);
    if doubts.is_empty() {
        return Ok(OwnershipCheck {
            ownees: doubts,
            levels: None,
        });
    }
    let levels = unowned_levels(alloc, table, roles)?;
    let met = with_level(alloc, &levels, doubts.as_slice())?;
    let asked = AskedOwnees {
        table,
        roles,
        ownees: met.as_slice(),
    };
    let ownees = not_found(alloc, asked)?;
    Ok(OwnershipCheck {
        ownees,
        levels: Some(levels),
    })
}

impl OwnershipCheck {
    /// The cells of the violating ownees, by id.
    pub fn ownees(&self) -> &[u32]
        ensures { result.now ≡ self.now.ownees }
    {
        self.ownees.as_slice()
    }

    /// The path to a violating ownee, from the roots and through nothing that is under owners or an owner. The table is the
    /// one that was checked. Answers `OutOfMemory` where memory is wanting.
    pub fn path(&self, table: &ObjectTable, ownee: u32) -> Result<Option<PathView>, OutOfMemory>
        requires check { (h : Heap) × AreViolating table.now h self.now }
        requires ownee { IsTrue (has_id self.now.ownees ownee) }
        ensures path { IfOk result (λ v. (h : Heap) → AreViolating table.now h self.now → v ≡ option_map view_of (unowned_way h (id_at table.now.cells ownee))) }
    {
        self.path_by_levels(table, ownee)
    }

    /// The path to an object by the levels, and `None` where it has no level, or where no levels were made. The table is the one
    /// that was checked. Answers `OutOfMemory` where memory is wanting.
    pub fn path_by_levels(
        &self,
        table: &ObjectTable,
        ownee: u32,
    ) -> Result<Option<PathView>, OutOfMemory>
        requires levels { IfSome self.now.levels (AreLevelsIn table.now) }
        requires ownee { IsSome (id_in table.now ownee) }
        ensures path { IfOk result (λ v. (s : Search) → IsSomeAnd self.now.levels (AreLevelsOf table.now s) → v ≡ option_map view_of (way_in table.now s ownee)) }
    {
        match &self.levels {
            Some(levels) => levels.path(table, ownee),
            None => Ok(None),
        }
    }
}
