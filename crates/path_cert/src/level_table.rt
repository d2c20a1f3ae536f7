//! What levels say of each object.
ghost use Rattle.graph_meaning.specs.Heap.{edge_of};
ghost use Rattle.graph_meaning.specs.Paths.{view_of};
ghost use Rattle.graph_meaning.specs.Views.{heap_view, is_path};
ghost use Rattle.graph_meaning.specs.declared.paths.PathStep.{PathStep};
ghost use Rattle.heap_base.specs.declared.limits.TheConstants.{END_STEPS};
ghost use Rattle.object_table.specs.Placed.{IsPlaced, IsSound, id_in, slots_in, slot_in};
ghost use Rattle.path_cert.specs.Ancestors.{AreAncestors, AncestorOf};
ghost use Rattle.path_cert.specs.Levels.{Search, arrival_in, level_in, way_in, AreLevelsOf, AreLevelsIn};
ghost use Rattle.path_cert.specs.Steps.{way_by_slot};
ghost use Rattle.path_cert.specs.Trails.{path_steps, HasShown, with_steps, MayStartPath, IsStart};
ghost use Rattle.std.specs.Prelude.{◌≡◌, ◌≤◌, ◌<◌, ◌*◌, ◌^◌, List, length, Some, IsTrue, IfOk, IsSome, IfSome, option_map, option_and_then};

use crate::ancestors::{ANCESTOR_LEVEL, known_ancestor};
use crate::arrival::Arrival;
use crate::objects::{edge_cell, step_to};
use crate::references::{from_owner, from_root};
use crate::start::Start;
use crate::trail::Trail;
use graph_meaning::{ByCell, PathFrom, PathView};
use heap_base::{END_STEPS, OutOfMemory};
use object_table::ObjectTable;
use std::alloc::Global;
use std::marker::Model;

/// The levels of the objects of a table, and the canonical paths to them. They are of the table that they were made
/// for, as long as it stands still. Contracts see a `LevelTable`.
#[derive(Drop)]
pub struct Levels {
    alloc: Global,
    start: Start,
    arrivals: ByCell<Arrival>,
    // the ancestors of objects that long paths lead to
    ancestors: Vec<Option<u32>>,
}

impl Model for Levels {
    ghost use Rattle.std.specs.Prelude.{⊤};
    ghost use Rattle.path_cert.specs.Levels.{LevelTable};

    ghost Value = { LevelTable };

    ghost view = { λ l. record { start = l.start; arrivals = l.arrivals } };

    ghost use Rattle.path_cert.specs.Ancestors.{AreAncestors};

    ghost invariant = { λ l. AreAncestors l.arrivals l.ancestors.items };
}

/// Where a walk back over a path stands: at the object in a cell, before which so many steps are left.
#[derive(Clone, Copy)]
pub(crate) struct Waypoint {
    cell: u32,
    left: usize,
}

impl Levels {
    ghost use Rattle.path_cert.specs.Skips.{Skips};

    pub(crate) fn of(
        alloc: Global,
        start: Start,
        arrivals: ByCell<Arrival>,
        ancestors: Vec<Option<u32>>,
    ) -> Levels
        requires { AreAncestors arrivals ancestors.items }
        ensures { result ≡ record { start = start; arrivals = arrivals } }
    {
        Levels {
            alloc,
            start,
            arrivals,
            ancestors,
        }
    }

    /// The level of the object in a cell, from 1, and `None` exactly where no level has it.
    pub fn level(&self, cell: u32) -> Option<u32>
        requires { cell < length self.now.arrivals }
        ensures { result ≡ level_in self.now cell }
    {
        match self.arrivals.get(cell).level {
            0 => None,
            level => Some(level),
        }
    }

    /// The canonical path to the object in a cell, and `None` exactly where no level has it. The table is the one
    /// that the levels were made for.
    pub fn path(&self, table: &ObjectTable, to: u32) -> Result<Option<PathView>, OutOfMemory>
        requires table { AreLevelsIn table.now self.now }
        requires cell { IsSome (id_in table.now to) }
        ensures path { IfOk result (λ v. (s : Search) → AreLevelsOf table.now s self.now → v ≡ option_map view_of (way_in table.now s to)) }
        ensures is_path { IfOk result (λ v. IfSome v (λ path. IsTrue (is_path (heap_view table.now.table) path))) }
        ensures few { IfOk result (λ v. IfSome v (λ path. length path.steps ≤ 2 * END_STEPS)) }
    {
        let Some(steps) = self.steps_to(table, to) else {
            return Ok(None);
        };
        let trail = Trail::begin(self.alloc, steps);
        Ok(Some(self.walk_back(table, to, steps, trail)?))
    }

    /// The canonical path to the object in a cell and one step more, by an edge from a slot of it; `None` exactly where no
    /// level has the object. The table is the one that the levels were made for.
    pub fn path_then(
        &self,
        table: &ObjectTable,
        holder: u32,
        slot: u32,
    ) -> Result<Option<PathView>, OutOfMemory>
        requires table { AreLevelsIn table.now self.now }
        requires a_slot { slot < length (slots_in table.now holder) }
        requires an_edge { IsSome (edge_of (slot_in table.now holder slot)) }
        ensures path { IfOk result (λ v. (s : Search) → AreLevelsOf table.now s self.now → v ≡ option_map view_of (option_and_then (λ w. way_by_slot table.now w holder slot) (way_in table.now s holder))) }
        ensures is_path { IfOk result (λ v. IfSome v (λ path. IsTrue (is_path (heap_view table.now.table) path))) }
        ensures few { IfOk result (λ v. IfSome v (λ path. length path.steps ≤ 2 * END_STEPS)) }
    {
        let Some(steps) = self.steps_to(table, holder) else {
            return Ok(None);
        };
        let mut trail = Trail::begin(self.alloc, steps + 1);
        trail.take(steps, table, slot, edge_cell(table, holder, slot))?;
        Ok(Some(self.walk_back(table, holder, steps, trail)?))
    }

    // How many steps the path to the object in a cell has, if there is one. What is true of every table is said of this one.
    fn steps_to(&self, table: &ObjectTable, cell: u32) -> Option<usize>
        requires table { AreLevelsIn table.now self.now }
        requires cell { IsSome (id_in table.now cell) }
        ensures placed { IsPlaced table.now }
        ensures sound { IsSound table.now.table }
        ensures steps { result ≡ path_steps self.now.start (arrival_in self.now.arrivals cell).level }
        ensures few { IfSome result (λ steps. steps < 2 ^ 32) }
    {
        let cells = table.cells();
        prove!(cell < cells);
        let level = self.level(cell)?;
        match self.start {
            Start::Roots => Some(level as usize - 1),
            Start::Owners => Some(level as usize),
        }
    }

    // Walks back over so many steps from the object in a cell to where the path starts.
    fn walk_back(
        &self,
        table: &ObjectTable,
        to: u32,
        steps: usize,
        mut trail: Trail,
    ) -> Result<PathView, OutOfMemory>
        requires table { AreLevelsIn table.now self.now }
        requires cell { IsSome (id_in table.now to) }
        requires steps { path_steps self.now.start (arrival_in self.now.arrivals to).level ≡ Some steps }
        requires shown { (after : List PathStep) × HasShown trail steps after }
        requires total { trail.total ≤ 2 ^ 32 }
        ensures path { IfOk result (λ v. (s : Search) → (after : List PathStep) → AreLevelsOf table.now s self.now → HasShown trail steps after → IfSome (way_in table.now s to) (λ w. v ≡ view_of (with_steps w after))) }
        ensures few { IfOk result (λ v. length v.steps ≤ 2 * END_STEPS) }
    {
        let mut cell = to;
        let mut left = steps;
        while left > 0 {
            let waypoint = self.skip_hidden(Waypoint { cell, left }, trail.total);
            left = waypoint.left - 1;
            let arrival = self.arrivals.get(waypoint.cell);
            trail.take(left, table, arrival.slot, waypoint.cell)?;
            cell = arrival.from;
        }
        let from = self.start_at(table, cell)?;
        trail.into_view(self.alloc, from)
    }

    // Goes back at once to the ancestor, where the steps that are left out begin here.
    fn skip_hidden(&self, waypoint: Waypoint, total: usize) -> Waypoint
        requires cell { waypoint.cell < length self.now.arrivals }
        requires left { path_steps self.now.start (arrival_in self.now.arrivals waypoint.cell).level ≡ Some waypoint.left }
        ensures { Skips self.now total waypoint result }
    {
        let Waypoint { cell, left } = waypoint;
        if total.saturating_sub(left) != END_STEPS as usize {
            return waypoint;
        }
        let level = self.arrivals.get(cell).level;
        match self.ancestor(cell) {
            Some(ancestor) if level >= ANCESTOR_LEVEL => Waypoint {
                cell: ancestor,
                left: left - (level - ANCESTOR_LEVEL) as usize,
            },
            _ => waypoint,
        }
    }

    // The ancestor of the object in a cell, if it is known.
    fn ancestor(&self, cell: u32) -> Option<u32>
        ensures { AncestorOf self.now.arrivals cell result }
    {
        known_ancestor(self.ancestors.as_slice(), cell)
    }

    // The start of a path: at the root that led to the object in the cell, or at the owner in it.
    fn start_at(&self, table: &ObjectTable, cell: u32) -> Result<PathFrom, OutOfMemory>
        requires cell { cell < length self.now.arrivals }
        requires start { MayStartPath table.now self.now cell }
        ensures { IfOk result (IsStart table.now self.now cell) }
    {
        match self.start {
            Start::Roots => from_root(table, self.arrivals.get(cell).from),
            Start::Owners => from_owner(table, cell),
        }
    }
}
