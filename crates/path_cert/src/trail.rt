//! The steps of a path that are shown, as they are met on the way back from its end.
ghost use Rattle.graph_meaning.specs.Paths.{Way, view_of};
ghost use Rattle.graph_meaning.specs.Roles.{id_at};
ghost use Rattle.graph_meaning.specs.declared.paths.PathStep.{PathStep};
ghost use Rattle.heap_base.specs.declared.limits.TheConstants.{END_STEPS};
ghost use Rattle.object_table.specs.Placed.{id_in};
ghost use Rattle.path_cert.specs.Steps.{step_to, is_shown};
ghost use Rattle.path_cert.specs.Trails.{HasShown};
ghost use Rattle.std.specs.Prelude.{◌≡◌, ◌≤◌, ◌+◌, ◌-◌, ◌*◌, ◌^◌, ◌∷◌, [], List, length, reverse, IfOk, OnOk, IsSome};

use crate::objects::step_to;
use graph_meaning::{PathFrom, PathStep, PathView, StepList};
use heap_base::{END_STEPS, OutOfMemory};
use object_table::ObjectTable;
use std::alloc::Global;

/// The last steps of a path of so many steps: those of them that are shown, the last first.
#[derive(Drop)]
pub(crate) struct Trail {
    pub(crate) total: usize,
    pub(crate) shown: Vec<PathStep>,
}

impl Trail {
    /// No step of a path of so many steps.
    pub(crate) fn begin(alloc: Global, total: usize) -> Trail
        ensures shown { HasShown result total [] }
        ensures total { result.total ≡ total }
    {
        Trail {
            total,
            shown: Vec::new(alloc),
        }
    }

    /// Takes the step with this number, from 0, by a slot to the object in a cell. It is the one before those that were taken.
    pub(crate) fn take(
        &mut self,
        number: usize,
        table: &ObjectTable,
        slot: u32,
        cell: u32,
    ) -> Result<(), OutOfMemory>
        requires { IsSome (id_in table.now cell) }
        ensures taken { OnOk result ((after : List PathStep) → HasShown self.old (number + 1) after → HasShown self.new number (step_to table.now.table (slot, id_at table.now.cells cell) ∷ after)) }
        ensures total { self.new.total ≡ self.old.total }
    {
        if is_shown(self.total, number) {
            let step = step_to(table, slot, cell)?;
            self.shown.push(step)?;
        }
        Ok(())
    }

    /// The path from a start by all its steps.
    pub(crate) fn into_view(self, alloc: Global, from: PathFrom) -> Result<PathView, OutOfMemory>
        requires all { (after : List PathStep) × HasShown self 0 after }
        requires total { self.total ≤ 2 ^ 32 }
        ensures view { IfOk result (λ v. (w : Way) → w.from ≡ from → HasShown self 0 w.steps → v ≡ view_of w) }
        ensures few { IfOk result (λ v. length v.steps ≤ 2 * END_STEPS) }
    {
        let Trail { total, shown } = self;
        let left_out = total.saturating_sub(2 * END_STEPS as usize) as u32;
        let steps = turned(alloc, shown)?;
        Ok(PathView {
            from,
            steps,
            left_out,
        })
    }
}

// The steps the other way round.
fn turned(alloc: Global, mut steps: Vec<PathStep>) -> Result<StepList, OutOfMemory>
    requires { length steps.items ≤ 2 * END_STEPS }
    ensures { IfOk result (λ turned. turned ≡ reverse steps.items) }
{
    let mut turned = StepList::empty(alloc);
    while let Some(step) = steps.pop() {
        turned.push(step)?;
    }
    Ok(turned)
}

// Whether the step with this number is among the first or the last that are shown.
fn is_shown(total: usize, number: usize) -> bool
    ensures { result ≡ is_shown total number }
{
    let end = END_STEPS as usize;
    number < end || total.saturating_sub(end) <= number
}
