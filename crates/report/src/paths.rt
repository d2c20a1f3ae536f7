ghost use Rattle.std.specs.Prelude.{◌≡◌, ◌≤◌, ◌++◌, length, slice_range, OnOk};
ghost use Rattle.std.specs.List.{flat_map};
ghost use Rattle.report.specs.Text.{both_text, left_out_text, path_text, shown_text, start_text, step_text, steps_text};

use crate::parts::put_object;
use graph_meaning::{PathFrom, PathStep, PathView, Shown, StepList};
use heap_base::{END_STEPS, OutOfMemory};
use streams::{put, put_name, put_number};

/// Appends the path that a verdict shows, or that it is left out.
pub(crate) fn put_shown(text: &mut Vec<u8>, shown: &Shown) -> Result<(), OutOfMemory>
    ensures { OnOk result (text.new.items ≡ text.old.items ++ shown_text shown.now) }
{
    match shown {
        Shown::LeftOut => put_left_out(text),
        Shown::Path(path) => put_path(text, path.view()),
    }
}

/// Appends two paths with a bar between them, or once that they are left out.
pub(crate) fn put_both(text: &mut Vec<u8>, first: &Shown, second: &Shown) -> Result<(), OutOfMemory>
    ensures { OnOk result (text.new.items ≡ text.old.items ++ both_text first.now second.now) }
{
    let (Shown::Path(first), Shown::Path(second)) = (first, second) else {
        return put_left_out(text);
    };
    put_path(text, first.view())?;
    put(text, b" | ")?;
    put_path(text, second.view())
}

fn put_left_out(text: &mut Vec<u8>) -> Result<(), OutOfMemory>
    ensures { OnOk result (text.new.items ≡ text.old.items ++ left_out_text) }
{
    put(text, b"path left out")
}

#[tactic(auto, unfolding(crate::specs::Text::path_text))]
fn put_path(text: &mut Vec<u8>, path: &PathView) -> Result<(), OutOfMemory>
    ensures { OnOk result (text.new.items ≡ text.old.items ++ path_text path.now) }
{
    put_start(text, &path.from)?;
    put_steps(text, &path.steps, path.left_out)
}

fn put_start(text: &mut Vec<u8>, from: &PathFrom) -> Result<(), OutOfMemory>
    ensures { OnOk result (text.new.items ≡ text.old.items ++ start_text from.now) }
{
    match from {
        PathFrom::Root { name, id, kind } => {
            put(text, b"root ")?;
            put_name(text, name)?;
            put(text, b" -> ")?;
            put_object(text, *id, kind)
        }
        PathFrom::Owner { id, kind } => {
            put(text, b"owner ")?;
            put_object(text, *id, kind)
        }
    }
}

/// Appends all the steps, with the number of those that are left out after the first where there are any.
fn put_steps(text: &mut Vec<u8>, steps: &StepList, left_out: u32) -> Result<(), OutOfMemory>
    ensures { OnOk result (text.new.items ≡ text.old.items ++ steps_text steps.now left_out) }
{
    if left_out == 0 {
        return put_steps_between(text, steps, 0, steps.len());
    }
    let gap = steps.len().min(END_STEPS);
    put_steps_between(text, steps, 0, gap)?;
    put(text, b" ... ")?;
    put_number(text, left_out as u64)?;
    put(text, b" steps ...")?;
    put_steps_between(text, steps, gap, steps.len())
}

/// Appends the steps from place `start` to before place `end`.
fn put_steps_between(
    text: &mut Vec<u8>,
    steps: &StepList,
    start: u32,
    end: u32,
) -> Result<(), OutOfMemory>
    requires order { start ≤ end }
    requires within { end ≤ length steps.now }
    ensures { OnOk result
        (text.new.items ≡ text.old.items ++ flat_map step_text (slice_range steps.now start end)) }
{
    for place in start..end {
        put_step(text, steps.at(place))?;
    }
    Ok(())
}

fn put_step(text: &mut Vec<u8>, step: &PathStep) -> Result<(), OutOfMemory>
    ensures { OnOk result (text.new.items ≡ text.old.items ++ step_text step.now) }
{
    put(text, b" [")?;
    put_number(text, step.slot as u64)?;
    put(text, b"] -> ")?;
    put_object(text, step.id, &step.kind)
}
