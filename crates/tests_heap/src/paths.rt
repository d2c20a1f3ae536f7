//! Paths: a worked example of each call that gives one.
ghost use Rattle.graph_meaning.specs.Heap.{edge_of};
ghost use Rattle.graph_meaning.specs.Roles.{RoleTable, AreRolesOf};
ghost use Rattle.object_paths.specs.PlainPaths.{ArePlainLevels};
ghost use Rattle.object_table.specs.Placed.{slots_in, slot_in};
ghost use Rattle.path_cert.specs.Levels.{AreLevelsIn};
ghost use Rattle.std.specs.Prelude.{◌<◌, length, IfSome, IsSome};

use graph_meaning::{PathFrom, PathStep, PathView, Roles, StepList, is_path};
use heap_base::OutOfMemory;
use object_paths::{CellReference, PlainLevels};
use object_table::ObjectTable;
use path_cert::{Levels, Start, levels, owner_step, root_path};
use std::alloc::Global;
use std::test::Fail;
use tests_support::{BOOK, DIAMOND, SampleHeap, TWICE, cell, flags, roles_in, table_of};

// ---- paths as texts

fn start_text(alloc: Global, from: &PathFrom) -> Result<String, Fail> {
    match from {
        PathFrom::Root { name, id, kind } => Ok(format!(in alloc;
            "root {} -> {id} {}",
            name.as_str(),
            kind.as_str()
        )?),
        PathFrom::Owner { id, kind } => Ok(format!(in alloc; "owner {id} {}", kind.as_str())?),
    }
}

// The start and the steps of a path as a report writes them, or `none`.
fn path_text(alloc: Global, path: Option<PathView>) -> Result<String, Fail> {
    let Some(path) = path else {
        return Ok(String::from_str(alloc, "none")?);
    };
    let mut text = start_text(alloc, &path.from)?;
    for place in 0..path.steps.len() {
        let step = path.steps.at(place);
        let (slot, id, kind) = (step.slot, step.id, step.kind.as_str());
        text.push_str(&format!(in alloc; " [{slot}] -> {id} {kind}")?)?;
    }
    Ok(text)
}

// ---- calls for paths

// Where a path ends: at the object with an id, at what the root with a number names, or at what a slot of the object with an id holds.
#[derive(Clone, Copy)]
enum Target {
    Object(u32),
    Root(u32),
    Slot(u32, u32),
}

// What a path is found by: levels from a start, where the objects with these ids are shut; a reference alone; or plain levels.
#[derive(Clone, Copy)]
enum Search {
    Levels(Start, &'static [u32]),
    Reference,
    Plain,
}

// The cell of the object with this id, where this slot of it is an edge.
fn holder_cell(table: &ObjectTable, object: u32, slot: u32) -> Option<u32>
    ensures a_slot { IfSome result (λ cell. slot < length (slots_in table.now cell)) }
    ensures an_edge { IfSome result (λ cell. IsSome (edge_of (slot_in table.now cell slot))) }
{
    let cell = cell(table, object)?;
    if slot >= table.slots_at(cell) || table.slot_at(cell, slot).is_none() {
        return None;
    }
    Some(cell)
}

fn by_levels(
    found: &Levels,
    table: &ObjectTable,
    target: Target,
) -> Result<Option<PathView>, OutOfMemory>
    requires { AreLevelsIn table.now found.now }
{
    match target {
        Target::Object(object) => match cell(table, object) {
            Some(cell) => found.path(table, cell),
            None => Ok(None),
        },
        Target::Slot(object, slot) => match holder_cell(table, object, slot) {
            Some(cell) => found.path_then(table, cell, slot),
            None => Ok(None),
        },
        Target::Root(_) => Ok(None),
    }
}

fn by_reference(
    alloc: Global,
    table: &ObjectTable,
    target: Target,
) -> Result<Option<PathView>, OutOfMemory> {
    match target {
        Target::Root(root) if root < table.roots() => Ok(Some(root_path(alloc, table, root)?)),
        Target::Slot(object, slot) => match holder_cell(table, object, slot) {
            Some(cell) => Ok(Some(owner_step(alloc, table, cell, slot)?)),
            None => Ok(None),
        },
        _ => Ok(None),
    }
}

fn by_plain_levels(
    levels: &PlainLevels,
    table: &ObjectTable,
    target: Target,
) -> Result<Option<PathView>, OutOfMemory>
    requires { (r : RoleTable) × ArePlainLevels table.now r levels.now }
{
    match target {
        Target::Object(object) => match cell(table, object) {
            Some(cell) => levels.path(table, cell),
            None => Ok(None),
        },
        Target::Root(root) if root < table.roots() => {
            let path = levels.reference_path(table, CellReference::Root { root })?;
            Ok(Some(path))
        }
        Target::Root(_) => Ok(None),
        Target::Slot(object, slot) => match holder_cell(table, object, slot) {
            Some(holder) => {
                let path = levels.reference_path(table, CellReference::Slot { holder, slot })?;
                Ok(Some(path))
            }
            None => Ok(None),
        },
    }
}

fn path_of(
    alloc: Global,
    table: &ObjectTable,
    roles: &Roles,
    query: (Search, Target),
) -> Result<Option<PathView>, OutOfMemory>
    requires { AreRolesOf table.now.cells (length table.now.table.kinds) roles.now }
{
    let (search, target) = query;
    match search {
        Search::Levels(start, shut) => {
            let shut = flags(alloc, table, shut, true)?;
            let found = levels(alloc, table, roles, start, shut.as_slice())?;
            by_levels(&found, table, target)
        }
        Search::Reference => by_reference(alloc, table, target),
        Search::Plain => {
            let plain = PlainLevels::make(alloc, table, roles)?;
            by_plain_levels(&plain, table, target)
        }
    }
}

// A path in a table of this heap, as a text.
fn text_in(
    alloc: Global,
    table: &ObjectTable,
    heap: SampleHeap<'_>,
    query: (Search, Target),
) -> Result<String, Fail> {
    let roles = roles_in(alloc, table, heap)?;
    path_text(alloc, path_of(alloc, table, &roles, query)?)
}

fn text_in_heap(
    alloc: Global,
    heap: SampleHeap<'_>,
    query: (Search, Target),
) -> Result<String, Fail> {
    let table = table_of(alloc, heap)?;
    text_in(alloc, &table, heap, query)
}

// What some paths of a heap are found by, and what they are.
struct Case {
    heap: SampleHeap<'static>,
    search: Search,
    paths: &'static [(Target, &'static str)],
}

static CASES: [Case; 6] = [
    Case {
        heap: DIAMOND,
        search: Search::Levels(Start::Roots, &[]),
        paths: &[
            (
                Target::Object(4),
                "root r -> 1 Top [1] -> 2 Mid [1] -> 4 End",
            ),
            (
                Target::Slot(3, 0),
                "root r -> 1 Top [0] -> 3 Mid [0] -> 4 End",
            ),
        ],
    },
    Case {
        heap: DIAMOND,
        search: Search::Levels(Start::Roots, &[2]),
        paths: &[(
            Target::Object(4),
            "root r -> 1 Top [0] -> 3 Mid [0] -> 4 End",
        )],
    },
    Case {
        heap: BOOK,
        search: Search::Levels(Start::Owners, &[]),
        paths: &[
            (
                Target::Object(5),
                "owner 3 Book [0] -> 4 Page [0] -> 5 Order",
            ),
            (Target::Object(3), "none"),
        ],
    },
    Case {
        heap: DIAMOND,
        search: Search::Reference,
        paths: &[
            (Target::Root(0), "root r -> 1 Top"),
            (Target::Slot(2, 1), "owner 2 Mid [1] -> 4 End"),
        ],
    },
    Case {
        heap: DIAMOND,
        search: Search::Plain,
        paths: &[
            (
                Target::Object(4),
                "root r -> 1 Top [1] -> 2 Mid [1] -> 4 End",
            ),
            (Target::Root(0), "root r -> 1 Top"),
        ],
    },
    Case {
        heap: TWICE,
        search: Search::Plain,
        paths: &[
            (Target::Object(5), "owner 3 Book [0] -> 5 Order"),
            (Target::Slot(3, 1), "owner 3 Book [1] -> 5 Order"),
            (Target::Object(6), "none"),
        ],
    },
];

#[test]
fn each_call_gives_its_path(rt: HostRuntime) -> Result<(), Fail> {
    for case in &CASES {
        for (target, path) in case.paths {
            let text = text_in_heap(rt.alloc(), case.heap, (case.search, *target))?;
            assert_eq!(rt; text.as_str(), *path);
        }
    }
    Ok(())
}

// ---- levels, and the view of a heap

// The two steps of a path, of which the second goes by this slot.
fn with_second_slot(alloc: Global, path: &PathView, slot: u32) -> Result<StepList, Fail> {
    if path.steps.len() != 2 {
        return Err("the path has not two steps".into());
    }
    let (first, second) = (path.steps.at(0), path.steps.at(1));
    let mut steps = StepList::empty(alloc);
    steps.push(PathStep {
        slot: first.slot,
        id: first.id,
        kind: first.kind.copy()?,
    })?;
    steps.push(PathStep {
        slot,
        id: second.id,
        kind: second.kind.copy()?,
    })?;
    Ok(steps)
}

// Whether a path leads through what is shown of the heap, and whether it does where its second step goes by another slot.
fn leads(alloc: Global, table: &ObjectTable, path: PathView, slot: u32) -> Result<[bool; 2], Fail> {
    let view = table.view()?;
    let leads = is_path(&view, &path);
    let steps = with_second_slot(alloc, &path, slot)?;
    let other = PathView { steps, ..path };
    Ok([leads, is_path(&view, &other)])
}

// The level of object 4, and whether its path leads through what is shown of the heap, as it is and by slot 0 of its second object.
fn level_and_path_by(
    alloc: Global,
    found: &Levels,
    table: &ObjectTable,
) -> Result<(Option<u32>, [bool; 2]), Fail>
    requires { AreLevelsIn table.now found.now }
{
    let last = cell(table, 4).ok_or("object 4 isn't live")?;
    let path = found.path(table, last)?.ok_or("no path leads there")?;
    Ok((found.level(last), leads(alloc, table, path, 0)?))
}

// The same, by the levels from the roots.
fn level_and_path(
    alloc: Global,
    table: &ObjectTable,
    roles: &Roles,
) -> Result<(Option<u32>, [bool; 2]), Fail>
    requires { AreRolesOf table.now.cells (length table.now.table.kinds) roles.now }
{
    let shut = flags(alloc, table, &[], true)?;
    let found = levels(alloc, table, roles, Start::Roots, shut.as_slice())?;
    level_and_path_by(alloc, &found, table)
}

fn level_and_path_in(
    alloc: Global,
    table: &ObjectTable,
    heap: SampleHeap<'_>,
) -> Result<(Option<u32>, [bool; 2]), Fail> {
    let roles = roles_in(alloc, table, heap)?;
    level_and_path(alloc, table, &roles)
}

fn level_and_path_in_heap(
    alloc: Global,
    heap: SampleHeap<'_>,
) -> Result<(Option<u32>, [bool; 2]), Fail> {
    let table = table_of(alloc, heap)?;
    level_and_path_in(alloc, &table, heap)
}

#[test]
fn a_path_leads_by_its_slots_and_by_no_others(rt: HostRuntime) -> Result<(), Fail> {
    let answer = level_and_path_in_heap(rt.alloc(), DIAMOND)?;
    assert_eq!(rt; answer, (Some(3), [true, false]));
    Ok(())
}
