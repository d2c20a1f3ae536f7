//! The verdicts on objects that are asserted unshared.
ghost use Rattle.assert_registry.specs.Laws.{StandFor};
ghost use Rattle.graph_meaning.specs.Assertions.{references};
ghost use Rattle.graph_meaning.specs.Heap.{Heap};
ghost use Rattle.graph_meaning.specs.Roles.{AreRolesOf, RoleTable, id_at};
ghost use Rattle.heap_base.specs.Counting.{IsOnce};
ghost use Rattle.object_paths.specs.PlainPaths.{ArePlainLevels};
ghost use Rattle.object_table.specs.Placed.{id_in};
ghost use Rattle.object_paths.specs.References.{IsReference, AreFirstReferences, AreFirstOf, IsTracedTableOf};
ghost use Rattle.std.specs.Prelude.{◌≡◌, ◌<◌, ◌+◌, ◌-◌, ◌^◌, ℕ, Some, length, map, min, All, IsSome, IfSome, IfOk, OnOk, is_some, slice_get};
ghost use Rattle.verdict_list.specs.Listed.{path_if, reference_path, unshared_at, verdict_if, GoesOn, ShowsPaths, KnowsFirst};

use crate::counts::HeapCounts;
use crate::shown_paths::PlainPaths;
use graph_meaning::{Shown, ShownPath, Verdict, VerdictList};
use heap_base::OutOfMemory;
use object_paths::{CellReference, FirstReferences, PlainLevels, TracedTable, first_references};
use object_table::ObjectTable;
use path_cert::{object_id, object_kind};
use std::alloc::Global;

/// The first references to the objects in so many of these cells.
pub(crate) fn references_of(
    alloc: Global,
    traced: TracedTable<'_>,
    cells: &[u32],
    most: usize,
) -> Result<Vec<FirstReferences>, OutOfMemory>
    requires roles { AreRolesOf traced.table.now.cells (length traced.table.now.table.kinds) traced.roles.now }
    requires kept { length traced.kept.now ≡ length traced.table.now.cells }
    requires cells { All (λ cell. IsSome (id_in traced.table.now cell)) cells.now }
    requires once { IsOnce cells.now }
    ensures each { IfOk result (λ found. length found.items ≡ min (length cells.now) most) }
    ensures first { IfOk result (λ found. (h : Heap) → IsTracedTableOf h traced.entry → AreFirstOf traced.entry.table.now h cells.now found.items) }
{
    let shown = cells.len().min(most);
    if shown == 0 {
        return Ok(Vec::new(alloc));
    }
    first_references(alloc, traced, &cells[..shown])
}

// The path by a reference, if there is one, as a verdict shows it. The levels are there then.
fn reference_path(
    plain: PlainPaths<'_>,
    reference: Option<CellReference>,
) -> Result<Shown, OutOfMemory>
    requires reference { (h : Heap) × (id : ℕ) × (n : ℕ) × IsReference plain.table.now id (slice_get (references h id) n) reference }
    requires levels { (r : RoleTable) × IfSome plain.levels.now (ArePlainLevels plain.table.now r) }
    requires there { IsSome plain.levels.now }
    ensures { let p = plain.entry in IfOk result (λ s. (h : Heap) (id n : ℕ) → ShowsPaths p h → IsReference p.table.now id (slice_get (references h id) n) reference → s ≡ reference_path h id n) }
{
    match (reference, plain.levels) {
        (Some(reference), Some(levels)) => {
            let path = levels.reference_path(plain.table, reference)?;
            Ok(Shown::Path(ShownPath::of(plain.alloc, path)?))
        }
        _ => Ok(Shown::LeftOut),
    }
}

// The paths by the first two references, in order, where these are known.
fn reference_paths(
    plain: PlainPaths<'_>,
    found: Option<FirstReferences>,
) -> Result<(Shown, Shown), OutOfMemory>
    requires found { IfSome found (λ f. (h : Heap) × (id : ℕ) × AreFirstReferences plain.table.now h id f) }
    requires levels { (r : RoleTable) × IfSome plain.levels.now (ArePlainLevels plain.table.now r) }
    requires there { IsSome found → IsSome plain.levels.now }
    ensures first { let p = plain.entry in IfOk result (λ s. (h : Heap) (id : ℕ) → ShowsPaths p h → IfSome found (AreFirstReferences p.table.now h id) → s.0 ≡ path_if (is_some found) (reference_path h id 0)) }
    ensures second { let p = plain.entry in IfOk result (λ s. (h : Heap) (id : ℕ) → ShowsPaths p h → IfSome found (AreFirstReferences p.table.now h id) → s.1 ≡ path_if (is_some found) (reference_path h id 1)) }
{
    match found {
        Some(found) => {
            let first = reference_path(plain, found.first)?;
            let second = reference_path(plain, found.second)?;
            Ok((first, second))
        }
        None => Ok((Shown::LeftOut, Shown::LeftOut)),
    }
}

// The verdict on the object in a cell, with its paths where its first references are known.
fn unshared_verdict<T: HeapCounts>(
    plain: PlainPaths<'_>,
    traced: &T,
    cell: u32,
    found: Option<FirstReferences>,
) -> Result<Verdict, OutOfMemory>
    requires cell { IsSome (id_in plain.table.now cell) }
    requires words { (T.counts traced.now).cells ≡ length plain.table.now.cells }
    requires found { IfSome found (λ f. (h : Heap) × (id : ℕ) × AreFirstReferences plain.table.now h id f) }
    requires levels { (r : RoleTable) × IfSome plain.levels.now (ArePlainLevels plain.table.now r) }
    requires there { IsSome found → IsSome plain.levels.now }
    ensures { let p = plain.entry.table.now in
        IfOk result (λ v. (h : Heap) → ShowsPaths plain.entry h → IfSome found (AreFirstReferences p h (id_at p.cells cell)) →
        v ≡ verdict_if (is_some found) (unshared_at p (T.counts traced.now) h cell)) }
{
    // what is true of every table
    let cells = plain.table.cells();
    prove!(cell < cells);
    let (first, second) = reference_paths(plain, found)?;
    let kind = object_kind(plain.table, cell)?;
    let id = object_id(plain.table, cell);
    let refs = traced.references(cell);
    Ok(Verdict::Unshared {
        id,
        kind,
        refs,
        first,
        second,
    })
}

// What stands at a place, if anything does.
fn at_place(references: &[FirstReferences], place: usize) -> Option<FirstReferences>
    ensures { result ≡ slice_get references.now place }
{
    match references.get(place) {
        Some(found) => Some(*found),
        None => None,
    }
}

/// Objects to which there are two references or more, and the first references to those of them that show their paths.
#[derive(Clone, Copy)]
pub(crate) struct SharedObjects<'a> {
    pub(crate) cells: &'a [u32],
    pub(crate) references: &'a [FirstReferences],
}

// Puts the verdicts on these objects last. The first references to those that show their paths are known, and the levels are there then.
fn push_all<T: HeapCounts>(
    list: &mut VerdictList,
    plain: PlainPaths<'_>,
    traced: &T,
    shared: SharedObjects<'_>,
) -> Result<(), OutOfMemory>
    requires room { length list.old + length shared.cells.now < 2 ^ 32 }
    requires cells { All (λ cell. IsSome (id_in plain.table.now cell)) shared.cells.now }
    requires words { (T.counts traced.now).cells ≡ length plain.table.now.cells }
    requires references { (h : Heap) × KnowsFirst plain h shared }
    requires shown { length shared.references.now ≡ min (length shared.cells.now) (plain.most - length list.old) }
    requires levels { (r : RoleTable) × IfSome plain.levels.now (ArePlainLevels plain.table.now r) }
    requires there { 0 < length shared.references.now → IsSome plain.levels.now }
    ensures length { OnOk result (length list.new ≡ length list.old + length shared.entry.cells.now) }
    ensures verdicts { let p = plain.entry in OnOk result ((h : Heap) → ShowsPaths p h → KnowsFirst p h shared.entry → GoesOn p.most list.old (map (unshared_at p.table.now (T.counts traced.now) h) shared.entry.cells.now) list.new) }
{
    for place in 0..shared.cells.len() {
        let found = at_place(shared.references, place);
        let verdict = unshared_verdict(plain, traced, shared.cells[place], found)?;
        list.push(verdict)?;
    }
    Ok(())
}

/// The plain paths that the last verdicts of a list show. Its levels are let go behind the last of these paths, so that they don't stand
/// beside a long list.
#[derive(Drop)]
pub(crate) struct LastPaths<'a> {
    pub(crate) alloc: Global,
    pub(crate) table: &'a ObjectTable,
    pub(crate) levels: Option<PlainLevels>,
    pub(crate) most: u32,
}

/// Puts the verdicts on these objects last. The first references to those that show their paths are known, and the levels are there then.
pub(crate) fn push_unshared<T: HeapCounts>(
    list: &mut VerdictList,
    paths: LastPaths<'_>,
    traced: &T,
    shared: SharedObjects<'_>,
) -> Result<(), OutOfMemory>
    requires room { length list.old + length shared.cells.now < 2 ^ 32 }
    requires cells { All (λ cell. IsSome (id_in paths.table.now cell)) shared.cells.now }
    requires words { (T.counts traced.now).cells ≡ length paths.table.now.cells }
    requires references { (h : Heap) × AreFirstOf paths.table.now h shared.cells.now shared.references.now }
    requires shown { length shared.references.now ≡ min (length shared.cells.now) (paths.most - length list.old) }
    requires levels { (r : RoleTable) × IfSome paths.levels (ArePlainLevels paths.table.now r) }
    requires there { 0 < length shared.references.now → IsSome paths.levels }
    ensures length { OnOk result (length list.new ≡ length list.old + length shared.entry.cells.now) }
    ensures verdicts { let p = paths.entry.table.now in let s = shared.entry in
        OnOk result ((h : Heap) (r : RoleTable) → StandFor p r h → IfSome paths.entry.levels (ArePlainLevels p r) →
        AreFirstOf p h s.cells.now s.references.now →
        GoesOn paths.entry.most list.old (map (unshared_at p (T.counts traced.now) h) s.cells.now) list.new) }
{
    let LastPaths {
        alloc,
        table,
        levels,
        most,
    } = paths;
    let (first, rest) = shared.cells.split_at(shared.references.len());
    let plain = PlainPaths {
        alloc,
        table,
        levels: &levels,
        most,
    };
    let shown = SharedObjects {
        cells: first,
        references: shared.references,
    };
    push_all(list, plain, traced, shown)?;
    std::mem::drop(levels);
    list.reserve(rest.len() as u32)?;
    let plain = PlainPaths {
        alloc,
        table,
        levels: &None,
        most,
    };
    let left_out = SharedObjects {
        cells: rest,
        references: &[],
    };
    push_all(list, plain, traced, left_out)?;
    Ok(())
}
