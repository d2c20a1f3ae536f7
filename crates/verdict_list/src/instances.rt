//! The verdicts on types over their limit.
ghost use Rattle.graph_meaning.specs.Collecting.{violating_kinds};
ghost use Rattle.graph_meaning.specs.Heap.{Heap};
ghost use Rattle.graph_meaning.specs.Paths.{plain_way, shown_path};
ghost use Rattle.graph_meaning.specs.Roles.{AreRolesOf, RoleTable};
ghost use Rattle.heap_base.specs.declared.limits.TheConstants.{MOST_KINDS};
ghost use Rattle.object_paths.specs.PlainPaths.{ArePlainLevels};
ghost use Rattle.object_table.specs.Placed.{id_in};
ghost use Rattle.std.specs.Prelude.{◌≡◌, ◌<◌, ◌≤◌, ◌+◌, ◌^◌, ℕ, true, None, Some, length, map, All, IsSome, IfSome, IfOk, OnOk, option_and_then, slice_index, slice_index_or};
ghost use Rattle.verdict_list.specs.Counts.{CountsHeap};
ghost use Rattle.verdict_list.specs.Kinds.{named_count, IsOverLimit, IsCountedBy, IsSeenIn, SaysOf, HasFirst, TellOf};
ghost use Rattle.verdict_list.specs.Listed.{instances_at, path_if, verdict_if, GoesOn, ShowsPaths};

use crate::counts::{CountedHeap, HeapCounts};
use crate::over_limit::over_limit;
use crate::past_limit::past_limits;
use crate::shown_paths::{PlainPaths, plain_path, shows_some};
use graph_meaning::{Roles, Shown, Verdict, VerdictList};
use heap_base::OutOfMemory;
use object_paths::TracedTable;
use std::alloc::Global;

/// A type over its limit.
#[derive(Clone, Copy, Debug, PartialEq, Eq)]
pub struct KindCount {
    /// The number of the type.
    pub kind: u32,
    /// Its limit.
    pub limit: u32,
    /// How many of its objects are traced.
    pub found: u32,
    /// The cell of the first of them past the limit, by id, where it was asked for.
    pub first: Option<u32>,
}

// How many objects of the type are traced.
fn found<T: HeapCounts>(counted: &CountedHeap<'_, T>, kind: u32) -> u32
    requires kind { kind < length counted.now.table.now.table.kinds }
    requires counts { (h : Heap) × (r : RoleTable) × CountsHeap counted.now.table.now r (T.counts counted.now.counts.now) h }
    ensures { result ≡ slice_index (T.counts counted.now.counts.now).instances kind }
{
    // what is true of every table
    let kinds = counted.table.kinds();
    let cells = counted.table.cells();
    prove!(kind < kinds);
    prove!(cells < u32::MAX);
    counted.counts.instances(kind) as u32
}

// What stands at the place of the type, if anything does.
fn at_kind(places: &[Option<u32>], kind: u32) -> Option<u32>
    ensures { result ≡ slice_index_or places.now kind None }
{
    match places.get(kind as usize) {
        Some(place) => *place,
        None => None,
    }
}

// The limit of a type that has one.
fn limit_of(roles: &Roles, kind: u32) -> u32
    requires seen { kind < length roles.now.limits }
    requires limit { IsSome (slice_index_or roles.now.limits kind None) }
    ensures { slice_index_or roles.now.limits kind None ≡ Some result }
{
    match roles.limit(kind) {
        Some(limit) => limit,
        None => unreachable!(),
    }
}

// The counts of these types, with their first objects past the limit from these places.
fn kind_counts<T: HeapCounts>(
    alloc: Global,
    counted: &CountedHeap<'_, T>,
    kinds: &[u32],
    places: &[Option<u32>],
) -> Result<Vec<KindCount>, OutOfMemory>
    requires roles { AreRolesOf counted.now.table.now.cells (length counted.now.table.now.table.kinds) counted.now.roles.now }
    requires counts { (h : Heap) × CountsHeap counted.now.table.now counted.now.roles.now (T.counts counted.now.counts.now) h }
    requires over { All (IsOverLimit counted.now.table.now counted.now.roles.now (T.counts counted.now.counts.now)) kinds.now }
    requires held { (kind : ℕ) → IfSome (slice_index_or places.now kind None) (λ cell. IsSome (id_in counted.now.table.now cell)) }
    ensures many { IfOk result (λ counts. length counts.items ≡ length kinds.now) }
    ensures seen { IfOk result (λ counts. All (IsSeenIn counted.now.table.now) counts.items) }
    ensures kinds { IfOk result (λ counts. map (λ c. c.kind) counts.items ≡ kinds.now) }
    ensures each { IfOk result (λ counts. All (IsCountedBy counted.now.roles.now (T.counts counted.now.counts.now) places.now) counts.items) }
{
    let mut counts = Vec::new(alloc);
    for kind in kinds {
        let kind = *kind;
        counts.push(KindCount {
            kind,
            limit: limit_of(counted.roles, kind),
            found: found(counted, kind),
            first: at_kind(places, kind),
        })?;
    }
    Ok(counts)
}

/// The types over their limit, by name, as they are counted. So many of them may show their paths.
pub(crate) fn counted_kinds<T: HeapCounts>(
    alloc: Global,
    counted: &CountedHeap<'_, T>,
    paths: usize,
) -> Result<Vec<KindCount>, OutOfMemory>
    requires roles { AreRolesOf counted.now.table.now.cells (length counted.now.table.now.table.kinds) counted.now.roles.now }
    requires counts { (h : Heap) × CountsHeap counted.now.table.now counted.now.roles.now (T.counts counted.now.counts.now) h }
    ensures few { IfOk result (λ counts. length counts.items ≤ MOST_KINDS) }
    ensures seen { IfOk result (λ counts. All (IsSeenIn counted.now.table.now) counts.items) }
    ensures kinds { let c = counted.now in IfOk result (λ counts. (h : Heap) → CountsHeap c.table.now c.roles.now (T.counts c.counts.now) h → map (named_count c.table.now) counts.items ≡ violating_kinds h) }
    ensures tell { let c = counted.now in IfOk result (λ counts. (h : Heap) → CountsHeap c.table.now c.roles.now (T.counts c.counts.now) h → TellOf c.table.now h (0 < paths) counts.items) }
{
    let kinds = over_limit(alloc, counted)?;
    let traced = TracedTable {
        table: counted.table,
        roles: counted.roles,
        kept: counted.counts.kept(),
    };
    let places = past_limits(alloc, traced, shows_some(paths, kinds.len()))?;
    let counts = kind_counts(alloc, counted, &kinds, &places)?;
    Ok(counts)
}

// The path to the object in a cell, if there is one, where it is to be shown.
fn first_path(
    plain: PlainPaths<'_>,
    first: Option<u32>,
    is_shown: bool,
) -> Result<Shown, OutOfMemory>
    requires first { IfSome first (λ cell. IsSome (id_in plain.table.now cell)) }
    requires levels { (r : RoleTable) × IfSome plain.levels.now (ArePlainLevels plain.table.now r) }
    requires there { is_shown ≡ true → IsSome plain.levels.now }
    ensures { let p = plain.entry.table.now in IfOk result (λ s. (h : Heap) (id : ℕ) → ShowsPaths plain.entry h → (is_shown ≡ true → option_and_then (id_in p) first ≡ Some id) → s ≡ path_if is_shown (shown_path (plain_way h id))) }
{
    match first {
        Some(cell) => plain_path(plain, cell, is_shown),
        None => Ok(Shown::LeftOut),
    }
}

// The verdict on a type.
fn instances_verdict(
    plain: PlainPaths<'_>,
    count: KindCount,
    is_shown: bool,
) -> Result<Verdict, OutOfMemory>
    requires count { IsSeenIn plain.table.now count }
    requires levels { (r : RoleTable) × IfSome plain.levels.now (ArePlainLevels plain.table.now r) }
    requires there { is_shown ≡ true → IsSome plain.levels.now }
    ensures { let p = plain.entry.table.now in IfOk result (λ v. (h : Heap) → ShowsPaths plain.entry h → SaysOf p h count → (is_shown ≡ true → HasFirst p h count) → v ≡ verdict_if is_shown (instances_at p h count)) }
{
    let path = first_path(plain, count.first, is_shown)?;
    let kind = plain.table.kind_name(count.kind).copy()?;
    Ok(Verdict::Instances {
        kind,
        limit: count.limit,
        found: count.found,
        path,
    })
}

/// Puts the verdicts on these types last. The levels and the first objects past the limits are there where one of them shows its path.
pub(crate) fn push_instances(
    list: &mut VerdictList,
    plain: PlainPaths<'_>,
    counts: &[KindCount],
) -> Result<(), OutOfMemory>
    requires room { length list.old + length counts.now < 2 ^ 32 }
    requires counts { All (IsSeenIn plain.table.now) counts.now }
    requires levels { (r : RoleTable) × IfSome plain.levels.now (ArePlainLevels plain.table.now r) }
    requires there { length list.old < plain.most → 0 < length counts.now → IsSome plain.levels.now }
    ensures length { OnOk result (length list.new ≡ length list.old + length counts.now) }
    ensures verdicts { let p = plain.entry in OnOk result ((h : Heap) → ShowsPaths p h → TellOf p.table.now h (length list.old < p.most) counts.now → GoesOn p.most list.old (map (instances_at p.table.now h) counts.now) list.new) }
{
    for count in counts {
        let is_shown = list.len() < plain.most;
        let verdict = instances_verdict(plain, *count, is_shown)?;
        list.push(verdict)?;
    }
    Ok(())
}
