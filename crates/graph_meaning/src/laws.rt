ghost use Rattle.graph_meaning.specs.Laws.{CanonicalExists, CanonicalIsShortest, CanonicalIsWay, FindsByPath, ForceCutsOff, HeapsAreOrdered, HeapsReferToLive, IdsAlwaysRise, KeepsEdges, KeepsTraced, LimitsAreKept, MetHasLevel, MetHasPath, PlainLeavesSwept, RefsAreBounded, RootTracedByPath, SourcesAreWays, TracedHasPath, TracedIsReached, TracedIsReferredTo, UnderOwnersByPath, WaysAreShownAsPaths, WeakOnlyByOperation};
ghost use Rattle.graph_meaning.specs.Reach.{DistanceIsShortest, ReachedByPath};

/// What is computed round by round is what paths lead to.
pub fn reached_is_reached_by_a_path()
    ensures { ReachedByPath }
{}

/// A distance is the number of steps of a path that no path is shorter than.
pub fn a_distance_is_that_of_a_shortest_path()
    ensures { DistanceIsShortest }
{}

/// An owner finds what a path of one or more edges leads to, with no border object inside it.
pub fn an_owner_finds_by_a_path()
    ensures { FindsByPath }
{}

/// Under owners is what a path of one or more edges leads to from an owner.
pub fn under_owners_is_by_a_path()
    ensures { UnderOwnersByPath }
{}

/// Root traced is what a path leads to from a root with no object on it under owners.
pub fn root_traced_is_by_a_path()
    ensures { RootTracedByPath }
{}

/// An object is traced exactly where it is under owners or a root reaches it.
pub fn an_object_is_traced_by_owners_or_by_roots()
    ensures { TracedIsReached }
{}

/// An object has references exactly where it is traced.
pub fn an_object_is_traced_where_it_has_references()
    ensures { TracedIsReferredTo }
{}

/// An ownee is met exactly where it has a level from the roots, through no object that is under owners or an owner.
pub fn an_ownee_is_met_where_it_has_a_level()
    ensures { MetHasLevel }
{}

/// No path from the sources is shorter than the canonical path.
pub fn a_canonical_path_is_a_shortest()
    ensures { CanonicalIsShortest }
{}

/// There is a canonical path exactly to what is reached.
pub fn a_canonical_path_is_there_where_there_is_a_path()
    ensures { CanonicalExists }
{}

/// Each step of a canonical path goes by an edge, and the last one leads to the object.
pub fn a_canonical_path_is_a_path()
    ensures { CanonicalIsWay }
{}

/// The source references are paths of no step, from roots, or of one, from owners.
pub fn source_references_are_paths()
    ensures { SourcesAreWays }
{}

/// There is a plain path exactly to what is traced.
pub fn what_is_traced_has_a_plain_path()
    ensures { TracedHasPath }
{}

/// An ownee is met exactly where there is a path to it that an ownedby verdict shows.
pub fn what_is_met_has_a_path()
    ensures { MetHasPath }
{}

/// All objects together have no more references than there may be roots and slots.
pub fn references_are_bounded()
    ensures { RefsAreBounded }
{}

/// Whatever a heap refers to is live, after any operations and collections.
pub fn whatever_a_heap_refers_to_is_live()
    ensures { HeapsReferToLive }
{}

/// The ids of the objects rise, after any operations and collections.
pub fn the_ids_of_objects_rise()
    ensures { IdsAlwaysRise }
{}

/// Roots, limits and assertions are in order, after any operations and collections.
pub fn a_heap_is_in_order()
    ensures { HeapsAreOrdered }
{}

/// There are never more roots and slots than there may be.
pub fn a_heap_is_within_its_limits()
    ensures { LimitsAreKept }
{}

/// After a collection exactly the traced objects are live.
pub fn a_collection_keeps_what_is_traced()
    ensures { KeepsTraced }
{}

/// What stays has the edges that it had, unless by force.
pub fn a_collection_keeps_edges()
    ensures { KeepsEdges }
{}

/// By force, what was asserted dead and traced has no reference any longer.
pub fn force_leaves_no_reference()
    ensures { ForceCutsOff }
{}

/// Without force exactly the sweep is left.
pub fn without_force_the_sweep_is_left()
    ensures { PlainLeavesSwept }
{}

/// A slot is weak only where an operation made it weak.
pub fn slots_are_weak_only_by_an_operation()
    ensures { WeakOnlyByOperation }
{}

/// What is shown of a path through a table is a path through what is shown of the table.
pub fn a_shown_path_is_a_path()
    ensures { WaysAreShownAsPaths }
{}
