//! Worked examples of the definitions, each a theorem about a short trace.

ghost use Rattle.graph_meaning.specs.Examples.{DeadAndNamed, CycleIsFreed, FreedIsNotLive, RegionsNest, InstancesAreCounted, SharedIsFound, OwnershipIsKept, OwnershipIsLost, OwnerIsGone, EdgesBackCount, ArrayIsShared, ArrayIsLetGo, OwneesInAList, LeastPredecessor, PathsFromAnOwner, OwnerIsReplaced, OnePathIsShown, WeakKeepsNothing, WeakFindsNothing, DeadIsCutOff, ServicesDay, GeneratedTrace, Refusals, FreedIsNotCounted, SearchStopsAtOwners, OwnersDoNotMeet, LongPathIsCut, WeakIsKept, ForceClearsWhatStays, UnownedPathIsLonger};

/// `alloc 7 Order; root a 7; dead 7; collect`: one verdict, with the path that is the root alone.
pub fn an_object_asserted_dead_that_a_root_names_is_a_verdict()
    ensures { DeadAndNamed }
{}

/// Two objects hold each other, and both are asserted dead: both are freed, and there is no verdict.
pub fn a_cycle_that_no_root_leads_to_is_freed()
    ensures { CycleIsFreed }
{}

/// Of two objects a root names one: the collection frees the other, and a store of it is refused.
pub fn an_object_that_was_freed_is_not_live()
    ensures { FreedIsNotLive }
{}

/// A region within a region: the inner one ends first, the outer one has the objects of both, and in the end
/// none is open.
pub fn an_object_belongs_to_each_region_that_is_open()
    ensures { RegionsNest }
{}

/// A limit of one object of a type, and then of none: the verdict shows the first object past the limit.
pub fn traced_objects_of_a_type_are_counted()
    ensures { InstancesAreCounted }
{}

/// Two slots of one object hold an unshared object; later a root and a slot of its own do.
pub fn an_object_with_two_references_is_shared()
    ensures { SharedIsFound }
{}

/// A cache holds an entry of a map too: the map finds it, and there is no verdict.
pub fn an_owner_finds_its_ownee()
    ensures { OwnershipIsKept }
{}

/// The entry is taken out of the map, and the cache still holds it.
pub fn an_ownee_that_another_object_holds_is_a_verdict()
    ensures { OwnershipIsLost }
{}

/// The owner is freed and its ownee stays: where a root names it, its owner is gone.
pub fn an_owner_that_nothing_reaches_is_freed()
    ensures { OwnerIsGone }
{}

/// An ownee holds its owner and another ownee: the owner is traced, and the other ownee has two references.
pub fn an_edge_back_to_an_owner_is_a_reference()
    ensures { EdgesBackCount }
{}

/// Two owners share an array: each finds its ownee, whichever comes to the array first.
pub fn two_owners_find_their_ownees_through_one_array()
    ensures { ArrayIsShared }
{}

/// One of the owners lets the array go, and finds its ownee no longer.
pub fn an_owner_that_lets_the_array_go_finds_nothing()
    ensures { ArrayIsLetGo }
{}

/// Three ownees in a list: the search of the owner ends at the first.
pub fn the_search_of_an_owner_stops_at_an_ownee()
    ensures { OwneesInAList }
{}

/// Of two shortest ways the path takes the one through the object with the least id.
pub fn a_path_takes_the_least_predecessor()
    ensures { LeastPredecessor }
{}

/// What only an owner holds has paths from the owner, though nothing reaches the owner itself.
pub fn a_path_may_start_at_an_owner_that_is_not_traced()
    ensures { PathsFromAnOwner }
{}

/// The first owner holds the ownee, and the second, which replaced it, doesn't.
pub fn a_later_owner_replaces_an_earlier_one()
    ensures { OwnerIsReplaced }
{}

/// Of two verdicts the first shows its path, where one path is asked for.
pub fn only_so_many_paths_are_shown()
    ensures { OnePathIsShown }
{}

/// What only a weak slot holds is freed; the slot is empty then, also when it is weak no longer.
pub fn a_weak_slot_keeps_nothing()
    ensures { WeakKeepsNothing }
{}

/// The owner's slot is weak: it finds its ownee no longer.
pub fn an_owner_finds_nothing_by_a_weak_slot()
    ensures { WeakFindsNothing }
{}

/// By force the root that names a dead object is taken away, and the next collection frees the object.
pub fn by_force_what_is_dead_is_cut_off()
    ensures { DeadIsCutOff }
{}

/// Ids that don't rise, slots that aren't there, a region too deep, an object that is to own itself, and one
/// that isn't live.
pub fn operations_are_refused()
    ensures { Refusals }
{}

/// A session ends and a bus keeps it alive by a listener; then the bus lets the listener go.
pub fn a_services_day_is_audited()
    ensures { ServicesDay }
{}

/// Six objects with two owners: once the root is gone, the owners hold all six.
pub fn owners_hold_what_no_root_reaches()
    ensures { GeneratedTrace }
{}

/// An object of the type that no root reaches isn't counted for the limit.
pub fn only_traced_objects_are_counted()
    ensures { FreedIsNotCounted }
{}

/// An owner isn't searched through another owner.
pub fn the_search_of_an_owner_stops_at_an_owner()
    ensures { SearchStopsAtOwners }
{}

/// An ownee that only another owner holds isn't met, and there is no verdict.
pub fn what_only_an_owner_holds_is_not_met()
    ensures { OwnersDoNotMeet }
{}

/// Of a path of 69 steps the first 32 and the last 32 are shown and five are left out; one of 64 is shown
/// whole.
pub fn a_long_path_is_cut()
    ensures { LongPathIsCut }
{}

/// A store leaves a weak slot weak, and a slot that is weak no longer still holds what it held.
pub fn a_slot_stays_weak()
    ensures { WeakIsKept }
{}

/// By force weak slots are cleared too; those of objects that are freed don't count.
pub fn force_clears_what_stays()
    ensures { ForceClearsWhatStays }
{}

/// The path to a met ownee goes on from no owner and from nothing under owners, though it be longer.
pub fn the_path_to_a_met_ownee_goes_round_owners()
    ensures { UnownedPathIsLonger }
{}
