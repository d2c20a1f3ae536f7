//! What a trace, a heap and a collection mean, where every change of meaning begins. `specs/` of this crate defines what each
//! operation does and when it is refused, what an edge is (weak slots have none), what each assertion asks, and what a collection
//! finds. `src/` has the plain types of operations, assertions and verdicts that the layers hand to each other.
#![tactic(auto)]

mod by_cell;
mod cell_flags;
mod collection;
mod event;
mod examples;
mod laws;
mod lists;
mod paths;
mod reaction;
mod refusal;
mod roles;
mod shown_paths;
mod views;

pub use by_cell::ByCell;
pub use collection::{Collection, Verdict, VerdictList};
pub use event::Event;
pub use examples::{
    a_cycle_that_no_root_leads_to_is_freed, a_later_owner_replaces_an_earlier_one,
    a_long_path_is_cut, a_path_may_start_at_an_owner_that_is_not_traced,
    a_path_takes_the_least_predecessor, a_services_day_is_audited, a_slot_stays_weak,
    a_weak_slot_keeps_nothing, an_edge_back_to_an_owner_is_a_reference,
    an_object_asserted_dead_that_a_root_names_is_a_verdict,
    an_object_belongs_to_each_region_that_is_open, an_object_that_was_freed_is_not_live,
    an_object_with_two_references_is_shared, an_ownee_that_another_object_holds_is_a_verdict,
    an_owner_finds_its_ownee, an_owner_finds_nothing_by_a_weak_slot,
    an_owner_that_lets_the_array_go_finds_nothing, an_owner_that_nothing_reaches_is_freed,
    by_force_what_is_dead_is_cut_off, force_clears_what_stays, only_so_many_paths_are_shown,
    only_traced_objects_are_counted, operations_are_refused, owners_hold_what_no_root_reaches,
    the_path_to_a_met_ownee_goes_round_owners, the_search_of_an_owner_stops_at_an_ownee,
    the_search_of_an_owner_stops_at_an_owner, traced_objects_of_a_type_are_counted,
    two_owners_find_their_ownees_through_one_array, what_only_an_owner_holds_is_not_met,
};
pub use laws::{
    a_canonical_path_is_a_path, a_canonical_path_is_a_shortest,
    a_canonical_path_is_there_where_there_is_a_path, a_collection_keeps_edges,
    a_collection_keeps_what_is_traced, a_distance_is_that_of_a_shortest_path, a_heap_is_in_order,
    a_heap_is_within_its_limits, a_shown_path_is_a_path, an_object_is_traced_by_owners_or_by_roots,
    an_object_is_traced_where_it_has_references, an_ownee_is_met_where_it_has_a_level,
    an_owner_finds_by_a_path, force_leaves_no_reference, reached_is_reached_by_a_path,
    references_are_bounded, root_traced_is_by_a_path, slots_are_weak_only_by_an_operation,
    source_references_are_paths, the_ids_of_objects_rise, under_owners_is_by_a_path,
    what_is_met_has_a_path, what_is_traced_has_a_plain_path, whatever_a_heap_refers_to_is_live,
    without_force_the_sweep_is_left,
};
pub use lists::Sequence;
pub use paths::{PathFrom, PathStep, PathView, Shown, ShownPath, StepList};
pub use reaction::React;
pub use refusal::{FieldName, Refusal, Stop};
pub use roles::{Border, OwnerRole, Roles};
pub use shown_paths::is_path;
pub use views::{HeapView, ObjectList, ObjectView, RootList, SlotList};
