//! Worked examples of the definitions, each a theorem about the whole report on a short trace.

ghost use Rattle.report.specs.Examples.{Nothing, OneCollection, DeadAndNamed, CycleIsFreed, RegionsNest, OwnershipIsLost, ArrayIsLetGo, FreedIsNotLive, LeastPredecessor, PathsFromAnOwner, OnePathIsShown, DeadIsCutOff, ViolationHalts, LaterViolationsHalt, NothingHalts};

/// No line: no collection, and no violation.
pub fn a_trace_of_nothing_has_the_end_line()
    ensures { Nothing }
{}

/// `collect`: no object is live.
pub fn a_collection_of_nothing_has_one_line()
    ensures { OneCollection }
{}

/// `alloc 7 Order; root a 7; dead 7; collect`: one verdict, whose path is the root alone.
pub fn an_object_asserted_dead_has_a_line()
    ensures { DeadAndNamed }
{}

/// Two objects hold each other, and both are asserted dead: both are freed, and there is no verdict.
pub fn a_cycle_that_is_freed_has_no_line()
    ensures { CycleIsFreed }
{}

/// A region within a region: the lines of both collections, and the last line refused since no region is open.
pub fn each_collection_has_its_lines()
    ensures { RegionsNest }
{}

/// An entry that was taken out of its map and that a cache still holds: the path goes by the cache.
pub fn an_ownee_that_another_object_holds_has_a_line()
    ensures { OwnershipIsLost }
{}

/// Two owners share an array, and one of them lets it go: its ownee is reported, and the other's isn't.
pub fn an_ownee_of_an_array_that_was_let_go_has_a_line()
    ensures { ArrayIsLetGo }
{}

/// A collection freed the object that the fifth line stores: that line is refused.
pub fn a_refused_line_ends_the_report()
    ensures { FreedIsNotLive }
{}

/// Of two ways of one length the path takes the one through the least object.
pub fn a_path_names_each_slot_and_object()
    ensures { LeastPredecessor }
{}

/// An object that only an owner holds, twice: its paths begin at the owner.
pub fn a_path_may_begin_at_an_owner()
    ensures { PathsFromAnOwner }
{}

/// Two verdicts where one path is shown: the second says that its path is left out.
pub fn paths_past_the_number_shown_are_left_out()
    ensures { OnePathIsShown }
{}

/// By force the root of an object asserted dead is cleared, which has a line, and the next collection frees the
/// object.
pub fn what_force_cleared_has_a_line()
    ensures { DeadIsCutOff }
{}

/// The first collection finds a violation, and the run halts: the second collection is not made.
pub fn a_violation_halts_the_run()
    ensures { ViolationHalts }
{}

/// The halt line has the violations of its own collection, and no line behind it is looked at.
pub fn a_later_collection_may_halt_the_run()
    ensures { LaterViolationsHalt }
{}

/// No collection finds a violation, and the run comes to its end.
pub fn a_run_without_violations_does_not_halt()
    ensures { NothingHalts }
{}
