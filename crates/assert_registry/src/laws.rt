//! What the definitions of the contracts say of one another. These functions do nothing; each is proved to have its law.
ghost use Rattle.assert_registry.specs.Laws.{RolesStandForHeap, RolesSayOfHeap, NewTypeHasNoLimit, RoomChangesNoLimit, LimitIsSet};

/// The roles that a registry gives stand for every heap with its assertions and the table.
pub fn roles_stand_for_a_heap()
    ensures { RolesStandForHeap }
{}

/// Roles that stand for a heap say by cell what it says by id.
pub fn roles_say_what_a_heap_says()
    ensures { RolesSayOfHeap }
{}

/// A type that was just seen has no limit.
pub fn a_new_type_has_no_limit()
    ensures { NewTypeHasNoLimit }
{}

/// More room changes no limit.
pub fn more_room_changes_no_limit()
    ensures { RoomChangesNoLimit }
{}

/// A limit that is set by the number of a type is set by its name.
pub fn a_limit_by_number_is_a_limit_by_name()
    ensures { LimitIsSet }
{}
