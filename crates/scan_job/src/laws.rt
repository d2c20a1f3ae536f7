//! What the definitions of the contracts say of one another. These functions do nothing; each is proved to have its law.
ghost use Rattle.scan_job.specs.Laws.{TablesAreWhole, FitTasksAreListed, FoundByPath, UnderOwnersByPath};

/// In the graph of a table and of roles of it, slots and roots lead to objects, and owners are objects.
pub fn a_table_with_roles_is_a_whole_graph()
    ensures { TablesAreWhole }
{}

/// The list of fit tasks holds exactly those that are fit.
pub fn the_list_holds_the_fit_tasks()
    ensures { FitTasksAreListed }
{}

/// What an owner finds is what a path leads to that goes on from no border object.
pub fn an_owner_finds_by_a_path()
    ensures { FoundByPath }
{}

/// What is under owners is what a path leads to from an owner.
pub fn under_owners_is_by_a_path()
    ensures { UnderOwnersByPath }
{}
