use graph_meaning::Roles;
use header_rule::Headers;
use object_table::ObjectTable;

/// What all jobs of a trace share: a header word for each cell, the table of the objects, and what the assertions
/// make of them. The heap stands still meanwhile.
#[derive(Drop)]
pub struct ScanShared<'a> {
    pub headers: &'a Headers,
    pub table: &'a ObjectTable,
    pub roles: &'a Roles,
}
