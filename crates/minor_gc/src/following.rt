//! The search for what a collection keeps.
ghost use Rattle.std.specs.List.{flat_map};
ghost use Rattle.std.specs.Prelude.{◌≡◌, ◌+◌, ◌≤◌, [], ℕ, length, All, not, IsTrue, IsSome, count_by, vec_len};
ghost use Rattle.graph_meaning.specs.Assertions.{root_ids};
ghost use Rattle.graph_meaning.specs.Heap.{targets, is_live};
ghost use Rattle.graph_meaning.specs.Reach.{has_id};
ghost use Rattle.graph_meaning.specs.Roles.{id_at};
ghost use Rattle.object_table.specs.Placed.{id_in, IsPlaced};
ghost use Rattle.minor_gc.specs.Marks.{MarkSearch, IsMarkSearch, IsMarking, MarksAll};
ghost use Rattle.minor_gc.specs.Searches.{marks_of};

use crate::search::Search;
use heap_base::ObjId;
use object_table::ObjectTable;

impl Search {
    /// Marks what the roots name.
    pub fn take_roots(&mut self, table: &ObjectTable)
        requires placed { IsPlaced table.now }
        requires each { length self.old.marks.items ≡ length table.now.cells }
        ensures { MarksAll table.now (root_ids table.now.table) (marks_of self.old) (marks_of self.new) }
    {
        for root in 0..table.roots() {
            self.meet(table.root_cell(root));
        }
    }

    /// Marks what these objects hold.
    pub fn take_objects(&mut self, table: &ObjectTable, ids: &[ObjId])
        requires placed { IsPlaced table.now }
        requires each { length self.old.marks.items ≡ length table.now.cells }
        requires live { All (λ id. IsTrue (is_live table.now.table id)) ids.now }
        ensures { MarksAll table.now (flat_map (targets table.now.table) ids.now) (marks_of self.old) (marks_of self.new) }
    {
        for id in ids {
            if let Some(cell) = table.cell_of(*id) {
                self.follow(table, cell);
            }
        }
    }

    /// Goes on until nothing is left to follow.
    pub fn run(&mut self, table: &ObjectTable)
        requires placed { IsPlaced table.now }
        requires each { length self.old.marks.items ≡ length table.now.cells }
        requires work { (cell : ℕ) → IsTrue (has_id self.old.work.items cell) → IsSome (id_in table.now cell) }
        ensures each { length self.new.marks.items ≡ length self.old.marks.items }
        ensures searching { (q : MarkSearch) → q.placed ≡ table.now → IsMarkSearch q → IsMarking q (marks_of self.old) → IsMarking q (marks_of self.new) }
        ensures done { self.new.work.items ≡ [] }
    {
        while let Some(cell) = self.work.pop() {
            self.follow(table, cell);
        }
    }

    // Marks what the object in a cell holds.
    fn follow(&mut self, table: &ObjectTable, cell: u32)
        requires placed { IsPlaced table.now }
        requires each { length self.old.marks.items ≡ length table.now.cells }
        requires cell { IsSome (id_in table.now cell) }
        ensures meets { MarksAll table.now (targets table.now.table (id_at table.now.cells cell)) (marks_of self.old) (marks_of self.new) }
        ensures left { count_by not self.new.marks.items + vec_len self.new.work ≤ count_by not self.old.marks.items + vec_len self.old.work }
    {
        let edges = table.edges_at(cell);
        for slot in 0..edges.len() {
            if let Some(target) = edges.at(slot) {
                self.meet(target);
            }
        }
    }
}
