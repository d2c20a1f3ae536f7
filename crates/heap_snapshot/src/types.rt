ghost use Rattle.std.specs.Prelude.{◌≡◌, ◌||◌, nat_lt, [], length, if◌then◌else◌, IfOk};
ghost use Rattle.heap_base.specs.declared.limits.TheConstants.{MOST_KINDS};
ghost use Rattle.graph_meaning.specs.Heap.{is_seen};
ghost use Rattle.graph_meaning.specs.Step.{with_kind};

use graph_meaning::Stop;
use heap_base::{Limits, Name, OutOfMemory};
use object_table::ObjectTable;
use std::alloc::Global;
use std::marker::Model;

/// The type names that were seen. Contracts see their list, in the order in which they first came.
#[derive(Drop)]
pub(crate) struct Types {
    // It holds no object: it only learns names.
    table: ObjectTable,
}

impl Model for Types {
    ghost use Rattle.std.specs.Prelude.{List, ℕ};

    ghost Value = { List (List ℕ) };

    ghost view = { λ t. t.table.table.kinds };
}

impl Types {
    pub(crate) fn make(alloc: Global) -> Result<Types, OutOfMemory>
        ensures { IfOk result (λ types. types ≡ []) }
    {
        Ok(Types {
            table: ObjectTable::make(alloc, Limits::usual())?,
        })
    }

    /// Learns a name, unless it is new and as many as there may be were seen.
    pub(crate) fn learn(&mut self, name: &Name) -> Result<bool, OutOfMemory>
        ensures { IfOk result (λ learnt. (learnt ≡ (is_seen self.old name.now || nat_lt (length self.old) MOST_KINDS)) × (self.new ≡ (if learnt then with_kind self.old name.now else self.old))) }
    {
        match self.table.kind_of(name) {
            Ok(_) => Ok(true),
            Err(Stop::Refused(_)) => Ok(false),
            Err(Stop::OutOfMemory) => Err(OutOfMemory),
        }
    }
}
