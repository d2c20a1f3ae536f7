//! What an owner finds.
ghost use Rattle.graph_meaning.specs.Roles.{AreRolesOf};
ghost use Rattle.std.specs.Prelude.{length};

use graph_meaning::Roles;
use object_table::ObjectTable;
use path_cert::finds;
use std::alloc::Global;
use std::test::Fail;
use tests_support::{
    BOOK, EMPTY_POOL, ENTRY, LIST, LOST_ENTRY, MAP, NESTED_OWNERS, POOLS, SampleHeap, WEAK_ENTRY,
    cell, roles_in, table_of,
};

// An owner of a heap that is asked for two objects, and which of them it finds.
struct Case {
    heap: SampleHeap<'static>,
    owner: u32,
    ownees: (u32, u32),
    found: (bool, bool),
}

static CASES: [Case; 10] = [
    Case {
        heap: ENTRY,
        owner: 1,
        ownees: (3, 2),
        found: (true, false),
    },
    Case {
        heap: LOST_ENTRY,
        owner: 1,
        ownees: (3, 3),
        found: (false, false),
    },
    Case {
        heap: WEAK_ENTRY,
        owner: 1,
        ownees: (3, 3),
        found: (false, false),
    },
    Case {
        heap: BOOK,
        owner: 3,
        ownees: (5, 4),
        found: (true, true),
    },
    Case {
        heap: POOLS,
        owner: 2,
        ownees: (4, 5),
        found: (true, false),
    },
    Case {
        heap: EMPTY_POOL,
        owner: 2,
        ownees: (4, 5),
        found: (false, false),
    },
    Case {
        heap: LIST,
        owner: 1,
        ownees: (3, 2),
        found: (false, true),
    },
    Case {
        heap: MAP,
        owner: 1,
        ownees: (3, 2),
        found: (true, true),
    },
    Case {
        heap: NESTED_OWNERS,
        owner: 2,
        ownees: (4, 3),
        found: (true, true),
    },
    Case {
        heap: NESTED_OWNERS,
        owner: 1,
        ownees: (3, 2),
        found: (false, true),
    },
];

// Which of the two objects the owner finds, where it is asked for both.
fn found_by(alloc: Global, table: &ObjectTable, roles: &Roles, case: &Case) -> Option<(bool, bool)>
    requires { AreRolesOf table.now.cells (length table.now.table.kinds) roles.now }
{
    let owner = cell(table, case.owner)?;
    let first = cell(table, case.ownees.0)?;
    let second = cell(table, case.ownees.1)?;
    let found = finds(alloc, table, roles, owner, &[first, second]).ok()?;
    Some((*found.first()?, *found.get(1)?))
}

fn found_in(alloc: Global, table: &ObjectTable, case: &Case) -> Result<Option<(bool, bool)>, Fail> {
    let roles = roles_in(alloc, table, case.heap)?;
    Ok(found_by(alloc, table, &roles, case))
}

fn found_in_heap(alloc: Global, case: &Case) -> Result<Option<(bool, bool)>, Fail> {
    let table = table_of(alloc, case.heap)?;
    found_in(alloc, &table, case)
}

#[test]
fn an_owner_finds_up_to_owners_and_ownees(rt: HostRuntime) -> Result<(), Fail> {
    for case in &CASES {
        let found = found_in_heap(rt.alloc(), case)?;
        assert_eq!(rt;
            found,
            Some(case.found),
            "{}: {:?}",
            case.owner,
            case.ownees
        );
    }
    Ok(())
}
