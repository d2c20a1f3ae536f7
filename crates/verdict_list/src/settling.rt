//! Which ownees their owners find. Each owner is asked once for all of its ownees that are in doubt.
ghost use Rattle.graph_meaning.specs.Reach.{has_id};
ghost use Rattle.graph_meaning.specs.Roles.{RoleTable, AreRolesOf};
ghost use Rattle.object_table.specs.Placed.{PlacedTable, id_in};
ghost use Rattle.verdict_list.specs.Cells.{is_kept};
ghost use Rattle.verdict_list.specs.Settling.{IsOfObjects, is_found_in, flag_of, Flags, HasAsked};
ghost use Rattle.verdict_list.specs.declared.settling.Ownership.{Ownership};
ghost use Rattle.std.specs.Prelude.{◌≡◌, ◌<◌, ◌&&◌, ◌++◌, ◌∷◌, ℕ, List, Bool, not, [], length, filter, map, All, IfOk, OnOk, IsSome};

use graph_meaning::{OwnerRole, Roles};
use heap_base::OutOfMemory;
use object_table::ObjectTable;
use path_cert::OwnerSearch;
use std::alloc::Global;

/// Ownees of a table with its roles, which are asked for.
#[derive(Clone, Copy)]
pub(crate) struct AskedOwnees<'a> {
    pub(crate) table: &'a ObjectTable,
    pub(crate) roles: &'a Roles,
    pub(crate) ownees: &'a [u32],
}

/// Those of the ownees that their owner doesn't find, or whose owner is gone, in the same order.
pub(crate) fn not_found(alloc: Global, asked: AskedOwnees<'_>) -> Result<Vec<u32>, OutOfMemory>
    requires roles { AreRolesOf asked.table.now.cells (length asked.table.now.table.kinds) asked.roles.now }
    requires ownees { All (λ ownee. IsSome (id_in asked.table.now ownee)) asked.ownees.now }
    ensures violating { let a = asked.entry in IfOk result (λ violating. violating.items ≡ filter (λ ownee. not (is_kept a.table.now a.roles.now ownee)) a.ownees.now) }
{
    let AskedOwnees {
        table,
        roles,
        ownees,
    } = asked;
    let mut pairs = pairs_of(alloc, asked)?;
    // Pairs of one owner stand together then.
    pairs.sort_unstable();
    let found = ask_owners(alloc, table, roles, pairs.as_slice())?;
    without(alloc, ownees, found.as_slice())
}

// An ownee and its owner, by cells. Pairs are in the order of owners.
#[derive(Clone, Copy, Debug, PartialEq, Eq, PartialOrd, Ord)]
struct Ownership {
    owner: u32,
    ownee: u32,
}

// The pairs of those ownees whose owner isn't gone.
fn pairs_of(alloc: Global, asked: AskedOwnees<'_>) -> Result<Vec<Ownership>, OutOfMemory>
    requires roles { AreRolesOf asked.table.now.cells (length asked.table.now.table.kinds) asked.roles.now }
    requires ownees { All (λ ownee. IsSome (id_in asked.table.now ownee)) asked.ownees.now }
    ensures objects { IfOk result (λ pairs. All (IsOfObjects asked.entry.table.now) pairs.items) }
    ensures found { let a = asked.entry in IfOk result (λ pairs. (x : ℕ) → is_found_in a.table.now a.roles.now pairs.items x ≡ (has_id a.ownees.now x && is_kept a.table.now a.roles.now x)) }
{
    let cells = asked.table.cells();
    let mut pairs = Vec::new(alloc);
    for ownee in asked.ownees {
        prove!(*ownee < cells);
        if let OwnerRole::OwnerCell(owner) = asked.roles.owner(*ownee) {
            pairs.push(Ownership {
                owner,
                ownee: *ownee,
            })?;
        }
    }
    Ok(pairs)
}

// For each cell whether it is in one of these pairs an ownee that the owner finds. Where the pairs of an owner stand
// together, it is asked once.
fn ask_owners(
    alloc: Global,
    table: &ObjectTable,
    roles: &Roles,
    pairs: &[Ownership],
) -> Result<Vec<bool>, OutOfMemory>
    requires roles { AreRolesOf table.now.cells (length table.now.table.kinds) roles.now }
    requires pairs { All (IsOfObjects table.now) pairs.now }
    ensures each { IfOk result (λ found. length found.items ≡ length table.now.cells) }
    ensures found { IfOk result (λ found. (x : ℕ) → flag_of found.items x ≡ is_found_in table.now roles.now pairs.now x) }
{
    let mut asking = Asking::begin(alloc, table.cells())?;
    for pair in pairs {
        asking.take(table, roles, *pair)?;
    }
    asking.ask(table, roles)?;
    let Asking {
        search: _,
        found,
        owner: _,
        ownees: _,
    } = asking;
    Ok(found)
}

// Owners are being asked: which cells hold ownees that were found; and the owner to ask next, for these ownees.
#[derive(Drop)]
struct Asking {
    search: OwnerSearch,
    found: Vec<bool>,
    owner: u32,
    ownees: Vec<u32>,
    ghost each: { search ≡ length found.items },
}

impl Asking {
    ghost use Rattle.verdict_list.specs.Askings.{asked_in};

    fn begin(alloc: Global, cells: u32) -> Result<Asking, OutOfMemory>
        ensures asked { IfOk result (λ a. (p : PlacedTable) (r : RoleTable) → length p.cells ≡ cells → HasAsked p r [] (asked_in a)) }
    {
        Ok(Asking {
            search: OwnerSearch::make(alloc, cells)?,
            found: vec![in alloc; false; cells as usize]?,
            owner: 0,
            ownees: Vec::new(alloc),
        })
    }

    // Takes one pair more. Where it is of another owner, the one before is asked first.
    fn take(
        &mut self,
        table: &ObjectTable,
        roles: &Roles,
        pair: Ownership,
    ) -> Result<(), OutOfMemory>
        requires roles { AreRolesOf table.now.cells (length table.now.table.kinds) roles.now }
        requires pair { IsOfObjects table.now pair }
        requires asked { (pairs : List Ownership) × HasAsked table.now roles.now pairs (asked_in self.old) }
        ensures asked { OnOk result ((pairs : List Ownership) → HasAsked table.now roles.now pairs (asked_in self.old) → HasAsked table.now roles.now (pairs ++ pair ∷ []) (asked_in self.new)) }
    {
        self.turn_to(table, roles, pair.owner)?;
        self.ownees.push(pair.ownee)?;
        Ok(())
    }

    // Has this owner be the one to ask next. Where another one was, that is asked.
    fn turn_to(&mut self, table: &ObjectTable, roles: &Roles, owner: u32) -> Result<(), OutOfMemory>
        requires roles { AreRolesOf table.now.cells (length table.now.table.kinds) roles.now }
        requires asked { (pairs : List Ownership) × HasAsked table.now roles.now pairs (asked_in self.old) }
        ensures owner { OnOk result (self.new.owner ≡ owner) }
        ensures asked { OnOk result ((pairs : List Ownership) → HasAsked table.now roles.now pairs (asked_in self.old) → HasAsked table.now roles.now pairs (asked_in self.new)) }
    {
        if owner == self.owner {
            return Ok(());
        }
        self.ask(table, roles)?;
        self.owner = owner;
        Ok(())
    }

    // Asks the owner for its ownees, if there are any, and notes which it finds.
    fn ask(&mut self, table: &ObjectTable, roles: &Roles) -> Result<(), OutOfMemory>
        requires roles { AreRolesOf table.now.cells (length table.now.table.kinds) roles.now }
        requires asked { (pairs : List Ownership) × HasAsked table.now roles.now pairs (asked_in self.old) }
        ensures none { OnOk result (self.new.ownees.items ≡ []) }
        ensures asked { OnOk result ((pairs : List Ownership) → HasAsked table.now roles.now pairs (asked_in self.old) → HasAsked table.now roles.now pairs (asked_in self.new)) }
    {
        if !self.ownees.is_empty() {
            let answers = self
                .search
                .finds(table, roles, self.owner, self.ownees.as_slice())?;
            note_found(
                self.ownees.as_slice(),
                answers.as_slice(),
                self.found.as_mut_slice(),
            );
            self.ownees.clear();
        }
        Ok(())
    }
}

// Notes which of these ownees were found, by an answer for each.
fn note_found(ownees: &[u32], answers: &[bool], found: &mut [bool])
    requires answers { length answers.now ≡ length ownees.now }
    requires ownees { All (λ ownee. ownee < length found.old) ownees.now }
    ensures each { length found.new ≡ length found.old }
    ensures found { (test : ℕ → Bool) → answers.now ≡ map test ownees.now → Flags (λ x. has_id ownees.now x && test x) found.old found.new }
{
    for place in 0..ownees.len() {
        if answers[place] {
            found[ownees[place] as usize] = true;
        }
    }
}

// Those of the ownees that were not found, in the same order.
fn without(alloc: Global, ownees: &[u32], found: &[bool]) -> Result<Vec<u32>, OutOfMemory>
    requires { All (λ ownee. ownee < length found.now) ownees.now }
    ensures { IfOk result (λ others. others.items ≡ filter (λ ownee. not (flag_of found.now ownee)) ownees.now) }
{
    let mut others = Vec::new(alloc);
    for ownee in ownees {
        if !found[*ownee as usize] {
            others.push(*ownee)?;
        }
    }
    Ok(others)
}
