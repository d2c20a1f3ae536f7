ghost use Rattle.std.specs.Prelude.{◌≡◌, ◌<◌, ◌++◌, ◌∷◌, [], IfOk, slice_set, slice_index_or, true, false, None};
ghost use Rattle.graph_meaning.specs.Owners.{is_any_set};
ghost use Rattle.graph_meaning.specs.Reach.{has_id};
ghost use Rattle.graph_meaning.specs.Roles.{no_roles, cells_of, kinds_of, owner_in, has_owner, border_in};

use crate::by_cell::{ByCell, copy_with_room};
use crate::cell_flags::CellFlags;
use heap_base::OutOfMemory;
use std::alloc::Global;
use std::marker::Model;

/// Whose ownee the object in a cell is: nobody's, that of the object in another cell, or that of an object that
/// was freed, by its id.
#[derive(Clone, Copy, Debug, PartialEq, Eq)]
pub enum OwnerRole {
    NotOwned,
    OwnerCell(u32),
    OwnerGone(u32),
}

impl OwnerRole {
    /// Whether the object is an ownee, of an object that is there or of one that was freed.
    #[inline]
    pub fn has_owner(self) -> bool
        ensures { result ≡ has_owner self }
    {
        match self {
            OwnerRole::NotOwned => false,
            OwnerRole::OwnerCell(_) | OwnerRole::OwnerGone(_) => true,
        }
    }
}

/// What the object in a cell is to the searches of owners, which go on from no owner and no ownee.
#[derive(Clone, Copy, Debug, PartialEq, Eq)]
pub struct Border {
    /// Whether it is an owner.
    pub owner: bool,
    /// Whether it is an ownee, of an object that is there or of one that was freed.
    pub ownee: bool,
}

/// What the assertions make of the objects and types of a table: by cell who is asserted dead, who unshared and whose
/// ownee it is, by number of a type its limit, and the cells of the owners in order. Contracts see a `RoleTable`.
#[derive(Drop)]
pub struct Roles {
    dead: CellFlags,
    unshared: CellFlags,
    ownees: ByCell<OwnerRole>,
    limits: Vec<Option<u32>>,
    owners: Vec<u32>,
    // the same once more, where one look tells it: most objects are neither owner nor ownee
    borders: ByCell<Border>,
}

impl Model for Roles {
    ghost use Rattle.std.specs.Prelude.{◌≡◌, ◌≤◌, length, vec_capacity};
    ghost use Rattle.graph_meaning.specs.Roles.{RoleTable};
    ghost use Rattle.graph_meaning.specs.Owners.{HaveBorders};

    ghost Value = { RoleTable };

    ghost view = { λ r. record { dead = r.dead; unshared = r.unshared; ownees = r.ownees; limits = r.limits.items; owners = r.owners.items } };

    ghost invariant = { λ r. (length r.unshared ≡ length r.dead) × (length r.ownees ≡ length r.dead) × (length r.borders ≡ length r.dead) × HaveBorders r.borders r.ownees r.owners.items × (length r.borders ≤ vec_capacity r.owners) };
}

impl Roles {
    /// No role in any of so many cells, and no limit of any of so many types. It takes the memory of all later calls.
    pub fn make(alloc: Global, cells: u32, kinds: u32) -> Result<Roles, OutOfMemory>
        ensures { IfOk result (λ r. r ≡ no_roles cells kinds) }
    {
        let dead = CellFlags::make(alloc, cells)?;
        let unshared = CellFlags::make(alloc, cells)?;
        let ownees = ByCell::make(alloc, cells, OwnerRole::NotOwned)?;
        let limits = vec![in alloc; None; kinds as usize]?;
        let owners = Vec::with_capacity(alloc, cells as usize)?;
        let neither = Border {
            owner: false,
            ownee: false,
        };
        let borders = ByCell::make(alloc, cells, neither)?;
        Ok(Roles {
            dead,
            unshared,
            ownees,
            limits,
            owners,
            borders,
        })
    }

    /// Equal roles.
    pub fn copy(&self) -> Result<Roles, OutOfMemory>
        ensures { IfOk result (λ r. r ≡ self.now) }
    {
        Ok(Roles {
            dead: self.dead.copy()?,
            unshared: self.unshared.copy()?,
            ownees: self.ownees.copy()?,
            limits: copy_with_room(&self.limits)?,
            owners: copy_with_room(&self.owners)?,
            borders: self.borders.copy()?,
        })
    }

    /// The object in the cell is asserted dead.
    pub fn set_dead(&mut self, cell: u32)
        requires { cell < cells_of self.old }
        ensures { self.new ≡ record self.old { dead = slice_set self.old.dead cell true } }
    {
        self.dead.set(cell);
    }

    /// The object in the cell is asserted unshared.
    pub fn set_unshared(&mut self, cell: u32)
        requires { cell < cells_of self.old }
        ensures { self.new ≡ record self.old { unshared = slice_set self.old.unshared cell true } }
    {
        self.unshared.set(cell);
    }

    /// Says whose ownee the object in the cell is.
    pub fn set_owner(&mut self, cell: u32, owner: OwnerRole)
        requires { cell < cells_of self.old }
        ensures { self.new ≡ record self.old { ownees = slice_set self.old.ownees cell owner } }
    {
        let border = Border {
            ownee: owner.has_owner(),
            ..self.borders.get(cell)
        };
        self.ownees.set(cell, owner);
        self.borders.set(cell, border);
    }

    /// Sets the limit of a type, or takes it away.
    pub fn set_limit(&mut self, kind: u32, limit: Option<u32>)
        requires { kind < kinds_of self.old }
        ensures { self.new ≡ record self.old { limits = slice_set self.old.limits kind limit } }
    {
        self.limits[kind as usize] = limit;
    }

    /// Puts the cell last among those of the owners.
    pub fn add_owner(&mut self, cell: u32)
        requires cell { cell < cells_of self.old }
        requires new { has_id self.old.owners cell ≡ false }
        ensures { self.new ≡ record self.old { owners = self.old.owners ++ cell ∷ [] } }
    {
        self.owners.push_reserved(cell);
        let border = Border {
            owner: true,
            ..self.borders.get(cell)
        };
        self.borders.set(cell, border);
    }

    /// Whether the object in the cell is asserted dead.
    pub fn dead(&self, cell: u32) -> bool
        requires { cell < cells_of self.now }
        ensures { result ≡ slice_index_or self.now.dead cell false }
    {
        self.dead.get(cell)
    }

    /// Whether any object is asserted dead.
    pub fn has_dead(&self) -> bool
        ensures { result ≡ is_any_set self.now.dead }
    {
        self.dead.any()
    }

    /// Whether the object in the cell is asserted unshared.
    pub fn unshared(&self, cell: u32) -> bool
        requires { cell < cells_of self.now }
        ensures { result ≡ slice_index_or self.now.unshared cell false }
    {
        self.unshared.get(cell)
    }

    /// Whether any object is asserted unshared.
    pub fn has_unshared(&self) -> bool
        ensures { result ≡ is_any_set self.now.unshared }
    {
        self.unshared.any()
    }

    /// Whose ownee the object in the cell is.
    pub fn owner(&self, cell: u32) -> OwnerRole
        requires { cell < cells_of self.now }
        ensures { result ≡ owner_in self.now cell }
    {
        self.ownees.get(cell)
    }

    /// Whether the cell is among those of the owners.
    pub fn is_owner(&self, cell: u32) -> bool
        requires { cell < cells_of self.now }
        ensures { result ≡ has_id self.now.owners cell }
    {
        self.borders.get(cell).owner
    }

    /// Whether the object in the cell is an owner, and whether it is an ownee.
    #[inline(always)]
    pub fn border(&self, cell: u32) -> Border
        requires { cell < cells_of self.now }
        ensures { result ≡ border_in self.now cell }
    {
        self.borders.get(cell)
    }

    /// The limit of a type, if it has one.
    pub fn limit(&self, kind: u32) -> Option<u32>
        requires { kind < kinds_of self.now }
        ensures { result ≡ slice_index_or self.now.limits kind None }
    {
        self.limits[kind as usize]
    }

    /// The cells of the owners, in the order in which they were added.
    pub fn owners(&self) -> &[u32]
        ensures { result.now ≡ self.now.owners }
    {
        self.owners.as_slice()
    }
}
