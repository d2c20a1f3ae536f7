//! References by the cells of a table.
ghost use Rattle.graph_meaning.specs.Assertions.{Reference};
ghost use Rattle.object_table.specs.Placed.{PlacedTable};
ghost use Rattle.object_paths.specs.References.{reference_of, RefersTo, StartList};
ghost use Rattle.std.specs.Prelude.{ℕ, List, ◌++◌, ◌∷◌, []};

/// A reference to an object.
#[derive(Clone, Copy, Debug, PartialEq, Eq)]
pub enum CellReference {
    /// By the root with this number.
    Root { root: u32 },
    /// By a slot of the object in a cell.
    Slot { holder: u32, slot: u32 },
}

/// The first two references to an object, and `None` where there are fewer.
#[derive(Clone, Copy, Debug, PartialEq, Eq)]
pub struct FirstReferences {
    pub first: Option<CellReference>,
    pub second: Option<CellReference>,
}

// There is no reference.
pub(crate) const NO_REFERENCES: FirstReferences = FirstReferences {
    first: None,
    second: None,
};

impl FirstReferences {
    // With one reference more, which comes after those that were there.
    pub(crate) fn with(self, reference: CellReference) -> FirstReferences
        ensures { (p : PlacedTable) → (id : ℕ) → (before : List Reference) → RefersTo p reference id → StartList p id before self → StartList p id (before ++ reference_of p reference ∷ []) result }
    {
        if self.first.is_none() {
            FirstReferences {
                first: Some(reference),
                second: None,
            }
        } else if self.second.is_none() {
            FirstReferences {
                first: self.first,
                second: Some(reference),
            }
        } else {
            self
        }
    }
}
