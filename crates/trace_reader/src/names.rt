ghost use Rattle.std.specs.Prelude.{◌≡◌, Some, None, IfOk, if◌then◌else◌};
ghost use Rattle.heap_base.specs.Names.{is_name};

use heap_base::{Name, OutOfMemory};
use std::alloc::Global;

const PLACES: usize = 2_048;

/// Makes names, and keeps the last ones that it made: most lines name a type that was named a moment before, and a copy of a name
/// takes no memory.
#[derive(Drop)]
pub struct RecentNames {
    pub alloc: Global,
    // by some of their bytes, in `PLACES` places or in none
    names: Vec<Option<Name>>,
}

impl RecentNames {
    /// It keeps no name, and takes memory only where it makes one.
    pub fn new(alloc: Global) -> RecentNames {
        RecentNames {
            alloc,
            names: Vec::new(alloc),
        }
    }

    /// The name with this text, and `Ok(None)` exactly where the text is no name.
    pub fn name_of(&mut self, text: &str) -> Result<Option<Name>, OutOfMemory>
        ensures { IfOk result (λ name. name ≡ (if is_name text.now then Some text.now else None)) }
    {
        let place = place_of(text.as_bytes());
        if let Some(Some(name)) = self.names.get(place) {
            if name.as_str() == text {
                return Ok(Some(name.copy()?));
            }
        }
        let Some(name) = Name::of(self.alloc, text)? else {
            return Ok(None);
        };
        self.keep(place, &name);
        Ok(Some(name))
    }

    // Keeps a name at its place, where there is memory for the places.
    fn keep(&mut self, place: usize, name: &Name) {
        if self.names.is_empty() {
            for _ in 0..PLACES {
                if self.names.push(None).is_err() {
                    return;
                }
            }
        }
        if let (Some(kept), Ok(copy)) = (self.names.get_mut(place), name.copy()) {
            *kept = Some(copy);
        }
    }
}

// Names differ in their length and their last bytes most. The factor puts names that end in other digits at other places.
fn place_of(text: &[u8]) -> usize {
    let sum = text.iter().rev().take(4).fold(
        text.len(),
        |sum, b| sum.wrapping_mul(131).wrapping_add(*b as usize),
    );
    sum % PLACES
}
