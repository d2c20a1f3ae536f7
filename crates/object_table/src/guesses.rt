use heap_base::{Name, OutOfMemory};
use std::alloc::Global;

const GUESSES: usize = 2_048;

/// Where a name may stand in a list of names, by some of its bytes. A guess may be wrong: it is compared before it
/// counts. It spares most names the search by their whole text, which is long where names differ in their last bytes alone.
#[derive(Drop)]
pub struct Guesses {
    // `GUESSES` of them or none
    places: Vec<u32>,
    alloc: Global,
}

impl Guesses {
    /// No guess, which takes no memory.
    pub fn make(alloc: Global) -> Guesses {
        Guesses {
            places: Vec::new(alloc),
            alloc,
        }
    }

    /// The same guesses.
    pub fn copy(&self) -> Result<Guesses, OutOfMemory> {
        Ok(Guesses {
            places: self.places.clone()?,
            alloc: self.alloc,
        })
    }

    /// The place of the last name with such bytes, if there is a guess.
    pub fn guess(&self, name: &Name) -> Option<u32> {
        self.places.get(guess_of(name)).copied()
    }

    /// Takes the memory that `note` needs.
    pub fn reserve(&mut self) -> Result<(), OutOfMemory> {
        if self.places.is_empty() {
            self.places = vec![in self.alloc; 0u32; GUESSES]?;
        }
        Ok(())
    }

    /// Guesses this place for names with such bytes from now on, where memory was taken.
    pub fn note(&mut self, name: &Name, place: u32) {
        if let Some(guess) = self.places.get_mut(guess_of(name)) {
            *guess = place;
        }
    }
}

// Names differ in their length and their last bytes most. The factor sets names apart whose last bytes count on, in
// decimals or in hexadecimals.
fn guess_of(name: &Name) -> usize {
    let text = name.as_str().as_bytes();
    let sum = text.iter().rev().take(8).fold(
        text.len(),
        |sum, b| sum.wrapping_mul(379).wrapping_add(*b as usize),
    );
    sum % GUESSES
}
