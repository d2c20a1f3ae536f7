ghost use Rattle.std.specs.Prelude.{◌≡◌, IfOk};

use heap_base::{Name, OutOfMemory};
use std::marker::Model;

/// A name with its number. Contracts see that pair.
#[derive(Drop)]
pub struct Entry {
    name: Name,
    number: u32,
}

impl Model for Entry {
    ghost use Rattle.std.specs.Prelude.{List, ℕ};

    ghost Value = { List ℕ × ℕ };

    ghost view = { λ e. (e.name, e.number) };
}

impl Entry {
    /// The name, with this number.
    pub fn make(name: Name, number: u32) -> Entry
        ensures { result ≡ (name, number) }
    {
        Entry { name, number }
    }

    /// An equal entry.
    pub fn copy(&self) -> Result<Entry, OutOfMemory>
        ensures { IfOk result (λ e. e ≡ self.now) }
    {
        Ok(Entry {
            name: self.name.copy()?,
            number: self.number,
        })
    }

    /// The name.
    pub fn name(&self) -> &Name
        ensures { result.now ≡ self.now.0 }
    {
        &self.name
    }

    /// The number of the name.
    pub fn number(&self) -> u32
        ensures { result ≡ self.now.1 }
    {
        self.number
    }

    /// Gives the name another number.
    pub fn set_number(&mut self, number: u32)
        ensures { self.new ≡ (self.old.0, number) }
    {
        self.number = number;
    }
}
