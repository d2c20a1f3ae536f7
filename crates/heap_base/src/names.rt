ghost use Rattle.std.specs.Prelude.{◌≡◌, Some, None, IfOk, IsTrue, if◌then◌else◌};
ghost use Rattle.std.specs.List.{list_all};
ghost use Rattle.heap_base.specs.Names.{is_name, is_name_byte};

use crate::errors::OutOfMemory;
use crate::limits::LONGEST_NAME;
use std::alloc::Global;
use std::marker::Model;
use std::sync::ArcStr;

/// The name of a type or of a root: 1 to 256 bytes of UTF-8, none of them a control character of ASCII
/// (below 0x20, or 0x7F). Contracts see it as its bytes.
#[derive(Debug, Drop)]
pub struct Name {
    // shared by all copies, of which a collection's verdicts have many
    text: ArcStr,
}

impl Model for Name {
    ghost use Rattle.std.specs.Prelude.{List, ℕ, IsTrue};
    ghost use Rattle.std.specs.Arc.{arc_str_bytes};
    ghost use Rattle.heap_base.specs.Names.{is_name};

    ghost Value = { List ℕ };

    ghost view = { λ n. arc_str_bytes n.text };

    ghost invariant = { λ n. IsTrue (is_name (arc_str_bytes n.text)) };
}

impl Name {
    /// The name with this text, and `Ok(None)` exactly where the text is no name.
    pub fn of(alloc: Global, text: &str) -> Result<Option<Name>, OutOfMemory>
        ensures { IfOk result (λ name. name ≡ (if is_name text.now then Some text.now else None)) }
    {
        if !is_legal(text) {
            return Ok(None);
        }
        let text = ArcStr::from_str(alloc, text)?;
        Ok(Some(Name { text }))
    }

    /// Its text.
    pub fn as_str(&self) -> &str
        ensures text { result.now ≡ self.now }
        ensures legal { IsTrue (is_name self.now) }
    {
        self.text.as_str()
    }

    /// An equal name, which shares its text.
    pub fn copy(&self) -> Result<Name, OutOfMemory>
        ensures { IfOk result (λ name. name ≡ self.now) }
    {
        let text = self.text.clone()?;
        Ok(Name { text })
    }
}

fn is_legal(text: &str) -> bool
    ensures { result ≡ is_name text.now }
{
    1 <= text.len() && text.len() <= LONGEST_NAME && has_no_control(text.as_bytes())
}

// It goes to the end in any case, so that many bytes are looked at at once.
fn has_no_control(bytes: &[u8]) -> bool
    ensures { result ≡ list_all is_name_byte bytes.now }
{
    let mut legal = true;
    for b in bytes {
        legal = legal & (32 <= *b) & (*b != 127);
    }
    legal
}
