ghost use Rattle.std.specs.Prelude.{◌≡◌, ◌+◌, ◌^◌, ◌<◌, [], length};
ghost use Rattle.header_rule.specs.Reaches.{view_of, slots_of};
ghost use Rattle.header_rule.specs.Shares.{share};

use crate::reach::Reach;

/// What a worker meets cells with. Contracts see its number, how many meets are left to it, and what it met:
/// its adds, its wins and its marks, in order.
#[derive(Drop)]
pub struct Pass {
    pub(crate) reach: Reach,
    pub(crate) number: u32,
    // How many passes were made with its headers.
    pub(crate) workers: u32,
    pub(crate) left: u64,
    ghost room: { left + length (view_of reach).adds ≡ 2 ^ 51 },
    ghost rights: { (view_of reach).rights ≡ share workers number },
    ghost allowed: { 0 < (view_of reach).rights },
    ghost slotless: { slots_of reach ≡ [] },
}

impl Pass {
    /// Its number among the passes of its headers, counted from 0.
    pub fn number(&self) -> u32
        ensures { result ≡ self.now.number }
    {
        self.number
    }

    /// How many meets are left to it: 2^51 before the first.
    pub fn left(&self) -> u64
        ensures { result ≡ self.now.left }
    {
        self.left
    }
}
