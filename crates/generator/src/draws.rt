ghost use Rattle.std.specs.Prelude.{◌≡◌, ◌<◌, ◌^◌};
ghost use Rattle.generator.specs.Draws.{draw_of, next_state};

/// Numbers drawn one after another, by a linear congruence modulo 2^31.
#[derive(Clone, Copy, Debug)]
pub(crate) struct Draws {
    pub(crate) state: u32,
}

impl Draws {
    /// The next number: 0 to 32,767.
    pub(crate) fn draw(&mut self) -> u32
        ensures state { self.new.state ≡ next_state self.old.state }
        ensures drawn { result ≡ draw_of self.new.state }
        ensures below { result < 2 ^ 15 }
    {
        let next = (self.state as u64 * 1_103_515_245 + 12_345) % (1 << 31);
        self.state = next as u32;
        self.state / 65_536
    }
}
