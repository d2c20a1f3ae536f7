/// A share of the work of a round.
pub trait Share {
    /// When it can be worked off.
    ghost can_work: { Self → Type 0 };

    /// The share before and after it was worked off.
    ghost worked: { Self → Self → Type 0 };

    /// Works it off.
    fn work(&mut self)
        requires { can_work self.old }
        ensures { worked self.old self.new };

    /// Whether it pays to have a thread of its own work it off. Else the caller does.
    fn is_for_a_thread(&self) -> bool;
}
