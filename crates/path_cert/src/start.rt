/// Where levels begin.
#[derive(Clone, Copy, Debug, PartialEq, Eq)]
pub enum Start {
    /// At the roots: level 1 is what they name.
    Roots,
    /// At the owners: level 1 is what their edges lead to.
    Owners,
}
