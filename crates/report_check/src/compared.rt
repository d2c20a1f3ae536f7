/// How a text and the bytes of a source compare.
#[derive(Clone, Copy, Debug, PartialEq, Eq)]
pub enum Compared {
    Equal,
    /// At this place, from 1, they first differ, or only one of them has a byte.
    Differs(u64),
}
