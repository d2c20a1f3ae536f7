/// What a collection says of itself: how many objects there were before it, how many it freed, and how many were
/// remembered before it.
#[derive(Clone, Copy, Debug, PartialEq, Eq)]
pub struct Minor {
    pub live: u32,
    pub freed: u32,
    pub remembered: u32,
}
