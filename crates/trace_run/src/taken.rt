//! What a program makes of an event.

use graph_meaning::Collection;

/// A text that is due.
#[derive(Drop)]
pub enum Due {
    /// These bytes.
    Text(Vec<u8>),
    /// The lines of a collection, which are made as they are written.
    Lines(Collection),
}

/// The last text of a report, and whether the report has a violation.
#[derive(Drop)]
pub struct LastText {
    pub text: Vec<u8>,
    pub violated: bool,
}

/// What an event led to.
#[derive(Drop)]
pub enum Taken {
    /// This text is due, if any is, and the run goes on.
    GoesOn(Option<Due>),
    /// This text is due, and then the last text: the run halts.
    Halts(Due, LastText),
}
