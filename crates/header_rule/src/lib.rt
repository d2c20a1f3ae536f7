//! A header word for each cell of the heap, in which workers mark and count: how often the cell was met, and three marks
//! above the count. Several threads change it in single atomic steps, each by a pass of its own. Between any two steps the words are
//! those of what all passes have met, and each cell that was met was won exactly once. A single worker has the words to itself, and
//! meets by plain additions.
#![tactic(auto)]

mod closing;
mod headers;
mod history;
mod layout;
mod making;
mod mark;
mod meeting;
mod own_words;
mod pass;
mod reach;
mod reading;
mod rereading;
mod shared_words;
mod steps;
mod store;
mod view;
mod words;

pub use headers::Headers;
pub use mark::{Mark, Marks};
pub use pass::Pass;
pub use words::Words;
