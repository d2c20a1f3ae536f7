//! How a pass reaches the words that it meets cells by.
use crate::own_words::OwnWords;
use crate::view::View;
use atomic_table::Seat;

/// How a pass reaches the header words.
#[derive(Drop)]
pub(crate) enum Reach {
    /// By a seat on the table that all passes share.
    Table(Seat<(), View>),
    /// They are its own, since it is the only pass.
    Own(OwnWords),
}
