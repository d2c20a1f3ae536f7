ghost use Rattle.std.specs.Prelude.{◌≡◌, ◌++◌, [], length};
ghost use Rattle.generator.specs.Plans.{IsPlan};
ghost use Rattle.generator.specs.Text.{gen_text};

use crate::draws::Draws;
use crate::lines::{Object, put_last, put_object};
use crate::piece::Piece;
use crate::plan::GenPlan;
use std::marker::Model;

/// The text of a trace that is still to be made, in pieces: one for each object, and one of the last lines. Contracts see it
/// as its bytes.
#[derive(Debug, Drop)]
pub(crate) struct Pieces {
    plan: GenPlan,
    made: u32,
    draws: Draws,
    is_done: bool,
}

impl Model for Pieces {
    ghost use Rattle.std.specs.Prelude.{◌≡◌, ◌≤◌, [], List, ℕ, if◌then◌else◌};
    ghost use Rattle.generator.specs.Draws.{state_after};
    ghost use Rattle.generator.specs.Text.{text_after};

    ghost Value = { List ℕ };

    ghost view = { λ p. if p.is_done then [] else text_after p.plan.number p.plan.size p.made };

    ghost invariant = { λ p. (p.made ≤ p.plan.size) × (p.draws.state ≡ state_after p.made p.plan.number) };
}

impl Pieces {
    /// The whole text.
    pub(crate) fn of(plan: GenPlan) -> Pieces
        ensures { result ≡ gen_text plan.number plan.size }
    {
        Pieces {
            plan,
            made: 0,
            draws: Draws { state: plan.number },
            is_done: false,
        }
    }

    /// Makes the next piece in the place of the one before it: an empty one only where nothing is left to make.
    pub(crate) fn make_next(&mut self, piece: &mut Piece)
        ensures text { self.old ≡ piece.new ++ self.new }
        ensures some { piece.new ≡ [] → self.old ≡ [] }
    {
        piece.clear();
        if self.is_done {
            return;
        }
        if self.made == self.plan.size {
            put_last(piece);
            self.is_done = true;
        } else {
            self.made += 1;
            let draw = self.draws.draw();
            put_object(
                piece,
                self.plan.size,
                Object {
                    id: self.made,
                    draw,
                },
            );
        }
    }
}
