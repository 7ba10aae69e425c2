//! A begun `parts`: its turns to come.

ghost use Rattle.std.specs.Prelude.{◌≡◌, ◌+◌, ◌<◌, MatchOption, IfSome, None, Some};
ghost use Rattle.sections.specs.Place.{piece_of};
ghost use Rattle.sections.specs.Translation.{window as window_of};
ghost use Rattle.types.specs.Translation.{environment as environment_of};

use sections::id::SectionId;
use sections::window::Window;
use types::code::{Label, Stmt};
use types::ids::Slot;
use types::value::Environment;

/// The turns of a begun `parts` that are still to come. Each takes a step and has its own piece.
#[derive(Clone, Copy)]
pub struct TurnsToCome<'p> {
    pub label: Label,
    pub section: SectionId,
    /// The size of a piece.
    pub size: u64,
    /// The number of the next turn.
    pub next: u64,
    /// What the block sees: the piece, and the scalar that has the number of the turn.
    pub piece: SectionId,
    pub turn: Slot,
    pub body: &'p [Stmt],
}

impl<'p> TurnsToCome<'p> {
    /// Returns the piece of the next turn, or `None` if no turn is left.
    #[inline]
    pub fn next_piece(self, environment: &Environment) -> Option<Window>
        ensures piece { let w = (environment_of environment.now).windows self.entry.section.number in
            MatchOption result (piece_of w self.entry.size self.entry.next ≡ None)
            (λ piece. piece_of w self.entry.size self.entry.next ≡ Some (window_of piece)) }
        ensures few { IfSome result (λ piece. self.entry.next < 4194304) }
    {
        environment.window(self.section).piece(self.size, self.next)
    }

    /// Returns the turns after the next one.
    #[inline]
    pub fn after_next(self) -> TurnsToCome<'p>
        requires { self.next < 4194304 }
        ensures { result ≡ record self.entry { next = self.entry.next + 1 } }
    {
        TurnsToCome {
            next: self.next + 1,
            ..self
        }
    }
}
