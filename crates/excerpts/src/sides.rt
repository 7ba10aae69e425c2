//! Whether the sides of splits are used.

use crate::named::is_name;
use syntax::token::{Mark, Spanned, Token, Word};

/// What was seen of a side of a split: in `split s at 1 as l, r { f(l); }`, `l` is used and `r` is
/// not.
#[derive(Clone, Copy)]
struct Side {
    /// Whether the tokens are between `as` and the block of a split.
    is_head: bool,
    /// Whether a split that has the side is open.
    is_open: bool,
    /// The number of open braces in that split.
    braces: usize,
    is_used: bool,
    /// Whether the statement that was looked for is in that split.
    is_around: bool,
}

/// Returns whether the block of the split around a statement uses this side of the split. The
/// statement starts at the character with this number.
pub fn is_used(tokens: &[Spanned], at: usize, name: &str) -> bool {
    let mut side = Side {
        is_head: false,
        is_open: false,
        braces: 0,
        is_used: false,
        is_around: false,
    };
    for spanned in tokens {
        side.pass(spanned, at, name);
        if side.is_around && !side.is_open {
            return side.is_used;
        }
    }
    false
}

impl Side {
    /// Handles one token.
    fn pass(&mut self, spanned: &Spanned, at: usize, name: &str) {
        match &spanned.token {
            Token::Word(Word::As) => self.is_head = true,
            Token::Mark(Mark::LeftBrace) => {
                self.is_head = false;
                self.braces = self.braces.saturating_add(1);
            }
            Token::Mark(Mark::RightBrace) => {
                self.braces = self.braces.saturating_sub(1);
                self.is_open = self.is_open && self.braces > 0;
            }
            Token::Name(_) if is_name(spanned, name) => self.meet(),
            _ => {}
        }
        if self.is_open && spanned.at == at {
            self.is_around = true;
        }
    }

    /// Handles the name of the side: it is declared or used.
    fn meet(&mut self) {
        if self.is_head {
            self.is_open = true;
            self.braces = 0;
            self.is_used = false;
        } else if self.is_open {
            self.is_used = true;
        }
    }
}
