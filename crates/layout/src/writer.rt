//! A writer of items, each after its gap.

ghost use Rattle.std.specs.Prelude.{◌≡◌, ◌<◌, [], ◌++◌, OnOk, length};
ghost use Rattle.syntax.specs.Canonical.{indent};
ghost use Rattle.syntax.specs.Token.{token as token_tree};
ghost use Rattle.layout.specs.Gap.{gap_text};
ghost use Rattle.layout.specs.Laid.{comment_written, end_text, token_written};
ghost use Rattle.layout.specs.Spot.{behind_blank, behind_comment, behind_token, first as first_spot};
ghost use Rattle.layout.specs.Spot.{spot as spot_of};
ghost use Rattle.layout.specs.Writing.{Adds, IsCounted};

use crate::gap::{self, Gap};
use crate::pieces;
use crate::spot::{Last, Spot};
use std::alloc::{AllocError, Global};
use syntax::token::Token;

/// The output so far, and the spot at its end.
#[derive(Drop)]
pub struct LayoutWriter {
    pub out: Vec<char>,
    pub spot: Spot,
}

impl LayoutWriter {
    /// Returns a writer that has written nothing.
    pub fn new(alloc: Global) -> LayoutWriter
        ensures out { result.out.items ≡ [] }
        ensures spot { spot_of result.spot ≡ first_spot }
        ensures counted { IsCounted result }
    {
        LayoutWriter {
            out: Vec::new(alloc),
            spot: Spot::first(),
        }
    }

    /// Passes a whitespace character without writing it.
    pub fn blank(&mut self, blank: char)
        requires { IsCounted self.old }
        ensures counted { IsCounted self.new }
        ensures passed { Adds self.old self.new [] (behind_blank (spot_of self.old.spot) blank) }
    {
        self.spot = self.spot.behind_blank(blank);
    }

    /// Writes a comment. `line` is the text after the `//`.
    pub fn comment(&mut self, line: &[char]) -> Result<(), AllocError>
        requires { IsCounted self.old }
        ensures counted { OnOk result (IsCounted self.new) }
        ensures written { OnOk result (Adds self.old self.new
            (comment_written (spot_of self.old.spot) line.now)
            (behind_comment (spot_of self.old.spot))) }
    {
        self.gap(gap::comment_gap(self.spot))?;
        self.out.extend_from_slice(&['/', '/'])?;
        self.out.extend_from_slice(pieces::trimmed(line))?;
        self.spot = self.spot.behind_comment();
        Ok(())
    }

    /// Writes a token by its letters.
    pub fn token(&mut self, token: &Token, letters: &[char]) -> Result<(), AllocError>
        requires counted { IsCounted self.old }
        requires some { 0 < length letters.now }
        ensures counted { OnOk result (IsCounted self.new) }
        ensures written { OnOk result (Adds self.old self.new
            (token_written (spot_of self.old.spot) (token_tree token.now) letters.now)
            (behind_token (spot_of self.old.spot) (token_tree token.now))) }
    {
        self.gap(gap::token_gap(self.spot, token))?;
        self.out.extend_from_slice(letters)?;
        self.spot = self.spot.behind_token(token);
        Ok(())
    }

    /// Ends the last line.
    pub fn end(&mut self) -> Result<(), AllocError>
        ensures { OnOk result
            (self.new.out.items ≡ self.old.out.items ++ end_text self.old.spot.last) }
    {
        match self.spot.last {
            Last::Nothing => Ok(()),
            Last::Brace | Last::Comment | Last::Code => {
                self.out.push('\n')?;
                Ok(())
            }
        }
    }

    fn gap(&mut self, gap: Gap) -> Result<(), AllocError>
        ensures out { OnOk result (self.new.out.items ≡ self.old.out.items ++ gap_text gap) }
        ensures spot { self.new.spot ≡ self.old.spot }
    {
        match gap {
            Gap::Joined => Ok(()),
            Gap::Space => {
                self.out.push(' ')?;
                Ok(())
            }
            Gap::Line { empty, levels } => {
                if empty {
                    self.out.push('\n')?;
                }
                self.out.push('\n')?;
                indent(&mut self.out, levels)
            }
        }
    }
}

/// Indents a line.
fn indent(out: &mut Vec<char>, levels: usize) -> Result<(), AllocError>
    ensures { OnOk result (out.new.items ≡ out.old.items ++ indent levels) }
{
    for _level in 0..levels {
        out.extend_from_slice(&[' ', ' '])?;
    }
    Ok(())
}
