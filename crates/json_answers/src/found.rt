//! A race that was found.

use crate::reason::Reason;
use race_checker::race::Race;
use syntax::TextPlace;
use types::code::Program;
use witness::witness::Witness;

/// A race of a program, with the positions of the program's statements, a witness, and what its
/// explanation says.
#[derive(Clone, Copy)]
pub struct FoundRace<'f> {
    pub places: &'f [TextPlace],
    pub code: &'f Program,
    pub race: Race,
    pub witness: &'f Witness,
    pub reason: &'f Reason,
}
