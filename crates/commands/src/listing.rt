//! `list`: the listing of any program.

ghost use Rattle.commands.specs.Answers.{DoesAlone};

use crate::memory::or_no_memory;
use crate::programs::program_of;
use crate::showing::answer;
use command_line::request::Command;
use failures::failure::Failure;
use statement_places::{placed_listing, statement_places};
use std::alloc::Global;
use std::io::Write;

/// `list`: writes the listing of a program, even if it breaks rules.
pub fn list_labels<O: Write>(alloc: Global, text: &str, out: &mut O) -> Result<u8, Failure>
    ensures { DoesAlone Command.Labels text.now (O.contents out.old) (O.contents out.new) result }
{
    let program = program_of(alloc, text)?;
    let listing = or_no_memory(syntax::listing(alloc, &program))?;
    answer(out, listing.as_str())
}

/// `list --lines`: writes the listing with the line and the column at which each statement starts.
pub fn list_places<O: Write>(alloc: Global, text: &str, out: &mut O) -> Result<u8, Failure>
    ensures { DoesAlone Command.Places text.now (O.contents out.old) (O.contents out.new) result }
{
    let program = program_of(alloc, text)?;
    let listing = or_no_memory(syntax::listing(alloc, &program))?;
    let places = or_no_memory(statement_places(alloc, text))?;
    let placed = or_no_memory(placed_listing(alloc, listing.as_str(), &places))?;
    answer(out, placed.as_str())
}
