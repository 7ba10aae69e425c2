//! `fmt`: the text of any program in the canonical layout.

ghost use Rattle.commands.specs.Answers.{DoesAlone};

use crate::memory::or_no_memory;
use crate::programs::program_of;
use crate::showing::answer;
use command_line::request::Command;
use failures::failure::Failure;
use layout::laid_out;
use std::alloc::Global;
use std::io::Write;

/// `fmt`: writes the text of a program in the canonical layout, even if it breaks rules.
pub fn format<O: Write>(alloc: Global, text: &str, out: &mut O) -> Result<u8, Failure>
    ensures { DoesAlone Command.Format text.now (O.contents out.old) (O.contents out.new) result }
{
    let _program = program_of(alloc, text)?;
    let laid = or_no_memory(laid_out(alloc, text))?;
    answer(out, laid.as_str())
}

/// `fmt --check`: writes nothing if the text of a program has the canonical layout, and fails
/// otherwise.
pub fn check_format<O: Write>(alloc: Global, text: &str, out: &mut O) -> Result<u8, Failure>
    ensures { DoesAlone Command.CheckFormat text.now
        (O.contents out.old) (O.contents out.new) result }
{
    let _program = program_of(alloc, text)?;
    let laid = or_no_memory(laid_out(alloc, text))?;
    if laid.as_str() == text {
        answer(out, "")
    } else {
        Err(Failure::NotLaidOut)
    }
}
