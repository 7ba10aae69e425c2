//! `fmt --write`: the text of any program in the canonical layout, in its own file.

ghost use Rattle.commands.specs.Answers.{Done};
ghost use Rattle.commands.specs.Rewriting.{AnswersRewrite, ExplainsRewrite, LeavesRewritten};

use crate::memory::or_no_memory;
use crate::programs::program_of;
use crate::showing::answer;
use failures::failure::Failure;
use files::file_source::{FileSource, write_file};
use layout::laid_out;
use std::alloc::Global;
use std::io::Write;

/// The greatest number of bytes of a program.
const MOST_BYTES: usize = 1048576;

/// Writes the text of a program into its file in the canonical layout, even if it breaks rules. A
/// text that is already formatted isn't written, to preserve the modification time of its file. Nor
/// is a text that would be too long for a program: deep blocks are indented, so a text can grow.
pub fn rewrite<F: FileSource, O: Write>(
    alloc: Global,
    file: &str,
    text: &str,
    files: &mut F,
    out: &mut O,
) -> Result<u8, Failure>
    ensures done { Done (AnswersRewrite text.now) (ExplainsRewrite file.now text.now)
        (O.contents out.old) (O.contents out.new) result }
    ensures leaves { LeavesRewritten file.now text.now (F.held files.old) (F.held files.new) result }
{
    let _program = program_of(alloc, text)?;
    let laid = or_no_memory(laid_out(alloc, text))?;
    if laid.as_str() == text {
        return answer(out, "");
    }
    if laid.len() > MOST_BYTES {
        return Err(Failure::cannot_write(alloc, file));
    }
    write_file(alloc, files, file, laid.as_bytes())?;
    answer(out, "")
}
