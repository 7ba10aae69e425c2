//! The text of a program's file.

ghost use Rattle.std.specs.Prelude.{◌≡◌, ◌≤◌, [], length, false, IfErr, IfOk};
ghost use Rattle.std.specs.String.{string_bytes};
ghost use Rattle.files.specs.Held.{HasText, TellsNoProgram};
ghost use Rattle.command_line.specs.declared.request.Color.TheVariants.{Always, Never};
ghost use Rattle.excerpts.specs.declared.paint.Paint.TheVariants.{Coloured, Plain};

use crate::more::More;
use crate::refusal::Refusal;
use crate::source::ProgramSource;
use crate::terminal::Terminal;
use command_line::request::{Color, Request, Telling};
use excerpts::paint::Paint;
use failures::failure::Failure;
use files::file_source::{FileSource, read_program};
use std::alloc::Global;

/// Returns the text of the file that a request names; or the reason why it has none, explained if
/// it should be.
pub(crate) fn source_of<F: FileSource, T: Terminal>(
    alloc: Global,
    files: &mut F,
    request: Request<'_>,
    more: More,
    terminal: &T,
) -> Result<ProgramSource, Refusal>
    ensures text { IfOk result
        (λ source. HasText (F.held files.old) request.entry.file.now (string_bytes source.text)) }
    ensures short { IfOk result (λ source. length (string_bytes source.text) ≤ 1048576) }
    ensures why { IfErr result
        (λ refusal. TellsNoProgram (F.held files.old) request.entry.file.now refusal.failure) }
    ensures bare { IfErr result
        (λ refusal. more.explains ≡ false → string_bytes refusal.more ≡ []) }
    ensures more { IfOk result (λ source. source.more ≡ more) }
    ensures keeps { F.held files.new ≡ F.held files.old }
{
    let paint = paint_of(request.telling, terminal);
    match text_in(alloc, files, request.file) {
        Ok(text) => Ok(ProgramSource { text, more, paint }),
        Err(failure) => {
            let file = request.file;
            Err(Refusal::unread(alloc, files, file, more.explains, paint, failure))
        }
    }
}

/// Returns the text in the file of a program.
fn text_in<F: FileSource>(alloc: Global, files: &mut F, name: &str) -> Result<String, Failure>
    ensures text { IfOk result (λ text. HasText (F.held files.old) name.now (string_bytes text)) }
    ensures short { IfOk result (λ text. length (string_bytes text) ≤ 1048576) }
    ensures why { IfErr result (TellsNoProgram (F.held files.old) name.now) }
    ensures keeps { F.held files.new ≡ F.held files.old }
{
    let bytes = read_program(alloc, files, name)?;
    match String::from_utf8(bytes) {
        Ok(text) => Ok(text),
        Err(_) => Err(Failure::not_utf8(alloc, name)),
    }
}

/// Returns whether the explanation of a refusal is colored.
fn paint_of<T: Terminal>(telling: Telling, terminal: &T) -> Paint
    ensures always { telling.color ≡ Always → result ≡ Coloured }
    ensures never { telling.color ≡ Never → result ≡ Plain }
{
    let is_coloured = match telling.color {
        Color::Always => true,
        Color::Never => false,
        Color::Auto => terminal.has_colours(),
    };
    if is_coloured {
        Paint::Coloured
    } else {
        Paint::Plain
    }
}
