//! A failure with its explanation.

ghost use Rattle.std.specs.Prelude.{◌≡◌, ◌++◌, [], codes, false};
ghost use Rattle.std.specs.String.{string_bytes};
ghost use Rattle.failures.specs.FailureStatus.{failure_status};
ghost use Rattle.failures.specs.Messages.{failure_text};
ghost use Rattle.printing.specs.Appending.{AppendsBeginning};

use crate::said::said;
use crate::source::ProgramSource;
use command_line::request::Request;
use commands::explaining::explanation;
use commands::unread::unread_explanation;
use excerpts::paint::Paint;
use failures::failure::Failure;
use failures::message::emit_message;
use files::file_source::FileSource;
use printing::emit::append;
use std::alloc::{AllocError, Global};
use std::io::Write;

/// The reason why a command failed, and the explanation after its line.
#[derive(Drop)]
pub struct Refusal {
    pub failure: Failure,
    pub more: String,
}

impl Refusal {
    /// Returns a failure without an explanation.
    pub fn bare(alloc: Global, failure: Failure) -> Refusal
        ensures failure { result.failure ≡ failure }
        ensures more { string_bytes result.more ≡ [] }
    {
        Refusal {
            failure,
            more: String::new(alloc),
        }
    }

    /// Explains a failure, if it should be explained and there is memory for it. `known` is its
    /// explanation, if it was already made.
    pub fn explained<F: FileSource>(
        alloc: Global,
        files: &mut F,
        request: Request<'_>,
        source: &ProgramSource,
        failure: Failure,
        known: Option<String>,
    ) -> Refusal
        ensures failure { result.failure ≡ failure }
        ensures more { source.now.more.explains ≡ false → string_bytes result.more ≡ [] }
        ensures keeps { F.held files.new ≡ F.held files.old }
    {
        if !source.more.explains {
            return Refusal::bare(alloc, failure);
        }
        let text = source.text.as_str();
        let more = explanation_of(alloc, files, request, text, &failure, known);
        Refusal {
            failure,
            more: said(alloc, more, source.paint),
        }
    }

    /// Explains why the file of a program gave no text, in these colors, if it should be explained.
    pub fn unread<F: FileSource>(
        alloc: Global,
        files: &mut F,
        file: &str,
        explains: bool,
        paint: Paint,
        failure: Failure,
    ) -> Refusal
        ensures failure { result.failure ≡ failure }
        ensures more { explains ≡ false → string_bytes result.more ≡ [] }
        ensures keeps { F.held files.new ≡ F.held files.old }
    {
        if !explains {
            return Refusal::bare(alloc, failure);
        }
        let more = unread_explanation(alloc, files, file, &failure);
        Refusal {
            failure,
            more: said(alloc, more, paint),
        }
    }

    /// Writes the line and the explanation, as far as they are accepted, and returns the status.
    pub fn tell<E: Write>(&self, err: &mut E) -> u8
        ensures status { result ≡ failure_status self.now.failure }
        ensures told { AppendsBeginning (E.contents err.old) (E.contents err.new)
            ((failure_text self.now.failure ++ codes "\n") ++ string_bytes self.now.more) }
    {
        let status = self.failure.status();
        match emit_message(err, &self.failure) {
            Ok(()) => {
                let _ = append(err, self.more.as_bytes());
                status
            }
            Err(_) => status,
        }
    }
}

/// Returns the explanation of a failure: the known one, if it was already made.
fn explanation_of<F: FileSource>(
    alloc: Global,
    files: &mut F,
    request: Request<'_>,
    text: &str,
    failure: &Failure,
    known: Option<String>,
) -> Result<String, AllocError>
    ensures { F.held files.new ≡ F.held files.old }
{
    match known {
        Some(known) => Ok(known),
        None => explanation(alloc, files, request, text, failure),
    }
}
