//! A status, with what follows the answer that was written.

ghost use Rattle.std.specs.Prelude.{◌≡◌, [], false};
ghost use Rattle.std.specs.String.{string_bytes};
ghost use Rattle.driver.specs.More.{may_follow};
ghost use Rattle.printing.specs.Appending.{AppendsBeginning};

use crate::said::said;
use crate::source::ProgramSource;
use command_line::request::{Action, Request};
use commands::explaining::run_explanation;
use commands::question::Question;
use commands::warning::warnings_about;
use files::file_source::FileSource;
use printing::emit::append;
use std::alloc::{AllocError, Global};
use std::io::Write;

/// The status of an answer that was written, and what follows it on the standard error.
#[derive(Drop)]
pub struct Answered {
    pub status: u8,
    pub more: String,
}

impl Answered {
    /// Explains a run that ended with faults or was stopped, or warns about an accepted program, if
    /// this should follow and there is memory for it.
    pub fn explained<F: FileSource>(
        alloc: Global,
        files: &mut F,
        request: Request<'_>,
        source: &ProgramSource,
        status: u8,
    ) -> Answered
        ensures status { result.status ≡ status }
        ensures bare { may_follow source.now.more status ≡ false → string_bytes result.more ≡ [] }
        ensures keeps { F.held files.new ≡ F.held files.old }
    {
        if !source.more.may_follow(status) {
            return Answered {
                status,
                more: String::new(alloc),
            };
        }
        let more = follow_up(alloc, files, request, source.text.as_str(), status);
        Answered {
            status,
            more: said(alloc, more, source.paint),
        }
    }

    /// Writes what follows the answer, as far as it is accepted, and returns the status.
    pub fn follow<E: Write>(&self, err: &mut E) -> u8
        ensures status { result ≡ self.now.status }
        ensures told { AppendsBeginning (E.contents err.old) (E.contents err.new)
            (string_bytes self.now.more) }
    {
        let _ = append(err, self.more.as_bytes());
        self.status
    }
}

/// Returns the explanation of an outcome, or the warnings about an accepted program.
fn follow_up<F: FileSource>(
    alloc: Global,
    files: &mut F,
    request: Request<'_>,
    text: &str,
    status: u8,
) -> Result<String, AllocError>
    ensures { F.held files.new ≡ F.held files.old }
{
    let Action::Answer(command) = request.action else {
        return Ok(String::new(alloc));
    };
    let question = Question {
        text,
        settings: request.settings,
    };
    if status == 0 {
        warnings_about(alloc, request.file, text)
    } else {
        run_explanation(alloc, files, request.file, command, question, status)
    }
}
