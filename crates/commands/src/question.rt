//! The text and the settings of a command, with the program of that text and the initial contents
//! of its arrays.

ghost use Rattle.std.specs.Prelude.{◌≡◌, IfErr, IfOk};
ghost use Rattle.types.specs.Translation.{input as lists_in};
ghost use Rattle.std.specs.Str.{chars};
ghost use Rattle.syntax.specs.Lexical.{AreTokensOf};
ghost use Rattle.syntax.specs.Spelling.{spelling};
ghost use Rattle.types.specs.Typed.{code_of, program_of};
ghost use Rattle.command_line.specs.Requests.{settings as settings_of};
ghost use Rattle.commands.specs.Answers.{HasInput, TellsNotBegun, TellsNotGiven};
ghost use Rattle.commands.specs.Outcomes.{Fits};

use crate::programs::{accepted_of, typed_of};
use command_line::request::RunOptions;
use failures::failure::Failure;
use files::file_source::FileSource;
use files::input_file::input_of;
use race_checker::accepted::Accepted;
use std::alloc::Global;
use std::thread::Threads;
use types::input::Input;
use types::typed::Typed;

/// The text of a program, and the settings of its run.
#[derive(Clone, Copy)]
pub struct Question<'q> {
    pub text: &'q str,
    pub settings: RunOptions<'q>,
}

/// A program that breaks no rule, and its input.
#[derive(Drop)]
pub struct ProgramAndInput {
    pub typed: Typed,
    pub input: Input,
}

/// A program without a race, and its input.
#[derive(Drop)]
pub struct Begun {
    pub accepted: Accepted,
    pub input: Input,
}

impl Question<'_> {
    /// Returns the program of the text, and the input that was given.
    pub fn given<F: FileSource>(
        self,
        alloc: Global,
        files: &mut F,
    ) -> Result<ProgramAndInput, Failure>
        ensures given { IfOk result (λ g. HasInput (settings_of self.entry.settings) (F.held files.old)
            self.entry.text.now (code_of g.typed) (lists_in g.input)) }
        ensures spelled { IfOk result (λ g. AreTokensOf (chars self.entry.text.now)
            (spelling (program_of g.typed))) }
        ensures fits { IfOk result (λ g. Fits g.typed g.input) }
        ensures why { IfErr result
            (TellsNotGiven (settings_of self.entry.settings) (F.held files.old) self.entry.text.now) }
        ensures keeps { F.held files.new ≡ F.held files.old }
    {
        let typed = typed_of(alloc, self.text)?;
        let input = input_of(alloc, files, &typed, self.settings.input)?;
        Ok(ProgramAndInput { typed, input })
    }

    /// Returns the program of the text, if it has no race, and the input that was given.
    pub fn begun<R: Threads + Sync, F: FileSource>(
        self,
        rt: &R,
        alloc: Global,
        files: &mut F,
    ) -> Result<Begun, Failure>
        ensures given { IfOk result (λ g. HasInput (settings_of self.entry.settings) (F.held files.old)
            self.entry.text.now (code_of g.accepted.typed) (lists_in g.input)) }
        ensures fits { IfOk result (λ g. Fits g.accepted.typed g.input) }
        ensures why { IfErr result
            (TellsNotBegun (settings_of self.entry.settings) (F.held files.old) self.entry.text.now) }
        ensures keeps { F.held files.new ≡ F.held files.old }
    {
        let accepted = accepted_of(rt, alloc, self.text)?;
        let input = input_of(alloc, files, accepted.typed(), self.settings.input)?;
        Ok(Begun { accepted, input })
    }
}
