//! Whether a program prints its expected output.

ghost use Rattle.std.specs.Prelude.{◌≡◌, codes, false, true, None, Ok, IfErr, IfOk};
ghost use Rattle.std.specs.Prelude.{MatchOption, option_map};
ghost use Rattle.std.specs.String.{string_bytes};
ghost use Rattle.types.specs.Inputs.{IsInput};
ghost use Rattle.types.specs.Translation.{input as lists_of};
ghost use Rattle.types.specs.Typed.{code_of};
ghost use Rattle.commands.specs.Answers.{HasInput, TellsNotBegun};
ghost use Rattle.commands.specs.Outcomes.{Fits};
ghost use Rattle.files.specs.Held.{BeginsWith, HasText, IsGiven, TellsNoInput, TellsNoText};
ghost use Rattle.test_and_bench.specs.Trials.{HasLine, HasVerdict, IsBegun, IsCompared, IsJudged, IsLimited};
ghost use Rattle.test_and_bench.specs.Trials.{IsLineOfOutput, IsLineOfRefusal, IsMessage};
ghost use Rattle.test_and_bench.specs.Trials.{Fulfils, IsLineOfRun, IsPrinted, IsPrintedSo};
ghost use Rattle.test_and_bench.specs.Trials.{IsRefused, IsRefusedAs};
ghost use Rattle.test_and_bench.specs.Trials.{IsUncompared, LacksOptions, TellsNoOptions};
ghost use Rattle.test_and_bench.specs.Trials.{file as file_of, input_file, judged, settings_of};
ghost use Rattle.test_and_bench.specs.Trials.{trial as trial_of};

use crate::differences::difference;
use crate::listed::Listed;
use crate::outcomes::Case;
use crate::own_options::limits_of;
use crate::runs::Runs;
use crate::trial_lines::message_of;
use command_line::request::{InputSource, RunOptions};
use commands::programs::accepted_of;
use commands::question::Begun;
use failures::failure::Failure;
use files::file_source::{FileSource, read_file, read_program};
use files::input_file::input_of;
use std::alloc::{AllocError, Global};
use std::sync::Wait;
use std::thread::Threads;
use types::input::Input;
use types::typed::Typed;

/// A program, and the settings of its runs, apart from the input.
#[derive(Clone, Copy)]
pub struct Trial<'f> {
    pub program: &'f Listed,
    pub settings: RunOptions<'f>,
}

/// Whether a program passes, and the lines about it.
#[derive(Drop)]
pub struct Verdict {
    pub passes: bool,
    pub lines: String,
}

impl Verdict {
    /// Returns that a program fails with these lines.
    fn failing(lines: String) -> Verdict
        ensures passes { result.passes ≡ false }
        ensures lines { result.lines ≡ lines }
    {
        Verdict {
            passes: false,
            lines,
        }
    }
}

/// A program that was tested, and the result.
#[derive(Drop)]
pub struct Tested {
    /// The name of its file.
    pub file: String,
    pub verdict: Verdict,
}

impl<'f> Trial<'f> {
    /// Tests a program, or with `writes` writes its output, unless it is to be refused.
    pub fn tested<R: Threads + Wait + Sync, F: FileSource, W: Runs>(
        &self,
        rt: &R,
        alloc: Global,
        runs: &W,
        files: &mut F,
        writes: bool,
    ) -> Result<Tested, Failure>
        ensures judged { IfOk result (λ t. IsJudged writes (F.held files.old) (trial_of self.now)
            (F.held files.new) (judged t)) }
        ensures why { IfErr result (λ f. f ≡ Failure.NoMemory) }
        ensures keeps { writes ≡ false → F.held files.new ≡ F.held files.old }
    {
        let file = self.file(alloc, ".afx")?;
        let verdict = self.verdict(rt, alloc, runs, files, writes)?;
        Ok(Tested { file, verdict })
    }

    /// Returns whether a program passes, and the lines about it: it is compared with its expected
    /// output, or with `writes` its output is written, unless it is to be refused.
    fn verdict<R: Threads + Wait + Sync, F: FileSource, W: Runs>(
        &self,
        rt: &R,
        alloc: Global,
        runs: &W,
        files: &mut F,
        writes: bool,
    ) -> Result<Verdict, Failure>
        ensures verdict { IfOk result (λ v. HasVerdict writes (F.held files.old) (trial_of self.now)
            (F.held files.new) v.passes (string_bytes v.lines)) }
        ensures why { IfErr result (λ f. f ≡ Failure.NoMemory) }
        ensures keeps { writes ≡ false → F.held files.new ≡ F.held files.old }
    {
        if writes && !self.program.is_refused {
            return self.printed(rt, alloc, runs, files);
        }
        match self.line(rt, alloc, runs, files)? {
            None => Ok(Verdict {
                passes: true,
                lines: String::new(alloc),
            }),
            Some(lines) => Ok(Verdict::failing(lines)),
        }
    }

    /// Writes the output of a program that is to be run. Returns whether that succeeded, and the
    /// lines about it.
    fn printed<R: Threads + Wait + Sync, F: FileSource, W: Runs>(
        &self,
        rt: &R,
        alloc: Global,
        runs: &W,
        files: &mut F,
    ) -> Result<Verdict, Failure>
        ensures verdict { IfOk result (λ v. IsPrintedSo (F.held files.old) (trial_of self.now)
            (F.held files.new) v.passes (string_bytes v.lines)) }
        ensures why { IfErr result (λ f. f ≡ Failure.NoMemory) }
    {
        match self.limited(alloc, files) {
            Ok(Some(trial)) => trial.printed_so(rt, alloc, runs, files),
            Ok(None) => Ok(Verdict::failing(self.not_understood(alloc)?)),
            Err(failure) => Ok(Verdict::failing(self.failed(alloc, &failure)?)),
        }
    }

    /// Writes its output, run under these settings.
    fn printed_so<R: Threads + Wait + Sync, F: FileSource, W: Runs>(
        &self,
        rt: &R,
        alloc: Global,
        runs: &W,
        files: &mut F,
    ) -> Result<Verdict, Failure>
        ensures verdict { IfOk result (λ v. IsPrinted (F.held files.old) (trial_of self.now)
            (F.held files.new) v.passes (string_bytes v.lines)) }
        ensures why { IfErr result (λ f. f ≡ Failure.NoMemory) }
    {
        match self.written(rt, alloc, runs, files) {
            Ok(written) => Ok(Verdict {
                passes: true,
                lines: self.line_if_written(alloc, written)?,
            }),
            Err(failure) => Ok(Verdict::failing(self.failed(alloc, &failure)?)),
        }
    }

    /// Returns the line of a program that fails, or None if it passes. A program with a `.err` file
    /// is to be refused; any other prints the contents of its `.out` file.
    fn line<R: Threads + Wait + Sync, F: FileSource, W: Runs>(
        &self,
        rt: &R,
        alloc: Global,
        runs: &W,
        files: &mut F,
    ) -> Result<Option<String>, Failure>
        ensures line { IfOk result (HasLine (F.held files.old) (trial_of self.now)) }
        ensures why { IfErr result (λ f. f ≡ Failure.NoMemory) }
        ensures keeps { F.held files.new ≡ F.held files.old }
    {
        if self.program.is_refused {
            self.line_of_refusal(rt, alloc, files)
        } else {
            self.line_of_run(rt, alloc, runs, files)
        }
    }

    /// Returns the lines of a program that is to be refused, or None if it passes.
    fn line_of_refusal<R: Threads + Sync, F: FileSource>(
        &self,
        rt: &R,
        alloc: Global,
        files: &mut F,
    ) -> Result<Option<String>, Failure>
        ensures line { let t = trial_of self.now in IfOk result (λ line.
            MatchOption line (IsRefusedAs (F.held files.old) t None)
            (λ l. IsLineOfRefusal (F.held files.old) t (string_bytes l))) }
        ensures why { IfErr result (λ f. f ≡ Failure.NoMemory) }
        ensures keeps { F.held files.new ≡ F.held files.old }
    {
        let failure = match self.begun(rt, alloc, files) {
            Ok(_) => return Ok(Some(self.not_refused(alloc)?)),
            Err(failure) => failure,
        };
        match self.difference_of_refusal(alloc, files, &failure) {
            Ok(None) => Ok(None),
            Ok(Some(how)) => Ok(Some(self.otherwise(alloc, "refusal", how)?)),
            Err(unread) => Ok(Some(self.failed(alloc, &unread)?)),
        }
    }

    /// Returns how the message of a failure differs from its `.err` file, or None if it doesn't.
    fn difference_of_refusal<F: FileSource>(
        &self,
        alloc: Global,
        files: &mut F,
        failure: &Failure,
    ) -> Result<Option<Vec<u8>>, Failure>
        ensures how { IfOk result (λ how. IsMessage (F.held files.old) (trial_of self.now)
            failure.now (option_map (λ v. v.items) how)) }
        ensures why { IfErr result
            (TellsNoText (F.held files.old) (file_of (trial_of self.now) (codes ".err"))) }
        ensures keeps { F.held files.new ≡ F.held files.old }
    {
        let wanted = self.contents(alloc, files, ".err")?;
        let message = message_of(alloc, failure)?;
        match difference(alloc, message.as_bytes(), &wanted) {
            Ok(how) => Ok(how),
            Err(AllocError) => Err(Failure::NoMemory),
        }
    }

    /// Returns the lines of a program that is to be run, or None if it passes.
    fn line_of_run<R: Threads + Wait + Sync, F: FileSource, W: Runs>(
        &self,
        rt: &R,
        alloc: Global,
        runs: &W,
        files: &mut F,
    ) -> Result<Option<String>, Failure>
        ensures line { let t = trial_of self.now in IfOk result (λ line.
            MatchOption line (Fulfils (F.held files.old) t)
            (λ l. IsLineOfRun (F.held files.old) t (string_bytes l))) }
        ensures why { IfErr result (λ f. f ≡ Failure.NoMemory) }
        ensures keeps { F.held files.new ≡ F.held files.old }
    {
        match self.limited(alloc, files) {
            Ok(Some(trial)) => trial.line_of_output(rt, alloc, runs, files),
            Ok(None) => Ok(Some(self.not_understood(alloc)?)),
            Err(failure) => Ok(Some(self.failed(alloc, &failure)?)),
        }
    }

    /// Returns it as it is run: with the options of its `.args` file, if there is one. Returns None
    /// if these options aren't understood.
    fn limited<F: FileSource>(
        &self,
        alloc: Global,
        files: &mut F,
    ) -> Result<Option<Trial<'f>>, Failure>
        ensures limited { let t = trial_of self.now in IfOk result (λ trial.
            MatchOption trial (LacksOptions (F.held files.old) t)
            (λ u. IsLimited (F.held files.old) t (trial_of u))) }
        ensures why { IfErr result (TellsNoOptions (F.held files.old) (trial_of self.now)) }
        ensures keeps { F.held files.new ≡ F.held files.old }
    {
        if self.program.has_options {
            self.with_options(alloc, files)
        } else {
            Ok(Some(*self))
        }
    }

    /// Returns it with the options of its `.args` file, or None if they aren't understood.
    fn with_options<F: FileSource>(
        &self,
        alloc: Global,
        files: &mut F,
    ) -> Result<Option<Trial<'f>>, Failure>
        requires { (trial_of self.now).program.has_options ≡ true }
        ensures limited { let t = trial_of self.now in IfOk result (λ trial.
            MatchOption trial (LacksOptions (F.held files.old) t)
            (λ u. IsLimited (F.held files.old) t (trial_of u))) }
        ensures why { IfErr result (TellsNoOptions (F.held files.old) (trial_of self.now)) }
        ensures keeps { F.held files.new ≡ F.held files.old }
    {
        let text = self.options_text(alloc, files)?;
        match limits_of(alloc, text.as_str()) {
            Ok(None) => Ok(None),
            Ok(Some(limits)) => Ok(Some(Trial {
                program: self.program,
                settings: RunOptions {
                    budget: limits.budget,
                    spread: limits.spread,
                    ..self.settings
                },
            })),
            Err(AllocError) => Err(Failure::NoMemory),
        }
    }

    /// Returns the text of its `.args` file.
    fn options_text<F: FileSource>(&self, alloc: Global, files: &mut F) -> Result<String, Failure>
        ensures text { IfOk result (λ text. HasText (F.held files.old)
            (file_of (trial_of self.now) (codes ".args")) (string_bytes text)) }
        ensures why { IfErr result
            (TellsNoText (F.held files.old) (file_of (trial_of self.now) (codes ".args"))) }
        ensures keeps { F.held files.new ≡ F.held files.old }
    {
        let name = self.file(alloc, ".args")?;
        text_in(alloc, files, name.as_str())
    }

    /// Returns its lines, run under these settings, or None if it passes.
    fn line_of_output<R: Threads + Wait + Sync, F: FileSource, W: Runs>(
        &self,
        rt: &R,
        alloc: Global,
        runs: &W,
        files: &mut F,
    ) -> Result<Option<String>, Failure>
        ensures line { let t = trial_of self.now in IfOk result (λ line.
            MatchOption line (IsCompared (F.held files.old) t None)
            (λ l. IsLineOfOutput (F.held files.old) t (string_bytes l))) }
        ensures why { IfErr result (λ f. f ≡ Failure.NoMemory) }
        ensures keeps { F.held files.new ≡ F.held files.old }
    {
        match self.difference(rt, alloc, runs, files) {
            Ok(None) => Ok(None),
            Ok(Some(how)) => Ok(Some(self.otherwise(alloc, "output", how)?)),
            Err(failure) => Ok(Some(self.failed(alloc, &failure)?)),
        }
    }

    /// Returns how its output differs from its `.out` file, or None if it doesn't.
    fn difference<R: Threads + Wait + Sync, F: FileSource, W: Runs>(
        &self,
        rt: &R,
        alloc: Global,
        runs: &W,
        files: &mut F,
    ) -> Result<Option<Vec<u8>>, Failure>
        ensures compared { IfOk result (λ how. IsCompared (F.held files.old) (trial_of self.now)
            (option_map (λ v. v.items) how)) }
        ensures why { IfErr result (IsUncompared (F.held files.old) (trial_of self.now)) }
        ensures keeps { F.held files.new ≡ F.held files.old }
    {
        let begun = self.begun(rt, alloc, files)?;
        let wanted = self.contents(alloc, files, ".out")?;
        let case = Case {
            alloc,
            accepted: &begun.accepted,
            input: &begun.input,
            settings: self.settings,
            wanted: &wanted,
        };
        case.difference(rt, runs)
    }

    /// Returns its program, if that has no race, and its input.
    pub fn begun<R: Threads + Sync, F: FileSource>(
        &self,
        rt: &R,
        alloc: Global,
        files: &mut F,
    ) -> Result<Begun, Failure>
        ensures begun { IfOk result (IsBegun (F.held files.old) (trial_of self.now)) }
        ensures fits { IfOk result (λ b. Fits b.accepted.typed b.input) }
        ensures why { IfErr result (IsRefused (F.held files.old) (trial_of self.now)) }
        ensures keeps { F.held files.new ≡ F.held files.old }
    {
        let name = self.file(alloc, ".afx")?;
        let bytes = read_program(alloc, files, name.as_str())?;
        match std::str::from_utf8(&bytes) {
            Ok(text) => self.begun_with(rt, alloc, files, text),
            Err(_) => Err(Failure::not_utf8(alloc, name.as_str())),
        }
    }

    /// Returns the program with this text, if that has no race, and its input.
    fn begun_with<R: Threads + Sync, F: FileSource>(
        &self,
        rt: &R,
        alloc: Global,
        files: &mut F,
        text: &str,
    ) -> Result<Begun, Failure>
        ensures given { IfOk result (λ b. HasInput (settings_of (trial_of self.now)) (F.held files.old)
            text.now (code_of b.accepted.typed) (lists_of b.input)) }
        ensures fits { IfOk result (λ b. Fits b.accepted.typed b.input) }
        ensures why { IfErr result
            (TellsNotBegun (settings_of (trial_of self.now)) (F.held files.old) text.now) }
        ensures keeps { F.held files.new ≡ F.held files.old }
    {
        let accepted = accepted_of(rt, alloc, text)?;
        let input = self.input(alloc, files, accepted.typed())?;
        Ok(Begun { accepted, input })
    }

    /// Returns the initial contents of its arrays: the lists in its `.json` file, if there is one.
    fn input<F: FileSource>(
        &self,
        alloc: Global,
        files: &mut F,
        typed: &Typed,
    ) -> Result<Input, Failure>
        ensures begins { IfOk result (λ i. BeginsWith (input_file (trial_of self.now))
            (F.held files.old) (code_of typed.now).arrays (lists_of i)) }
        ensures fits { IfOk result (λ i. IsInput (code_of typed.now).arrays (lists_of i)) }
        ensures why { IfErr result (TellsNoInput (input_file (trial_of self.now))
            (F.held files.old) (code_of typed.now).arrays) }
        ensures keeps { F.held files.new ≡ F.held files.old }
    {
        if !self.program.has_input {
            return input_of(alloc, files, typed, None);
        }
        let name = self.file(alloc, ".json")?;
        input_of(alloc, files, typed, Some(InputSource::File(name.as_str())))
    }

    /// Returns the contents of its file with this ending.
    fn contents<F: FileSource>(
        &self,
        alloc: Global,
        files: &mut F,
        ending: &str,
    ) -> Result<Vec<u8>, Failure>
        ensures given { IfOk result (λ v. IsGiven
            (F.held files.old (file_of (trial_of self.now) ending.now)) (Ok v.items)) }
        ensures why { IfErr result
            (TellsNoText (F.held files.old) (file_of (trial_of self.now) ending.now)) }
        ensures keeps { F.held files.new ≡ F.held files.old }
    {
        let name = self.file(alloc, ending)?;
        read_file(alloc, files, name.as_str())
    }

    /// Returns the name of its file with this ending.
    pub fn file(&self, alloc: Global, ending: &str) -> Result<String, Failure>
        ensures name { IfOk result
            (λ name. string_bytes name ≡ file_of (trial_of self.now) ending.now) }
        ensures why { IfErr result (λ f. f ≡ Failure.NoMemory) }
    {
        let base = self.program.base.as_str();
        match format!(in alloc; "{base}{ending}") {
            Ok(name) => Ok(name),
            Err(AllocError) => Err(Failure::NoMemory),
        }
    }
}

/// Returns the text of a file.
fn text_in<F: FileSource>(alloc: Global, files: &mut F, name: &str) -> Result<String, Failure>
    ensures text { IfOk result (λ text. HasText (F.held files.old) name.now (string_bytes text)) }
    ensures why { IfErr result (TellsNoText (F.held files.old) name.now) }
    ensures keeps { F.held files.new ≡ F.held files.old }
{
    let bytes = read_file(alloc, files, name)?;
    match String::from_utf8(bytes) {
        Ok(text) => Ok(text),
        Err(_) => Err(Failure::not_utf8(alloc, name)),
    }
}
