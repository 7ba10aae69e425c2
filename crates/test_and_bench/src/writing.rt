//! `test --write`: the output of a program, written into its `.out` file.

ghost use Rattle.std.specs.Prelude.{◌≡◌, IfErr, IfOk, MatchBool, Ok};
ghost use Rattle.types.specs.Translation.{budget as budget_of, input as lists_of};
ghost use Rattle.types.specs.Typed.{code_of};
ghost use Rattle.command_line.specs.Requests.{settings as settings_in};
ghost use Rattle.commands.specs.Outcomes.{Fits};
ghost use Rattle.files.specs.Held.{IsGiven};
ghost use Rattle.test_and_bench.specs.Runs.{TellsNoRun};
ghost use Rattle.test_and_bench.specs.Trials.{Differs, IsUnwritten, IsWritten, told_by, trial as trial_of};

use crate::outcomes::Case;
use crate::runs::Runs;
use crate::trial::Trial;
use commands::question::Begun;
use failures::failure::Failure;
use files::file_source::{FileError, FileSource, write_file};
use std::alloc::Global;
use std::sync::Wait;
use std::thread::Threads;

impl Trial<'_> {
    /// Writes what the program prints into its `.out` file, and returns true; or returns false if
    /// the file has these bytes.
    pub fn written<R: Threads + Wait + Sync, F: FileSource, W: Runs>(
        &self,
        rt: &R,
        alloc: Global,
        runs: &W,
        files: &mut F,
    ) -> Result<bool, Failure>
        ensures written { IfOk result
            (IsWritten (F.held files.old) (trial_of self.now) (F.held files.new)) }
        ensures why { IfErr result
            (IsUnwritten (F.held files.old) (trial_of self.now) (F.held files.new)) }
    {
        let begun = self.begun(rt, alloc, files)?;
        let told = self.told(rt, alloc, runs, &begun)?;
        let name = self.file(alloc, ".out")?;
        let has = has_bytes(files, name.as_str(), &told)?;
        if has {
            return Ok(false);
        }
        write_file(alloc, files, name.as_str(), &told)?;
        Ok(true)
    }

    /// Returns what the program prints, after it was run in all ways.
    fn told<R: Threads + Wait + Sync, W: Runs>(
        &self,
        rt: &R,
        alloc: Global,
        runs: &W,
        begun: &Begun,
    ) -> Result<Vec<u8>, Failure>
        requires { Fits begun.now.accepted.typed begun.now.input }
        ensures told { IfOk result (λ v. v.items ≡ told_by (budget_of self.now.settings.budget)
            (code_of begun.now.accepted.typed) (lists_of begun.now.input)) }
        ensures why { IfErr result (TellsNoRun (settings_in self.now.settings)) }
    {
        let case = Case {
            alloc,
            accepted: &begun.accepted,
            input: &begun.input,
            settings: self.settings,
            wanted: &[],
        };
        case.told(rt, runs)
    }
}

/// Returns whether the file with this name has these bytes.
fn has_bytes<F: FileSource>(files: &mut F, name: &str, told: &[u8]) -> Result<bool, Failure>
    ensures has { IfOk result (λ has. MatchBool has
        (IsGiven (F.held files.old name.now) (Ok told.now))
        (Differs (F.held files.old name.now) told.now)) }
    ensures why { IfErr result (λ f. f ≡ Failure.NoMemory) }
    ensures keeps { F.held files.new ≡ F.held files.old }
{
    match files.read(name) {
        Ok(bytes) => Ok(bytes.as_slice() == told),
        Err(FileError::Failed) => Ok(false),
        Err(FileError::NoMemory) => Err(Failure::NoMemory),
    }
}
