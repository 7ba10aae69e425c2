//! `test`: programs, and their expected output.

ghost use Rattle.std.specs.Prelude.{◌≡◌, ◌++◌, ◌∷◌, [], false, map, IfErr, IfOk, OnOk};
ghost use Rattle.std.specs.List.{flat_map};
ghost use Rattle.std.specs.String.{string_bytes};
ghost use Rattle.command_line.specs.Requests.{settings as settings_of};
ghost use Rattle.printing.specs.Appending.{Writes};
ghost use Rattle.test_and_bench.specs.Listing.{listed};
ghost use Rattle.test_and_bench.specs.TestsObject.{ObjectOfTests};
ghost use Rattle.test_and_bench.specs.Trials.{AreResults, AreTested, DoesTest, IsUntested, judged};
ghost use Rattle.test_and_bench.specs.Trials.{results_text};

use crate::counting::{failed_in, passed_in, status_of};
use crate::folders::FolderSource;
use crate::listed::{Listed, programs_of};
use crate::runs::Runs;
use crate::tests_object::tests_object;
use crate::trial::{Tested, Trial};
use command_line::request::RunOptions;
use commands::memory::or_no_memory;
use failures::failure::Failure;
use files::file_source::FileSource;
use json_answers::object_line::ObjectLine;
use printing::emit::append;
use std::alloc::{AllocError, Global};
use std::io::Write;
use std::sync::Wait;
use std::thread::Threads;

/// How programs are tested.
#[derive(Drop)]
pub struct Testing<'t, W> {
    pub alloc: Global,
    /// Runs programs in parallel.
    pub runs: &'t W,
    /// The settings of their runs, apart from the input.
    pub settings: RunOptions<'t>,
    /// Their output is written into their `.out` files.
    pub writes: bool,
}

/// Runs each program of these names, on its own input, and compares its output with its `.out` file,
/// or writes its output there. Writes the lines of each program, and then how many passed and
/// failed. Returns the exit status: 1 if one failed.
pub fn test_names<R: Threads + Wait + Sync, F: FolderSource, O: Write, W: Runs>(
    rt: &R,
    testing: &Testing<'_, W>,
    names: &[String],
    files: &mut F,
    out: &mut O,
) -> Result<u8, Failure>
    ensures { DoesTest (F.named files.old) (F.held files.old) (map string_bytes names.now)
        testing.now.writes (settings_of testing.now.settings) (F.held files.new)
        (O.contents out.old) (O.contents out.new) result }
{
    let tested = results(rt, testing, names, files)?;
    match text_of(testing.alloc, &tested) {
        Ok(text) => write(out, text.as_str(), status_of(&tested)),
        Err(AllocError) => Err(Failure::NoMemory),
    }
}

/// Does what `test_names` does, and returns the object of the results.
pub fn tests_told<R: Threads + Wait + Sync, F: FolderSource, W: Runs>(
    rt: &R,
    testing: &Testing<'_, W>,
    names: &[String],
    files: &mut F,
) -> Result<ObjectLine, Failure>
    ensures object { IfOk result (λ t. ObjectOfTests (F.named files.old) (F.held files.old)
        (map string_bytes names.now) testing.now.writes (settings_of testing.now.settings)
        (F.held files.new) (string_bytes t.line) t.status) }
    ensures why { IfErr result (IsUntested (F.named files.old) (F.held files.old)
        (map string_bytes names.now) testing.now.writes (F.held files.new)) }
    ensures keeps { testing.now.writes ≡ false → F.held files.new ≡ F.held files.old }
{
    let tested = results(rt, testing, names, files)?;
    match tests_object(testing.alloc, &tested) {
        Ok(line) => Ok(ObjectLine {
            line,
            status: status_of(&tested),
        }),
        Err(AllocError) => Err(Failure::NoMemory),
    }
}

/// Returns the results for the programs of these names.
fn results<R: Threads + Wait + Sync, F: FolderSource, W: Runs>(
    rt: &R,
    testing: &Testing<'_, W>,
    names: &[String],
    files: &mut F,
) -> Result<Vec<Tested>, Failure>
    ensures results { IfOk result (λ v. AreResults (F.named files.old) (F.held files.old)
        (map string_bytes names.now) testing.now.writes (settings_of testing.now.settings)
        (F.held files.new) (map judged v.items)) }
    ensures why { IfErr result (IsUntested (F.named files.old) (F.held files.old)
        (map string_bytes names.now) testing.now.writes (F.held files.new)) }
    ensures keeps { testing.now.writes ≡ false → F.held files.new ≡ F.held files.old }
{
    let programs = programs_of(testing.alloc, files, names)?;
    tested(rt, testing, files, &programs)
}

/// Tests these programs, one after the other.
fn tested<R: Threads + Wait + Sync, F: FileSource, W: Runs>(
    rt: &R,
    testing: &Testing<'_, W>,
    files: &mut F,
    programs: &[Listed],
) -> Result<Vec<Tested>, Failure>
    ensures tested { IfOk result (λ v. AreTested testing.now.writes (settings_of testing.now.settings)
        (F.held files.old) (map listed programs.now) (map judged v.items) (F.held files.new)) }
    ensures why { IfErr result (λ f. f ≡ Failure.NoMemory) }
    ensures keeps { testing.now.writes ≡ false → F.held files.new ≡ F.held files.old }
{
    let mut found = Vec::new(testing.alloc);
    for program in programs {
        let trial = Trial {
            program,
            settings: testing.settings,
        };
        let one = trial.tested(rt, testing.alloc, testing.runs, files, testing.writes)?;
        or_no_memory(add(&mut found, one))?;
    }
    Ok(found)
}

/// Adds the result for one more program.
fn add(found: &mut Vec<Tested>, one: Tested) -> Result<(), AllocError>
    ensures { OnOk result (map judged found.new.items
        ≡ map judged found.old.items ++ judged one ∷ []) }
{
    found.push(one)?;
    Ok(())
}

/// Returns the lines of these results, followed by how many passed and failed.
fn text_of(alloc: Global, tested: &[Tested]) -> Result<String, AllocError>
    ensures { IfOk result
        (λ text. string_bytes text ≡ results_text (map judged tested.now)) }
{
    let (passed, failed) = (passed_in(tested), failed_in(tested));
    let mut text = String::new(alloc);
    push_lines(&mut text, tested)?;
    write!(&mut text, "{passed} passed, {failed} failed\n")?;
    Ok(text)
}

/// Adds the lines of these results.
fn push_lines(text: &mut String, tested: &[Tested]) -> Result<(), AllocError>
    ensures { OnOk result (string_bytes text.new
        ≡ string_bytes text.old ++ flat_map (λ j. j.lines) (map judged tested.now)) }
{
    for one in tested {
        text.push_str(one.verdict.lines.as_str())?;
    }
    Ok(())
}

/// Writes the results.
fn write<O: Write>(out: &mut O, text: &str, status: u8) -> Result<u8, Failure>
    ensures text { Writes (O.contents out.old) (O.contents out.new) result text.now }
    ensures status { IfOk result (λ s. s ≡ status) }
    ensures failure { IfErr result (λ f. f ≡ Failure.CannotWriteOutput) }
{
    match append(out, text.as_bytes()) {
        Ok(()) => Ok(status),
        Err(_) => Err(Failure::CannotWriteOutput),
    }
}
