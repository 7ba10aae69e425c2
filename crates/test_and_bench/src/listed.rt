//! The programs that the arguments of `test` name: a program, or all programs of a folder.

ghost use Rattle.std.specs.Prelude.{◌≡◌, ◌∷◌, [], ◌++◌, map, IfErr, IfOk, OnOk};
ghost use Rattle.std.specs.String.{string_bytes};
ghost use Rattle.test_and_bench.specs.Folders.{TellsNoFolder};
ghost use Rattle.test_and_bench.specs.Listing.{AddsFolder, AddsNamed, AddsProgram, AreAllNamed, IsIn, listed};
ghost use Rattle.test_and_bench.specs.Listing.{TellsUnlisted, TellsUnlistedName, TellsUnlistedProgram};
ghost use Rattle.test_and_bench.specs.Listing.{has_name as has_name_of, listed_in as listed_of, of_folder};

use crate::folders::{FolderSource, read_folder};
use crate::stems::{has_name, stems_in};
use failures::failure::Failure;
use std::alloc::{AllocError, Global};

/// A program to be tested, and which files there are for it.
#[derive(Drop)]
pub struct Listed {
    /// What comes before the endings of its files' names: `tests/sum` of `tests/sum.afx`.
    pub base: String,
    /// What it is called in lines, before `.afx`.
    pub shown: String,
    /// There is an `.err` file: it is to be refused.
    pub is_refused: bool,
    /// There is a `.json` file: its input.
    pub has_input: bool,
    /// There is an `.args` file: its options.
    pub has_options: bool,
}

/// Returns the programs of these names, in their order: a name that ends with `.afx` is a program,
/// and any other a folder, whose programs are sorted.
pub fn programs_of<F: FolderSource>(
    alloc: Global,
    files: &mut F,
    names: &[String],
) -> Result<Vec<Listed>, Failure>
    ensures all { IfOk result (λ ps. AreAllNamed (F.named files.old)
        (map string_bytes names.now) (map listed ps.items)) }
    ensures why { IfErr result (TellsUnlisted (F.named files.old) (map string_bytes names.now)) }
    ensures keeps { F.held files.new ≡ F.held files.old }
{
    let mut programs = Vec::new(alloc);
    for name in names {
        push_named(alloc, files, name.as_str(), &mut programs)?;
    }
    Ok(programs)
}

/// Adds the programs of a name.
fn push_named<F: FolderSource>(
    alloc: Global,
    files: &mut F,
    name: &str,
    programs: &mut Vec<Listed>,
) -> Result<(), Failure>
    ensures added { OnOk result (AddsNamed (F.named files.old) name.now
        (map listed programs.old.items) (map listed programs.new.items)) }
    ensures why { IfErr result (TellsUnlistedName (F.named files.old) name.now) }
    ensures keeps { F.held files.new ≡ F.held files.old }
    ensures stays { F.named files.new ≡ F.named files.old }
{
    match name.strip_suffix(".afx") {
        Some(base) => push_program(alloc, files, base, programs),
        None => push_folder(alloc, files, name, programs),
    }
}

/// Adds the program whose file has this name, without its ending.
fn push_program<F: FolderSource>(
    alloc: Global,
    files: &mut F,
    base: &str,
    programs: &mut Vec<Listed>,
) -> Result<(), Failure>
    ensures added { OnOk result (AddsProgram (F.named files.old) base.now
        (map listed programs.old.items) (map listed programs.new.items)) }
    ensures why { IfErr result (TellsUnlistedProgram (F.named files.old) base.now) }
    ensures keeps { F.held files.new ≡ F.held files.old }
    ensures stays { F.named files.new ≡ F.named files.old }
{
    let (folder, stem) = folder_and_stem(base);
    let names = read_folder(alloc, files, folder)?;
    match push_one(alloc, &names, stem, base, programs) {
        Ok(()) => Ok(()),
        Err(AllocError) => Err(Failure::NoMemory),
    }
}

/// Returns the folder of a file, and its name there. A name without a folder is one of the working
/// folder.
fn folder_and_stem(base: &str) -> (&str, &str)
    ensures { IsIn base.now result.0.now result.1.now }
{
    match base.rsplit_once('/') {
        Some((folder, stem)) => {
            if folder.is_empty() {
                ("/", stem)
            } else {
                (folder, stem)
            }
        }
        None => (".", base),
    }
}

/// Adds the program of a folder with these entries, by its name there and its whole name.
fn push_one(
    alloc: Global,
    names: &[String],
    stem: &str,
    base: &str,
    programs: &mut Vec<Listed>,
) -> Result<(), AllocError>
    ensures { OnOk result (map listed programs.new.items ≡ map listed programs.old.items
        ++ listed_of (map string_bytes names.now) stem.now base.now base.now ∷ []) }
{
    let shown = String::from_str(alloc, base)?;
    let base = String::from_str(alloc, base)?;
    programs.push(listed_in(alloc, names, stem, base, shown)?)?;
    Ok(())
}

/// Adds the programs of a folder.
fn push_folder<F: FolderSource>(
    alloc: Global,
    files: &mut F,
    folder: &str,
    programs: &mut Vec<Listed>,
) -> Result<(), Failure>
    ensures added { OnOk result (AddsFolder (F.named files.old) folder.now
        (map listed programs.old.items) (map listed programs.new.items)) }
    ensures why { IfErr result (TellsNoFolder (F.named files.old) folder.now) }
    ensures keeps { F.held files.new ≡ F.held files.old }
    ensures stays { F.named files.new ≡ F.named files.old }
{
    let names = read_folder(alloc, files, folder)?;
    let stems = stems_in(alloc, &names)?;
    match push_all(alloc, &names, &stems, folder, programs) {
        Ok(()) => Ok(()),
        Err(AllocError) => Err(Failure::NoMemory),
    }
}

/// Adds these programs of a folder with these entries.
fn push_all(
    alloc: Global,
    names: &[String],
    stems: &[String],
    folder: &str,
    programs: &mut Vec<Listed>,
) -> Result<(), AllocError>
    ensures { OnOk result (map listed programs.new.items ≡ map listed programs.old.items
        ++ map (of_folder folder.now (map string_bytes names.now)) (map string_bytes stems.now)) }
{
    for stem in stems {
        let stem = stem.as_str();
        let base = format!(in alloc; "{folder}/{stem}")?;
        let shown = String::from_str(alloc, stem)?;
        programs.push(listed_in(alloc, names, stem, base, shown)?)?;
    }
    Ok(())
}

/// Returns the program of a folder with these entries.
fn listed_in(
    alloc: Global,
    names: &[String],
    stem: &str,
    base: String,
    shown: String,
) -> Result<Listed, AllocError>
    ensures { IfOk result (λ l. listed l ≡ listed_of (map string_bytes names.now) stem.now
        (string_bytes base) (string_bytes shown)) }
{
    let is_refused = has(alloc, names, stem, ".err")?;
    let has_input = has(alloc, names, stem, ".json")?;
    let has_options = has(alloc, names, stem, ".args")?;
    Ok(Listed {
        base,
        shown,
        is_refused,
        has_input,
        has_options,
    })
}

/// Returns whether a program has a file with this ending, among these entries of its folder.
fn has(alloc: Global, names: &[String], stem: &str, ending: &str) -> Result<bool, AllocError>
    ensures { IfOk result
        (λ has. has ≡ has_name_of (map string_bytes names.now) (stem.now ++ ending.now)) }
{
    let name = format!(in alloc; "{stem}{ending}")?;
    Ok(has_name(names, name.as_str()))
}
