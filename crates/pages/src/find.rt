//! Finding pages by their words.

ghost use Rattle.std.specs.Prelude.{◌≡◌, ◌++◌, IfOk, OnOk, find, option_map};
ghost use Rattle.std.specs.List.{flat_map};
ghost use Rattle.std.specs.String.{string_bytes};
ghost use Rattle.pages.specs.Pages.{answers_to, head_text, spaced_name};

use crate::page::{Page, push_all};
use crate::{faults, files, idioms, inputs, races, rules, runs, tasks, texts, traces, words};
use std::alloc::{AllocError, Global};

/// Returns all pages, topic by topic. (Each topic is a call, because the prover's time for
/// constants in one body grows with the square of their length.)
pub fn tables() -> [&'static [Page]; 11] {
    [
        texts::pages(),
        rules::pages(),
        races::pages(),
        inputs::pages(),
        faults::pages(),
        runs::pages(),
        files::pages(),
        traces::pages(),
        words::pages(),
        idioms::pages(),
        tasks::pages(),
    ]
}

/// Returns the first page that has a word, or None if no page has it.
pub fn page_of(tables: &[&'static [Page]], word: &str) -> Option<&'static Page>
    ensures { option_map (λ page. page.now) result
        ≡ find (λ page. answers_to page word.now) (flat_map (λ table. table.now) tables.now) }
{
    match tables {
        [] => None,
        [table, others @ ..] => match page_in(*table, word) {
            Some(page) => Some(page),
            None => page_of(others, word),
        },
    }
}

/// Returns the first page of a table that has a word.
fn page_in(table: &'static [Page], word: &str) -> Option<&'static Page>
    ensures { option_map (λ page. page.now) result
        ≡ find (λ page. answers_to page word.now) table.now }
{
    table.iter().find(|page| page.answers_to(word))
}

/// Returns the page for a line that may be copied from the program's output, such as `C1 race in
/// main: ..`, `fault 0 at 2: F4` or `race.afx: C1 race in main: ..`. Codes can be in lower case.
pub fn page_about(
    alloc: Global,
    tables: &[&'static [Page]],
    line: &str,
) -> Result<Option<&'static Page>, AllocError> {
    let line = line.trim();
    if let Some(page) = page_of_line(tables, line) {
        return Ok(Some(page));
    }
    let capitals = line.to_ascii_uppercase(alloc)?;
    Ok(page_of_line(tables, capitals.as_str()))
}

/// Returns the page of the word at the start of a line, or else at the start of what follows its
/// first colon.
fn page_of_line(tables: &[&'static [Page]], line: &str) -> Option<&'static Page> {
    if let Some(page) = page_begun(tables, line) {
        return Some(page);
    }
    match line.split_once(": ") {
        Some((_, behind)) => page_begun(tables, behind),
        None => None,
    }
}

/// Returns the page whose word is the whole line, or else the first page with a word at the start
/// of the line.
fn page_begun(tables: &[&'static [Page]], line: &str) -> Option<&'static Page> {
    if let Some(page) = page_of(tables, line) {
        return Some(page);
    }
    for table in tables {
        for page in *table {
            if page.is_begun(line) {
                return Some(page);
            }
        }
    }
    None
}

/// Returns the list of pages: what each is about, one per line.
pub fn contents(alloc: Global, tables: &[&[Page]]) -> Result<String, AllocError>
    ensures { IfOk result (λ text. string_bytes text
        ≡ flat_map (λ table. flat_map head_text table.now) tables.now) }
{
    let mut text = String::new(alloc);
    for table in tables {
        push_heads(&mut text, *table)?;
    }
    Ok(text)
}

/// Adds what each page of a table is about.
fn push_heads(text: &mut String, table: &[Page]) -> Result<(), AllocError>
    ensures { OnOk result (string_bytes text.new
        ≡ string_bytes text.old ++ flat_map head_text table.now) }
{
    for page in table {
        page.push_head(text)?;
    }
    Ok(())
}

/// Adds the names of pages, with a space before each.
pub fn push_names(text: &mut String, tables: &[&[Page]]) -> Result<(), AllocError>
    ensures { OnOk result (string_bytes text.new ≡ string_bytes text.old
        ++ flat_map (λ table. flat_map spaced_name table.now) tables.now) }
{
    for table in tables {
        push_names_of(text, *table)?;
    }
    Ok(())
}

/// Adds the names of a table's pages, with a space before each.
fn push_names_of(text: &mut String, table: &[Page]) -> Result<(), AllocError>
    ensures { OnOk result (string_bytes text.new
        ≡ string_bytes text.old ++ flat_map spaced_name table.now) }
{
    for page in table {
        push_all(text, &[" ", page.name])?;
    }
    Ok(())
}

/// The maximum number of bytes in a line of names.
const WIDTH: usize = 100;

/// Adds the names of pages in lines.
pub fn push_name_lines(text: &mut String, tables: &[&[Page]]) -> Result<(), AllocError> {
    let mut width = WIDTH;
    for table in tables {
        for page in *table {
            width = push_name(text, width, page.name)?;
        }
    }
    text.push('\n')
}

/// Adds a name to a line with this many bytes, or on the next line if the name doesn't fit. Returns
/// the length of the line that has the name.
fn push_name(text: &mut String, width: usize, name: &str) -> Result<usize, AllocError> {
    let longer = width.saturating_add(1).saturating_add(name.len());
    if longer <= WIDTH {
        push_all(text, &[" ", name])?;
        return Ok(longer);
    }
    push_all(text, &["\n", name])?;
    Ok(name.len())
}
