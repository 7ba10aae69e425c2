//! `explore --all N`: the different ends that the runs of a program come to, by trying lists of
//! choices. The program may have a race.

ghost use Rattle.std.specs.Prelude.{◌≡◌, ◌++◌, ◌∷◌, [], IfErr, IfOk, OnOk, map};
ghost use Rattle.std.specs.String.{string_bytes};
ghost use Rattle.serde_json.specs.View.{view};
ghost use Rattle.types.specs.Contents.{FitsArrays};
ghost use Rattle.types.specs.Translation.{array, input as lists_in};
ghost use Rattle.types.specs.Typed.{code_of};
ghost use Rattle.command_line.specs.Requests.{settings as settings_of};
ghost use Rattle.json_answers.specs.AllEnds.{ObjectOfEnds, end_json, end_of, ends_json, further};
ghost use Rattle.json_answers.specs.AllEnds.{is_new_in, line_of_end, noted};
ghost use Rattle.json_answers.specs.Explored.{FailsUnexplored};
ghost use Rattle.json_answers.specs.Pieces.{IsReadBack, line, list_by, natural};
ghost use Rattle.json_answers.specs.Searching.{AreFound, IsSearch, IsSearchWith};

use crate::line::line_of;
use crate::object_line::ObjectLine;
use crate::outcomes::{outcome_object, outcome_value};
use crate::run_outcomes::places_in;
use commands::question::Question;
use failures::failure::Failure;
use files::file_source::FileSource;
use serde_json::{Value, json};
use std::alloc::{AllocError, Global};
use step_trees::standing::{Standing, stand_after};
use syntax::TextPlace;
use types::code::Array;
use types::input::Input;
use types::outcome::Outcome;
use types::typed::Typed;

/// A program, its input, and where its statements start.
#[derive(Clone, Copy)]
pub struct Searched<'s> {
    pub alloc: Global,
    pub typed: &'s Typed,
    pub input: &'s Input,
    pub places: &'s [TextPlace],
}

/// An end of a run.
#[derive(Drop)]
pub struct FoundEnd {
    /// Choices that lead to it.
    pub choices: Vec<u32>,
    pub outcome: Outcome,
    /// The line of its object. Two ends with the same line are one.
    pub line: String,
}

/// The state of a search.
#[derive(Drop)]
pub struct Search {
    /// Lists of choices that are still to be tried. The last one is tried next.
    pub waiting: Vec<Vec<u32>>,
    pub ends: Vec<FoundEnd>,
}

/// What a search has found.
#[derive(Drop)]
pub struct FoundEnds {
    pub ends: Vec<FoundEnd>,
    /// The number of lists of choices that were tried.
    pub tried: u32,
    /// Whether no list is left to be tried. Then these are all ends.
    pub all: bool,
}

/// Returns the object of different ends of a program's runs, by trying at most `most` lists of
/// choices.
pub fn all_ends_told<F: FileSource>(
    alloc: Global,
    question: Question<'_>,
    most: u32,
    files: &mut F,
) -> Result<ObjectLine, Failure>
    ensures object { IfOk result (λ t. ObjectOfEnds most (settings_of question.entry.settings)
        (F.held files.old) question.entry.text.now (string_bytes t.line) t.status) }
    ensures why { IfErr result (FailsUnexplored (settings_of question.entry.settings)
        (F.held files.old) question.entry.text.now) }
    ensures keeps { F.held files.new ≡ F.held files.old }
{
    let given = question.given(alloc, files)?;
    let Ok(places) = places_in(alloc, question.text) else {
        return Err(Failure::NoMemory);
    };
    let searched = Searched {
        alloc,
        typed: &given.typed,
        input: &given.input,
        places: &places,
    };
    let Ok(found) = search_ends(searched, most) else {
        return Err(Failure::NoMemory);
    };
    match ends_object(alloc, &given.typed.code().arrays, &places, &found) {
        Ok(line) => Ok(ObjectLine { line, status: 0 }),
        Err(_) => Err(Failure::NoMemory),
    }
}

// ---- the search

/// Tries at most this number of lists of choices, the deepest first.
fn search_ends(searched: Searched<'_>, most: u32) -> Result<FoundEnds, AllocError>
    requires { FitsArrays (code_of searched.typed.now).arrays (lists_in searched.input.now) }
    ensures { IfOk result (AreFound (code_of searched.entry.typed.now)
        (lists_in searched.entry.input.now) searched.entry.places.now most) }
{
    let mut search = start(searched)?;
    let mut left = most;
    'lists: while let Some(later) = left.checked_sub(1) {
        let Some(choices) = search.waiting.pop() else {
            return Ok(FoundEnds {
                ends: search.ends,
                tried: most - left,
                all: true,
            });
        };
        try_list(searched, &mut search, choices)?;
        left = later;
    }
    let all = search.waiting.is_empty();
    Ok(FoundEnds {
        ends: search.ends,
        tried: most,
        all,
    })
}

/// Returns a search to begin with: only the empty list waits.
fn start(searched: Searched<'_>) -> Result<Search, AllocError>
    ensures { IfOk result (IsSearch (code_of searched.entry.typed.now)
        (lists_in searched.entry.input.now) searched.entry.places.now) }
{
    let mut waiting = Vec::new(searched.alloc);
    waiting.push(Vec::new(searched.alloc))?;
    Ok(Search {
        waiting,
        ends: Vec::new(searched.alloc),
    })
}

/// Tries a list of choices that waited: its run has ended, or the lists with one more choice wait.
fn try_list(
    searched: Searched<'_>,
    search: &mut Search,
    choices: Vec<u32>,
) -> Result<(), AllocError>
    requires fits { FitsArrays (code_of searched.typed.now).arrays (lists_in searched.input.now) }
    requires search { IsSearchWith (code_of searched.typed.now) (lists_in searched.input.now)
        searched.places.now
        (map (λ v. v.items) search.old.waiting.items ++ choices.items ∷ [])
        search.old.ends.items }
    ensures { OnOk result (IsSearch (code_of searched.entry.typed.now)
        (lists_in searched.entry.input.now) searched.entry.places.now search.new) }
{
    let Searched {
        alloc,
        typed,
        input,
        places,
    } = searched;
    let stands = stand_after(alloc, typed, input, &choices)?;
    match stands {
        Standing::Ended(outcome) => {
            let line = outcome_object(alloc, &typed.code().arrays, places, &outcome)?;
            note(
                search,
                FoundEnd {
                    choices,
                    outcome,
                    line,
                },
            )
        }
        Standing::Open(tasks) => match u32::try_from(tasks.len()) {
            Ok(count) => wait_further(alloc, search, &choices, count),
            Err(_) => Err(AllocError),
        },
        Standing::NoSuchChoice(_) => Ok(()),
    }
}

/// Adds an end if its line is new.
fn note(search: &mut Search, end: FoundEnd) -> Result<(), AllocError>
    ensures ends { OnOk result (search.new.ends.items ≡ noted search.old.ends.items end) }
    ensures waiting { OnOk result (search.new.waiting ≡ search.old.waiting) }
{
    if is_new(&search.ends, end.line.as_str()) {
        search.ends.push(end)?;
    }
    Ok(())
}

/// Returns whether no end has this line.
fn is_new(ends: &[FoundEnd], line: &str) -> bool
    ensures { result ≡ is_new_in line.now (map line_of_end ends.now) }
{
    let mut left = ends;
    'ends: while let Some((first, later)) = left.split_first() {
        if first.line.as_str() == line {
            return false;
        }
        left = later;
    }
    true
}

/// Lets this list wait, with each choice below `count` added to it. The smallest is tried next.
fn wait_further(
    alloc: Global,
    search: &mut Search,
    choices: &[u32],
    count: u32,
) -> Result<(), AllocError>
    ensures waiting { OnOk result (map (λ v. v.items) search.new.waiting.items
        ≡ map (λ v. v.items) search.old.waiting.items ++ further choices.now count) }
    ensures ends { OnOk result (search.new.ends ≡ search.old.ends) }
{
    let mut number = count;
    'choices: while let Some(next) = number.checked_sub(1) {
        let mut longer = Vec::from_slice(alloc, choices)?;
        longer.push(next)?;
        search.waiting.push(longer)?;
        number = next;
    }
    Ok(())
}

// ---- the object

/// Returns the object of ends:
/// `{"all":true,"ends":[{"choices":[0,0],"outcome":{..}}],"status":0,"tried":3}`.
fn ends_object(
    alloc: Global,
    declared: &[Array],
    places: &[TextPlace],
    found: &FoundEnds,
) -> Result<String, AllocError>
    ensures text { IfOk result (λ text. string_bytes text ≡ line (ends_json (map array declared.now)
        places.now found.now.all (map end_of found.now.ends.items) found.now.tried)) }
    ensures reads { OnOk result (IsReadBack (ends_json (map array declared.now)
        places.now found.now.all (map end_of found.now.ends.items) found.now.tried)) }
{
    let value = ends_value(alloc, declared, places, found)?;
    line_of(alloc, &value)
}

/// Returns the value of ends.
fn ends_value(
    alloc: Global,
    declared: &[Array],
    places: &[TextPlace],
    found: &FoundEnds,
) -> Result<Value, AllocError>
    ensures { IfOk result (λ v. view v ≡ ends_json (map array declared.now)
        places.now found.now.all (map end_of found.now.ends.items) found.now.tried) }
{
    json!(in alloc; {
        "all": found.all,
        "ends": list_value(alloc, declared, places, &found.ends)?,
        "status": 0u8,
        "tried": found.tried,
    })
}

/// Returns the list of ends.
fn list_value(
    alloc: Global,
    declared: &[Array],
    places: &[TextPlace],
    ends: &[FoundEnd],
) -> Result<Value, AllocError>
    ensures { IfOk result (λ v. view v
        ≡ list_by (end_json (map array declared.now) places.now) (map end_of ends.now)) }
{
    let mut list = Vec::with_capacity(alloc, ends.len())?;
    for end in ends {
        list.push(end_value(alloc, declared, places, end)?)?;
    }
    Ok(Value::Array(list))
}

/// Returns the value of an end.
fn end_value(
    alloc: Global,
    declared: &[Array],
    places: &[TextPlace],
    end: &FoundEnd,
) -> Result<Value, AllocError>
    ensures { IfOk result
        (λ v. view v ≡ end_json (map array declared.now) places.now (end_of end.now)) }
{
    json!(in alloc; {
        "choices": choices_value(alloc, &end.choices)?,
        "outcome": outcome_value(alloc, declared, places, &end.outcome)?,
    })
}

/// Returns `[0,0,1]`.
fn choices_value(alloc: Global, choices: &[u32]) -> Result<Value, AllocError>
    ensures { IfOk result (λ v. view v ≡ list_by natural choices.now) }
{
    let mut list = Vec::with_capacity(alloc, choices.len())?;
    for choice in choices {
        list.push(Value::from(*choice))?;
    }
    Ok(Value::Array(list))
}
