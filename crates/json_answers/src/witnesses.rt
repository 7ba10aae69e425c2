//! The witness of a race.

ghost use Rattle.std.specs.Prelude.{◌≡◌, IfOk, option_map};
ghost use Rattle.serde_json.specs.View.{view};
ghost use Rattle.types.specs.Translation.{procedure as procedure_of, program};
ghost use Rattle.race_checker.specs.Translation.{race as race_of};
ghost use Rattle.json_answers.specs.Witnesses.{common_section, first_way, meeting_word, pending_word};
ghost use Rattle.json_answers.specs.Witnesses.{second_way, sharing_json, sharing_word, witness_json};

use crate::found::FoundRace;
use crate::names::{procedure_in, section_name};
use crate::refusals::text_or_null;
use crate::steps::way_value;
use serde_json::{Value, json};
use std::alloc::{AllocError, Global};
use types::code::Procedure;
use witness::crossing::RunsTogether;
use witness::sharing::Sharing;
use witness::step::WayStep;
use witness::witness::Witness;

/// Returns a witness: the paths to the first and to the second access of the race, from where they
/// separate; how they can run together; which of them is left pending; and why the sections share
/// places.
pub(crate) fn witness_value(alloc: Global, found: FoundRace<'_>) -> Result<Value, AllocError>
    ensures { IfOk result (λ v. view v ≡ witness_json found.entry.places.now
        (program found.entry.code.now) (race_of found.entry.race) found.entry.witness.now) }
{
    let FoundRace {
        places,
        code,
        race,
        witness,
        ..
    } = found;
    let (to_first, to_second) = ways_of(witness);
    json!(in alloc; {
        "first": way_value(alloc, places, code, race.procedure, race.first.write, to_first)?,
        "meeting": word_of_meeting(witness.meeting),
        "pending": pending(witness.first_pends),
        "second": way_value(alloc, places, code, race.procedure, race.second.write, to_second)?,
        "sharing": sharing_value(alloc, procedure_in(code, race.procedure), witness.sharing)?,
    })
}

/// Returns the paths to the race's first access and to its second.
fn ways_of(witness: &Witness) -> (&[WayStep], &[WayStep])
    ensures first { result.0.now ≡ first_way witness.now }
    ensures second { result.1.now ≡ second_way witness.now }
{
    if witness.first_pends {
        (&witness.pending, &witness.later)
    } else {
        (&witness.later, &witness.pending)
    }
}

/// Returns how two accesses can run together.
fn word_of_meeting(meeting: RunsTogether) -> &'static str
    ensures { result.now ≡ meeting_word meeting }
{
    match meeting {
        RunsTogether::Follows => "follows",
        RunsTogether::Turns => "turns",
    }
}

/// Returns which of two accesses is left pending.
fn pending(first_pends: bool) -> &'static str
    ensures { result.now ≡ pending_word first_pends }
{
    if first_pends { "first" } else { "second" }
}

/// Returns why two sections of a procedure share places: `{"kind":"of_splits","section":"a"}`.
fn sharing_value(
    alloc: Global,
    procedure: &Procedure,
    sharing: Sharing,
) -> Result<Value, AllocError>
    ensures { IfOk result (λ v. view v ≡ sharing_json (procedure_of procedure.now) sharing) }
{
    json!(in alloc; {
        "kind": word_of_sharing(sharing),
        "section": text_or_null(alloc, common_to(procedure, sharing))?,
    })
}

/// Returns why two sections share places.
fn word_of_sharing(sharing: Sharing) -> &'static str
    ensures { result.now ≡ sharing_word sharing }
{
    match sharing {
        Sharing::Same => "same",
        Sharing::FirstIsPart => "first_is_part",
        Sharing::SecondIsPart => "second_is_part",
        Sharing::OfSplits { .. } => "of_splits",
    }
}

/// Returns the name of the section if both are sides or pieces of it.
fn common_to(procedure: &Procedure, sharing: Sharing) -> Option<&str>
    ensures { option_map (λ name. name.now) result
        ≡ common_section (procedure_of procedure.now) sharing }
{
    match sharing {
        Sharing::OfSplits { section } => Some(section_name(procedure, section)),
        _ => None,
    }
}
