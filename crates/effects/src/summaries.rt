//! What each procedure of a program may do, and what each async needs.

ghost use Rattle.std.specs.Prelude.{◌≡◌, ◌<◌, length, slice_get, Some, IfOk};
ghost use Rattle.types.specs.Typed.{code_of};
ghost use Rattle.types.specs.Code.{Program};
ghost use Rattle.effects.specs.Summarized.{AreSummaries};

use crate::asyncs::needs_of_asyncs;
use crate::needs::Needs;
use crate::summary::Summary;
use crate::tables::table;
use std::alloc::{AllocError, Global};
use std::collections::BTreeMap;
use types::code::Label;
use types::ids::ProcedureId;
use types::laws::typed_programs_are_sound;
use types::typed::Typed;

/// The summary of each procedure, and what each async needs. `summarize` creates it.
#[derive(Drop)]
pub struct Summaries {
    /// The summaries of the procedures in the order of the text, and after them that of `main`.
    procedures: Vec<Summary>,
    /// What the body of each async needs, by the async's label.
    asyncs: BTreeMap<Label, Needs>,
}

/// Returns what each procedure may do and leaves pending, and what each async needs.
pub fn summarize(alloc: Global, typed: &Typed) -> Result<Summaries, AllocError>
    ensures exact { IfOk result (AreSummaries (code_of typed.now)) }
{
    typed_programs_are_sound(typed);
    let procedures = table(alloc, typed.code())?;
    let asyncs = needs_of_asyncs(alloc, typed.code(), &procedures)?;
    Ok(Summaries { procedures, asyncs })
}

impl Summaries {
    ghost use Rattle.effects.specs.Summarized.{summaries_of, body_of, IsSummary};
    ghost use Rattle.std.specs.Prelude.{option_map};
    ghost use Rattle.std.specs.Option.{option_copied};
    ghost use Rattle.effects.specs.AsyncNeeds.{IsNeedAt};
    ghost use Rattle.effects.specs.Translation.{needs as needs_in};

    /// Returns the summary of a procedure; `main` is numbered after the others.
    pub fn of(&self, procedure: ProcedureId) -> &Summary
        requires { procedure.number < length (summaries_of self.now) }
        ensures there { slice_get (summaries_of self.now) procedure.number ≡ Some result.now }
        ensures exact { (p : Program) → AreSummaries p self.now
            → IsSummary p (body_of p procedure.number) result.now }
    {
        &self.procedures[procedure.number]
    }

    /// Returns what the body of an async needs, in the names in scope at the async. Returns `None`
    /// if no async has this label.
    pub fn needs(&self, label: Label) -> Option<&Needs>
        ensures { (p : Program) → AreSummaries p self.now
            → IsNeedAt p label (option_map needs_in (option_copied result)) }
    {
        self.asyncs.get(&label)
    }
}
