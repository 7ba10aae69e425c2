//! The needs of a program's asyncs.

ghost use Rattle.std.specs.Prelude.{◌≡◌, ℕ, map};
ghost use Rattle.sections.specs.Translation.{section};
ghost use Rattle.types.specs.Code.{Async, Codes};
ghost use Rattle.types.specs.Translation.{codes as codes_of};
ghost use Rattle.types.specs.Typed.{code_of};
ghost use Rattle.effects.specs.Rounds.{needs_of};
ghost use Rattle.effects.specs.Statements.{HasStatement};
ghost use Rattle.effects.specs.Translation.{needs as needs_in};

use effects::needs::Needs as AsyncNeeds;
use race_checker::accepted::Accepted;
use sections::id::SectionId;
use types::code::{Label, Stmt};

/// Provides the sections that the body of an async may write, and the others that it may read.
pub trait Needed {
    ghost use Rattle.effects.specs.Needs.{Needs};

    /// What each body needs.
    ghost needs: { Self → Codes → Needs };

    /// The async with this label has this body.
    ghost IsAsync: { Self → ℕ → Codes → Type 0 };

    /// Returns the sections that the async's body may write.
    fn writes(&self, label: Label, body: &[Stmt]) -> &[SectionId]
        requires { IsAsync self.now label (codes_of body.now) }
        ensures { map section result.now ≡ (needs self.now (codes_of body.now)).writes };

    /// Returns the other sections that it may read.
    fn reads(&self, label: Label, body: &[Stmt]) -> &[SectionId]
        requires { IsAsync self.now label (codes_of body.now) }
        ensures { map section result.now ≡ (needs self.now (codes_of body.now)).reads };
}

/// An accepted program knows what each of its asyncs needs.
impl Needed for Accepted {
    ghost needs = { λ a. needs_of (code_of a.typed) };

    ghost IsAsync = { λ a label body. HasStatement (code_of a.typed) label (Async body) };

    fn writes(&self, label: Label, body: &[Stmt]) -> &[SectionId] {
        &needs_at(self, label, body).writes
    }

    fn reads(&self, label: Label, body: &[Stmt]) -> &[SectionId] {
        &needs_at(self, label, body).reads
    }
}

/// Returns the needs of the async with this label. Only the contract needs its body.
fn needs_at<'a>(accepted: &'a Accepted, label: Label, _body: &[Stmt]) -> &'a AsyncNeeds
    requires { HasStatement (code_of accepted.now.typed) label (Async (codes_of _body.now)) }
    ensures { needs_in result.now ≡ needs_of (code_of accepted.now.typed) (codes_of _body.now) }
{
    match accepted.summaries().needs(label) {
        Some(needs) => needs,
        None => unreachable!(),
    }
}
