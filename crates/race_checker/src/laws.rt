//! Theorems about the definitions, each the contract of a function with an empty body.

ghost use Rattle.std.specs.Prelude.{◌≡◌, ◌↔◌, ℕ, List, true, false};
ghost use Rattle.sections.specs.Placed.{Placed};
ghost use Rattle.types.specs.Code.{Procedure, Program};
ghost use Rattle.types.specs.Typed.{code_of};
ghost use Rattle.types.specs.Value.{Environment};
ghost use Rattle.effects.specs.Effects.{accesses};
ghost use Rattle.effects.specs.Tables.{Table, IsDerived, IsStable, IsDerivedPending, IsStablePending};
ghost use Rattle.effects.specs.Sound.{IsSound, IsSoundIn};
ghost use Rattle.effects.specs.Fits.{names_in};
ghost use Rattle.race_checker.specs.Clash.{HasNoClash, IsAccepted};
ghost use Rattle.race_checker.specs.Acceptance.{has_clash, is_accepted};
ghost use Rattle.race_checker.specs.Scope.{Scope, FitsScope, Lists, IsScoped};
ghost use Rattle.race_checker.specs.Calm.{IsCalm};

use crate::accepted::Accepted;

/// Over tables that are the least solution, a procedure has a clash if and only if one of the
/// listed pairs clashes. Whether a sound program is accepted is computed.
pub fn acceptance_is_decided()
    ensures clash { (p : Program) (alls pendings : Table accesses)
        → IsDerived p accesses alls → IsStable p accesses alls
        → IsDerivedPending p accesses pendings → IsStablePending p accesses alls pendings
        → (g : Procedure) → (has_clash alls pendings g ≡ false) ↔ HasNoClash p g }
    ensures accepted { (p : Program) → IsSound p → (is_accepted p ≡ true) ↔ IsAccepted p }
{}

/// Windows that fit a scope are related as the origins of its names say.
pub fn scopes_stand_as_origins_say()
    ensures { (p : Program) (g : Procedure) → IsSoundIn p g
        → (sc : Scope) (scope : List ℕ) → Lists g sc scope
        → (env : Environment) → FitsScope sc env → Placed (names_in g scope) env.windows }
{}

/// A sound program names only what is in scope.
pub fn sound_programs_are_scoped()
    ensures { (p : Program) → IsSound p → IsScoped p }
{}

/// From names to places: in a sound and accepted program, what a statement leaves pending keeps
/// apart from what a later statement of its list, or a later iteration of its loop, does. In each
/// environment that fits, neither of the two may write a place that the other may read or write.
pub fn accepted_programs_are_calm()
    ensures { (p : Program) → IsSound p → IsAccepted p → IsCalm p }
{}

/// `accepted_programs_are_calm` for a given accepted program.
pub fn accepted_is_calm(accepted: &Accepted)
    ensures { IsCalm (code_of accepted.now.typed) }
{}
