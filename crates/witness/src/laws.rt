//! Theorems about the definitions. Each is the contract of a function that does nothing.

ghost use Rattle.std.specs.Prelude.{◌≡◌, ◌≤◌, ◌↔◌, ℕ, List, false, length, true};
ghost use Rattle.effects.specs.Accesses.{Access};
ghost use Rattle.effects.specs.Effects.{accesses, All, Pending};
ghost use Rattle.effects.specs.Sound.{IsSound};
ghost use Rattle.sections.specs.Origins.{IsNumbered, Origin};
ghost use Rattle.sections.specs.Overlap.{overlap};
ghost use Rattle.sections.specs.declared.id.SectionId.{SectionId as TheSectionId};
ghost use Rattle.types.specs.Code.{Codes, Program};
ghost use Rattle.race_checker.specs.Races.{IsRace, Race};
ghost use Rattle.parallel_relation.specs.Together.{Together};
ghost use Rattle.witness.specs.Ways.{Way};
ghost use Rattle.witness.specs.Meets.{Meets};
ghost use Rattle.witness.specs.declared.crossing.RunsTogether.{RunsTogether};
ghost use Rattle.witness.specs.Sharing.{IsNearest, LiesIn, Shares};
ghost use Rattle.witness.specs.declared.sharing.Sharing.{Sharing as TheSharing};
ghost use Rattle.witness.specs.declared.sharing.Sharing.TheVariants.{OfSplits};
ghost use Rattle.witness.specs.Witness.{IsShortest, IsShown, Shows};
ghost use Rattle.witness.specs.declared.step.WayStep.{WayStep};
ghost use Rattle.witness.specs.declared.witness.Witness.{Witness as TheWitness};

/// States that a way leads to what the statements may do, or leave pending, and to nothing else.
pub fn ways_lead_to_what_is_done()
    ensures done { (p : Program) (b : Codes) (way : List WayStep) (x : Access)
        → Way p false b way x → All p accesses b x }
    ensures pending { (p : Program) (b : Codes) (way : List WayStep) (x : Access)
        → Way p true b way x → Pending p accesses b x }
{}

/// States that two ways that meet show each race of a sound program. If two ways meet, the accesses
/// that they lead to may run together.
pub fn races_are_shown()
    ensures shown { (p : Program) → IsSound p → (r : Race) → IsRace p r → IsShown p r }
    ensures together { (p : Program) (b : Codes) (kind : RunsTogether) (one other : List WayStep)
        (x y : Access) → Meets p b kind one other x y → Together p accesses b x y }
{}

/// States that if two ways show a race with the fewest steps, each of them is a shortest way. No
/// way that shows the race together with the second has fewer steps than the first, and none
/// together with the first has fewer than the second.
pub fn each_way_is_shortest()
    ensures pending { (p : Program) (r : Race) (w : TheWitness) (way : List WayStep) → IsShortest p r w
        → Shows p r w.first_pends w.meeting way w.later.items
        → length w.pending.items ≤ length way }
    ensures later { (p : Program) (r : Race) (w : TheWitness) (way : List WayStep) → IsShortest p r w
        → Shows p r w.first_pends w.meeting w.pending.items way
        → length w.later.items ≤ length way }
{}

/// States that two sections share places for one of the reasons exactly if they overlap. They lie in
/// sides or pieces of a third exactly if, too, neither is a part of the other. The third is then the
/// nearest section of which both are parts.
pub fn reasons_to_share_places()
    ensures shared { (origins : List Origin) → IsNumbered origins → (a b : ℕ)
        → ((why : TheSharing) × Shares origins a b why) ↔ (overlap origins a b ≡ true) }
    ensures of_splits { (origins : List Origin) → IsNumbered origins → (a b : ℕ)
        → ((s : TheSectionId) × Shares origins a b (OfSplits s))
        ↔ ((overlap origins a b ≡ true) × (LiesIn origins a b → ⊥) × (LiesIn origins b a → ⊥)) }
    ensures nearest { (origins : List Origin) → IsNumbered origins → (a b : ℕ) (s : TheSectionId)
        → Shares origins a b (OfSplits s) → IsNearest origins a b s.number }
{}
