//! Theorems about the definitions, each the contract of a function with an empty body.

ghost use Rattle.std.specs.Prelude.{◌↔◌, ℕ};
ghost use Rattle.types.specs.Code.{Codes, Program};
ghost use Rattle.effects.specs.Accesses.{Access};
ghost use Rattle.effects.specs.Effects.{accesses, labels};
ghost use Rattle.parallel_relation.specs.Together.{AddedAt, Together, MayMeet, LabelsMeet};
ghost use Rattle.parallel_relation.specs.Meetings.{ListsAreExact};

/// Over tables that are the least solution, the listed pairs are those that may run together.
pub fn listed_meetings_are_exact()
    ensures accesses { (p : Program) → ListsAreExact p accesses }
    ensures labels { (p : Program) → ListsAreExact p labels }
{}

/// If one of two may meet the other, the other may meet the one.
pub fn pairs_have_no_order()
    ensures accesses { (p : Program) (b : Codes) (x y : Access)
        → MayMeet p accesses b x y → MayMeet p accesses b y x }
    ensures labels { (p : Program) (x y : ℕ) → LabelsMeet p x y → LabelsMeet p y x }
{}

/// Two accesses may run together if and only if some statement adds the pair.
pub fn statements_add_the_pairs()
    ensures { (p : Program) (b : Codes) (x y : Access)
        → Together p accesses b x y ↔ ((l : ℕ) × AddedAt p accesses l b x y) }
{}
