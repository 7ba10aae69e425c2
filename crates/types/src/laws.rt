//! Theorems about the definitions, each stated as the contract of an empty function.

ghost use Rattle.std.specs.Prelude.{◌≡◌, ◌<◌, ℕ, ℤ, List, [], ◌++◌, length, replicate};
ghost use Rattle.std.specs.Prelude.{slice_get, slice_index_or, slice_set};
ghost use Rattle.std.specs.List.{range_with_len};
ghost use Rattle.syntax_tree.specs.Tree.{Program as Text};
ghost use Rattle.types.specs.Labels.{labels_of_program};
ghost use Rattle.types.specs.Resolution.{resolution};
ghost use Rattle.types.specs.Rules.{BreaksNoRule};
ghost use Rattle.types.specs.Sound.{IsSound};
ghost use Rattle.types.specs.Typed.{code_of};
ghost use Rattle.types.specs.Code.{Number, Truth, Array, Program};
ghost use Rattle.sections.specs.Place.{Place, nowhere};
ghost use Rattle.types.specs.Contents.{held_by, shown, write, FitsArrays};
ghost use Rattle.types.specs.Value.{Environment, number, truth};
ghost use Rattle.types.specs.Run.{Rules, State, Work, run, bind, by_number};
ghost use Rattle.types.specs.Meaning.{one, one_rules};
ghost use Rattle.types.specs.Outcome.{Budget, IsLarger, Ending, Ended, outcome, Means, whole_arrays};
ghost use Rattle.types.specs.Indexed.{indexed, indexed_truth};
ghost use Rattle.types.specs.Laws.{IsThrifty, Solves, IsOnly, IsKept, Keeps, OnlyAdds, SameOn};

use crate::typed::Typed;

/// States that a run satisfies its equations, and that no other function does, provided that the
/// rules never give steps back. The equations use runs for the work inside calls and further
/// iterations. So the bound on depth in the definition has no effect.
pub fn runs_are_determined<X>()
    ensures solves { (p : Program) (r : Rules X) → IsThrifty r → Solves p r (run p r) }
    ensures only { (p : Program) (r : Rules X) → IsThrifty r → IsOnly p r (run p r) }
{}

/// A relation between a state of a task and a later state.
pub trait Following<X> {
    ghost follows: { State X → State X → Type 0 };
}

/// States that a run keeps what each of its operations keeps, for any rules.
pub fn runs_keep_what_operations_keep<X, R: Following<X>>()
    ensures { (p : Program) (r : Rules X) → IsKept r R.follows → (w : Work)
        → Keeps R.follows (run p r w) }
{}

/// States that the one-thread meaning is the only function that satisfies its equations.
pub fn meaning_is_determined()
    ensures solves { (p : Program) (fresh nest : ℕ)
        → Solves p (one_rules p fresh nest) (one p fresh nest) }
    ensures only { (p : Program) (fresh nest : ℕ)
        → IsOnly p (one_rules p fresh nest) (one p fresh nest) }
{}

/// States that the lines and faults after some work are those before it, followed by those of the
/// work.
pub fn meaning_only_adds()
    ensures { (p : Program) (fresh nest : ℕ) (w : Work) → OnlyAdds (one p fresh nest w) }
{}

/// States that a larger budget doesn't change an ended outcome, so a program has at most one
/// ending.
pub fn larger_budgets_end_alike()
    ensures same { (p : Program) (input : List (List ℤ)) (b larger : Budget) (e : Ending)
        → IsLarger larger b → outcome p input b ≡ Ended e → outcome p input larger ≡ Ended e }
    ensures one { (p : Program) (input : List (List ℤ)) (e f : Ending)
        → Means p input e → Means p input f → e ≡ f }
{}

/// States that the labels of a resolved text, in the order of the text, are 1, 2 and so on. Each
/// label occurs once.
pub fn labels_are_counted()
    ensures { (t : Text) (p : Program) → resolution t ≡ Some p
        → labels_of_program p ≡ range_with_len 1 (length (labels_of_program p)) }
{}

/// States that a text that breaks no rule resolves to a sound program: everything that it names
/// exists and is used as the rules require. So the program of a `Typed` is sound.
pub fn typed_programs_are_sound(typed: &Typed)
    ensures typed { IsSound (code_of typed.now) }
    ensures every { (t : Text) (p : Program) → BreaksNoRule t → resolution t ≡ Some p → IsSound p }
{}

/// States that a value depends only on the places of the sections that its expression indexes.
pub fn values_depend_on_indexed_sections()
    ensures number { (env : Environment) (read other : Place → ℤ) (e : Number)
        → SameOn env (indexed e) read other → number env read e ≡ number env other e }
    ensures truth { (env : Environment) (read other : Place → ℤ) (t : Truth)
        → SameOn env (indexed_truth t) read other → truth env read t ≡ truth env other t }
{}

/// States that lists agree with contents and environments, and that a write to a list is a write to
/// its place.
pub fn lists_show_contents()
    ensures shown { (arrays : List Array) (lists : List (List ℤ))
        → FitsArrays arrays lists → shown arrays (held_by lists) ≡ lists }
    ensures written { (lists : List (List ℤ)) (a i : ℕ) (v : ℤ)
        → i < length (slice_index_or lists a [])
        → held_by (slice_set lists a (slice_set (slice_index_or lists a []) i v))
        ≡ write (record { array = a; index = i }) v (held_by lists) }
    ensures arrays { (arrays : List Array) (k : ℕ) (x : Array) → slice_get arrays k ≡ Some x
        → by_number nowhere (whole_arrays 0 arrays) k
        ≡ record { array = k; at = 0; length = x.length } }
    ensures slots { (slots : List ℤ) (n : ℕ) (d : ℤ)
        → by_number d (slots ++ replicate n d) ≡ by_number d slots }
    ensures assigned { (slots : List ℤ) (x : ℕ) (v d : ℤ) → x < length slots
        → by_number d (slice_set slots x v) ≡ bind x v (by_number d slots) }
{}
