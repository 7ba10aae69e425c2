//! Theorems about the definitions, each the contract of a function with an empty body.

ghost use Rattle.std.specs.Prelude.{◌≡◌, ◌⊎◌, ◌↔◌, ℕ, ℤ, List, [], ◌∷◌, map, length, Some};
ghost use Rattle.sections.specs.Place.{Place, Window, sides_of, piece_of};
ghost use Rattle.sections.specs.Member.{Member};
ghost use Rattle.sections.specs.Origins.{IsNumbered};
ghost use Rattle.types.specs.Code.{Number, Truth, Primitive, Code, Do, Split, Parts, Call, Codes};
ghost use Rattle.types.specs.Code.{Procedure, Program};
ghost use Rattle.types.specs.Indexed.{indexed, indexed_truth};
ghost use Rattle.types.specs.Value.{Environment, number, truth};
ghost use Rattle.types.specs.Run.{State, Rules, Work, run, primitive, procedure_of, entry, with_sides};
ghost use Rattle.types.specs.Run.{with_piece};
ghost use Rattle.types.specs.Meaning.{one_rules};
ghost use Rattle.types.specs.Outcome.{whole_arrays};
ghost use Rattle.effects.specs.Accesses.{Access, own_accesses, reads};
ghost use Rattle.effects.specs.Effects.{accesses, labels, AllOf, All, PendingOf, Pending};
ghost use Rattle.effects.specs.Rows.{IsLeastSolution};
ghost use Rattle.effects.specs.Footprint.{Touches, Overwrites, MayTouch, MayWrite, MayTouchOf, MayWriteOf};
ghost use Rattle.effects.specs.Footprint.{MayStillTouch, MayStillWrite, MayStillTouchOf, MayStillWriteOf};
ghost use Rattle.effects.specs.Tables.{Table, IsDerived, IsDerivedPending, IsStable, IsStablePending};
ghost use Rattle.effects.specs.Tables.{StableIsLeast};
ghost use Rattle.effects.specs.Rounds.{possible, summaries, pending_summaries, needs_of};
ghost use Rattle.effects.specs.Needs.{Provides, needs_in};
ghost use Rattle.effects.specs.Sound.{Allowed, SplitsWell, CutsWell, PassesWell};
ghost use Rattle.effects.specs.Sound.{parameters_of, HasArrays, IsSoundIn, IsSound};
ghost use Rattle.effects.specs.Fits.{Fits};
ghost use Rattle.effects.specs.Kept.{SameWindows, KeepsWindows, WorkFollows};

use types::typed::Typed;

/// All and Pending satisfy the rows of the table, and are the least sets that do, both for accesses
/// and for labels.
pub fn effects_are_the_least_solution()
    ensures accesses { (p : Program) → IsLeastSolution p accesses }
    ensures labels { (p : Program) → IsLeastSolution p labels }
{}

/// What is left pending is among all that is done.
pub fn pending_is_among_all()
    ensures statement { (p : Program) (l : ℕ) (s : Code) (x : Access)
        → PendingOf p accesses s x → AllOf p accesses l s x }
    ensures block { (p : Program) (b : Codes) (x : Access)
        → Pending p accesses b x → All p accesses b x }
{}

/// Tables that list only what is derived, and to which one more round adds nothing, are the least
/// solution. Rounds that start from empty tables list only what is derived.
pub fn stable_tables_are_least()
    ensures accesses { (p : Program) → StableIsLeast p accesses }
    ensures labels { (p : Program) → StableIsLeast p labels }
{}

/// The rounds of a sound program lead to stable tables. So what its procedures may do, leave
/// pending and need is computed.
pub fn sound_programs_have_summaries()
    ensures possible { (p : Program) → IsSound p → (f : ℕ) (x : Access)
        → All p accesses (procedure_of p f).body x → Member x (possible p f) }
    ensures derived { (p : Program) → IsDerived p accesses (summaries p) }
    ensures stable { (p : Program) → IsSound p → IsStable p accesses (summaries p) }
    ensures pending_derived { (p : Program) → IsDerivedPending p accesses (pending_summaries p) }
    ensures pending_stable { (p : Program) → IsSound p
        → IsStablePending p accesses (summaries p) (pending_summaries p) }
    ensures provides { (p : Program) → IsSound p → Provides p (needs_of p) }
{}

/// What is computed from any derived and stable table is what each async needs.
pub fn stable_tables_provide_needs()
    ensures { (p : Program) (table : Table accesses)
        → IsDerived p accesses table → IsStable p accesses table → Provides p (needs_in table) }
{}

/// If the type rules are satisfied, a procedure accesses only the scope of its parameters, and
/// writes only what it may write.
pub fn accesses_are_in_scope()
    ensures { (p : Program) → IsSound p → (g : Procedure) → IsSoundIn p g → (x : Access)
        → All p accesses g.body x → Allowed g (parameters_of g) x }
{}

/// A value depends only on places that reads of its sections may touch. A statement of one step
/// writes only places that its own accesses may write.
pub fn steps_keep_to_their_own_accesses<X>()
    ensures number { (env : Environment) (l : ℕ) (read other : Place → ℤ) (e : Number)
        → ((q : Place) → Touches env (λ x. Member x (reads l (indexed e))) q → read q ≡ other q)
        → number env read e ≡ number env other e }
    ensures truth { (env : Environment) (l : ℕ) (read other : Place → ℤ) (t : Truth)
        → ((q : Place) → Touches env (λ x. Member x (reads l (indexed_truth t))) q
        → read q ≡ other q)
        → truth env read t ≡ truth env other t }
    ensures written { (p : Program) (l : ℕ) (q : Place) (s : Primitive) (st : State X)
        → (Overwrites st.environment (λ x. Member x (own_accesses l (Do s))) q → ⊥)
        → (primitive p l s st).store q ≡ st.store q }
{}

/// The environment of `main` fits at its start. An environment continues to fit in the block of a
/// split and in each turn of a `parts`, after both, and in the body of a call. Only the windows in
/// scope matter.
pub fn environments_fit()
    ensures start { (p : Program) → IsSoundIn p p.main → HasArrays p
        → Fits p p.main (parameters_of p.main) (entry [] (whole_arrays 0 p.arrays)) }
    ensures inside_split { (p : Program) (g : Procedure) (scope : List ℕ) (env : Environment)
        → Fits p g scope env → (s l r : ℕ) → SplitsWell g scope s l r
        → (v : ℤ) (ws : Window × Window) → sides_of (env.windows s) v ≡ Some ws
        → Fits p g (l ∷ r ∷ scope) (with_sides l r ws env) }
    ensures behind_split { (p : Program) (g : Procedure) (scope : List ℕ) (env : Environment)
        → Fits p g scope env → (s l r : ℕ) → SplitsWell g scope s l r
        → (ws : Window × Window) → Fits p g scope (with_sides l r ws env) }
    ensures in_turn { (p : Program) (g : Procedure) (scope : List ℕ) (env : Environment)
        → Fits p g scope env → (s q i : ℕ) → CutsWell g scope s q i
        → (size number : ℕ) (w : Window) → piece_of (env.windows s) size number ≡ Some w
        → Fits p g (q ∷ scope) (with_piece q i w number env) }
    ensures behind_parts { (p : Program) (g : Procedure) (scope : List ℕ) (env : Environment)
        → Fits p g scope env → (s q i : ℕ) → CutsWell g scope s q i
        → (w : Window) (number : ℕ) → Fits p g scope (with_piece q i w number env) }
    ensures in_call { (p : Program) (g : Procedure) (scope : List ℕ) (env : Environment)
        → IsNumbered g.sections → Fits p g scope env
        → (f : Procedure) → IsSoundIn p f
        → (values : List ℤ) (ss : List ℕ) → PassesWell g scope f.parameters ss
        → Fits p f (parameters_of f) (entry values (map env.windows ss)) }
    ensures same { (p : Program) (g : Procedure) (scope : List ℕ) (env other : Environment)
        → Fits p g scope env
        → ((s : ℕ) → Member s scope → env.windows s ≡ other.windows s)
        → Fits p g scope other }
{}

/// A run of work whose names follow the rules leaves the windows in scope unchanged, under any
/// rules that leave windows unchanged, such as those of one thread.
pub fn runs_keep_windows<X>()
    ensures run { (p : Program) (r : Rules X) → KeepsWindows r
        → (g : Procedure) (w : Work) (scope : List ℕ) → WorkFollows p g scope w
        → (st : State X) → SameWindows scope st.environment (run p r w st).environment }
    ensures fits { (p : Program) (r : Rules X) → KeepsWindows r
        → (g : Procedure) (w : Work) (scope : List ℕ) → WorkFollows p g scope w
        → (st : State X) → Fits p g scope st.environment
        → Fits p g scope (run p r w st).environment }
    ensures one_thread { (p : Program) (fresh nest : ℕ) → KeepsWindows (one_rules p fresh nest) }
{}

/// Apart from the reads in its arguments, a call may touch and write exactly the places that the
/// body may touch and write in the environment in which it starts. The call leaves pending what the
/// body leaves pending.
pub fn calls_keep_footprints()
    ensures touched { (p : Program) → IsSound p
        → (env : Environment) (l f : ℕ) (es : List Number) (ss : List ℕ) (values : List ℤ)
        → length ss ≡ length (procedure_of p f).parameters → (q : Place)
        → MayTouchOf p env l (Call f es ss) q
        ↔ (Touches env (λ x. Member x (own_accesses l (Call f es ss))) q
        ⊎ MayTouch p (entry values (map env.windows ss)) (procedure_of p f).body q) }
    ensures written { (p : Program) → IsSound p
        → (env : Environment) (l f : ℕ) (es : List Number) (ss : List ℕ) (values : List ℤ)
        → length ss ≡ length (procedure_of p f).parameters → (q : Place)
        → MayWriteOf p env l (Call f es ss) q
        ↔ MayWrite p (entry values (map env.windows ss)) (procedure_of p f).body q }
    ensures still_touched { (p : Program) → IsSound p
        → (env : Environment) (f : ℕ) (es : List Number) (ss : List ℕ) (values : List ℤ)
        → length ss ≡ length (procedure_of p f).parameters → (q : Place)
        → MayStillTouchOf p env (Call f es ss) q
        ↔ MayStillTouch p (entry values (map env.windows ss)) (procedure_of p f).body q }
    ensures still_written { (p : Program) → IsSound p
        → (env : Environment) (f : ℕ) (es : List Number) (ss : List ℕ) (values : List ℤ)
        → length ss ≡ length (procedure_of p f).parameters → (q : Place)
        → MayStillWriteOf p env (Call f es ss) q
        ↔ MayStillWrite p (entry values (map env.windows ss)) (procedure_of p f).body q }
{}

/// What the block of a split may do in its environment, the split may do in the environment around
/// it.
pub fn splits_keep_footprints()
    ensures touched { (p : Program) (env : Environment) (label s l r : ℕ) (e : Number) (b : Codes)
        → (v : ℤ) (ws : Window × Window) → sides_of (env.windows s) v ≡ Some ws → (q : Place)
        → MayTouch p (with_sides l r ws env) b q → MayTouchOf p env label (Split s e l r b) q }
    ensures written { (p : Program) (env : Environment) (label s l r : ℕ) (e : Number) (b : Codes)
        → (v : ℤ) (ws : Window × Window) → sides_of (env.windows s) v ≡ Some ws → (q : Place)
        → MayWrite p (with_sides l r ws env) b q → MayWriteOf p env label (Split s e l r b) q }
    ensures still_touched { (p : Program) (env : Environment) (s l r : ℕ) (e : Number) (b : Codes)
        → (v : ℤ) (ws : Window × Window) → sides_of (env.windows s) v ≡ Some ws → (q : Place)
        → MayStillTouch p (with_sides l r ws env) b q
        → MayStillTouchOf p env (Split s e l r b) q }
    ensures still_written { (p : Program) (env : Environment) (s l r : ℕ) (e : Number) (b : Codes)
        → (v : ℤ) (ws : Window × Window) → sides_of (env.windows s) v ≡ Some ws → (q : Place)
        → MayStillWrite p (with_sides l r ws env) b q
        → MayStillWriteOf p env (Split s e l r b) q }
{}

/// What the block of a turn may do in its environment, the `parts` may do in the environment around
/// it.
pub fn turns_keep_footprints()
    ensures touched { (p : Program) (env : Environment) (label s x i : ℕ) (e : Number) (b : Codes)
        → (n k : ℕ) (w : Window) → piece_of (env.windows s) n k ≡ Some w → (q : Place)
        → MayTouch p (with_piece x i w k env) b q → MayTouchOf p env label (Parts s e x i b) q }
    ensures written { (p : Program) (env : Environment) (label s x i : ℕ) (e : Number) (b : Codes)
        → (n k : ℕ) (w : Window) → piece_of (env.windows s) n k ≡ Some w → (q : Place)
        → MayWrite p (with_piece x i w k env) b q → MayWriteOf p env label (Parts s e x i b) q }
    ensures still_touched { (p : Program) (env : Environment) (s x i : ℕ) (e : Number) (b : Codes)
        → (n k : ℕ) (w : Window) → piece_of (env.windows s) n k ≡ Some w → (q : Place)
        → MayStillTouch p (with_piece x i w k env) b q
        → MayStillTouchOf p env (Parts s e x i b) q }
    ensures still_written { (p : Program) (env : Environment) (s x i : ℕ) (e : Number) (b : Codes)
        → (n k : ℕ) (w : Window) → piece_of (env.windows s) n k ≡ Some w → (q : Place)
        → MayStillWrite p (with_piece x i w k env) b q
        → MayStillWriteOf p env (Parts s e x i b) q }
{}
