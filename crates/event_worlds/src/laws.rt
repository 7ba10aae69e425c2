//! Theorems about the definitions, each the contract of an empty function.

ghost use Rattle.std.specs.Prelude.{ℕ, ℤ, List, Some, None, true, false, Contains};
ghost use Rattle.std.specs.Prelude.{◌≡◌, ◌≤◌, ◌+◌, ◌∷◌, ◌⊎◌, ◌↔◌};
ghost use Rattle.types.specs.Code.{Program};
ghost use Rattle.types.specs.Contents.{FitsArrays};
ghost use Rattle.types.specs.Outcome.{Budget, outcome};
ghost use Rattle.effects.specs.Sound.{IsSound};
ghost use Rattle.race_checker.specs.Clash.{IsAccepted};
ghost use Rattle.task_run.specs.Lists.{Each, Shuffled};
ghost use Rattle.task_run.specs.OwnRun.{Start, Action, EndFinish, EndTask};
ghost use Rattle.task_run.specs.Results.{TaskResult};
ghost use Rattle.task_run.specs.Settling.{NoTwice};
ghost use Rattle.task_run.specs.Runs.{all_results};
ghost use Rattle.event_worlds.specs.World.{ScopeId, Stake, Live, Scope, World, task, scope, root_scope};
ghost use Rattle.event_worlds.specs.World.{held, is_parked, hand_of};
ghost use Rattle.event_worlds.specs.Events.{Event, Steal, Ends, owns};
ghost use Rattle.event_worlds.specs.History.{Begun, BegunIn, Ended};
ghost use Rattle.event_worlds.specs.Replay.{IllegalAt};
ghost use Rattle.event_worlds.specs.Weights.{Does, HandsOn, Leads, Weighs, StandsIn};
ghost use Rattle.event_worlds.specs.Worlds.{event_of, next_of, outcome_of, IsFree, IsSpent, replayed};
ghost use Rattle.event_worlds.specs.Worlds.{LeadsTo, Settles, given_to, IsFirstIllegal, ComesOfOwnRun};

/// For tasks with any behavior: what a scope has issued has come back or is held by live tasks.
/// Each task has at least weight 1 in each scope that it is in. Once all weight has come back, no
/// task is in the scope. The weight that is still to come back is never more than what is out.
pub fn weights_add_up()
    ensures books { (w0 : ℕ) → 1 ≤ w0 → (does : Does) (hands_on : HandsOn) (root : Start)
        → (es : List Event) (w : World) → Leads w0 does hands_on root es w
        → (id : ScopeId) (s : Scope) → scope id w.scopes ≡ Some s
        → s.issued ≡ s.returned + held id w.live }
    ensures tasks { (w0 : ℕ) → 1 ≤ w0 → (does : Does) (hands_on : HandsOn) (root : Start)
        → (es : List Event) (w : World) → Leads w0 does hands_on root es w
        → (path : List ℕ) (t : Live) → task path w.live ≡ Some t → Weighs t }
    ensures nobody { (w0 : ℕ) → 1 ≤ w0 → (does : Does) (hands_on : HandsOn) (root : Start)
        → (es : List Event) (w : World) → Leads w0 does hands_on root es w
        → (id : ScopeId) (s : Scope) → scope id w.scopes ≡ Some s
        → s.issued ≡ s.returned → StandsIn w.live id → ⊥ }
    ensures late { (w0 : ℕ) → 1 ≤ w0 → (does : Does) (hands_on : HandsOn) (root : Start)
        → (es : List Event) (w : World) → Leads w0 does hands_on root es w
        → (path : List ℕ) (t : Live) → task path w.live ≡ Some t
        → (k : Stake) (s : Scope) → Contains t.stakes k → scope k.scope w.scopes ≡ Some s
        → s.returned + k.weight ≤ s.issued }
{}

/// A scope passes only once every task spawned inside it has ended, including the tasks of nested
/// finishes and of ended children. This is true for tasks with any behavior, and so for each replay
/// of any program.
pub fn passed_scopes_have_ended()
    ensures any { (w0 : ℕ) → 1 ≤ w0 → (does : Does) (hands_on : HandsOn) (root : Start)
        → (es : List Event) (w : World) → Leads w0 does hands_on root es w
        → (id : ScopeId) (s : Scope) → scope id w.scopes ≡ Some s → s.passed ≡ true
        → (path : List ℕ) → Begun es id path → Ended es id path }
    ensures replayed { (p : Program) (w0 : ℕ) → 1 ≤ w0 → (input : List (List ℤ)) (b : Budget)
        → (es : List Event) (w : World) → LeadsTo p w0 input b es w
        → (id : ScopeId) (s : Scope) → scope id w.scopes ≡ Some s → s.passed ≡ true
        → (path : List ℕ) → Begun es id path → Ended es id path }
{}

/// Each live task started with the start that is given to its path. Each result that a scope keeps
/// is that of the own run of a task, whose path is given its start. It belongs to a task that was
/// spawned directly in the scope and has ended. The scope keeps the result of each such task, and
/// keeps it once. Once it has passed, the root's scope has the results of all tasks.
pub fn tasks_of_a_world_are_own_runs()
    ensures starts { (p : Program) (w0 : ℕ) → 1 ≤ w0 → (input : List (List ℤ)) (b : Budget)
        → (es : List Event) (w : World) → LeadsTo p w0 input b es w
        → (path : List ℕ) (t : Live) → task path w.live ≡ Some t
        → given_to p input b path ≡ Some t.start }
    ensures results { (p : Program) (w0 : ℕ) → 1 ≤ w0 → (input : List (List ℤ)) (b : Budget)
        → (es : List Event) (w : World) → LeadsTo p w0 input b es w
        → (id : ScopeId) (s : Scope) → scope id w.scopes ≡ Some s
        → Each (ComesOfOwnRun p input b) s.results }
    ensures once { (p : Program) (w0 : ℕ) → 1 ≤ w0 → (input : List (List ℤ)) (b : Budget)
        → (es : List Event) (w : World) → LeadsTo p w0 input b es w
        → (id : ScopeId) (s : Scope) → scope id w.scopes ≡ Some s
        → NoTwice s.results }
    ensures ended { (p : Program) (w0 : ℕ) → 1 ≤ w0 → (input : List (List ℤ)) (b : Budget)
        → (es : List Event) (w : World) → LeadsTo p w0 input b es w
        → (id : ScopeId) (s : Scope) → scope id w.scopes ≡ Some s
        → Each (λ (r : TaskResult). (task r.path w.live ≡ None) × Contains es (Ends r.path))
        s.results }
    ensures direct { (p : Program) (w0 : ℕ) → 1 ≤ w0 → (input : List (List ℤ)) (b : Budget)
        → (es : List Event) (w : World) → LeadsTo p w0 input b es w
        → (id : ScopeId) (s : Scope) → scope id w.scopes ≡ Some s
        → Each (λ (r : TaskResult). BegunIn es id r.path) s.results }
    ensures kept { (p : Program) (w0 : ℕ) → 1 ≤ w0 → (input : List (List ℤ)) (b : Budget)
        → (es : List Event) (w : World) → LeadsTo p w0 input b es w
        → (id : ScopeId) (s : Scope) → scope id w.scopes ≡ Some s
        → (path : List ℕ) → BegunIn es id path → Contains es (Ends path)
        → (r : TaskResult) × Contains s.results r × (r.path ≡ path) }
    ensures all { (p : Program) (w0 : ℕ) → 1 ≤ w0 → (input : List (List ℤ)) (b : Budget)
        → (es : List Event) (w : World) → LeadsTo p w0 input b es w
        → (s : Scope) → scope root_scope w.scopes ≡ Some s → s.passed ≡ true
        → Shuffled (all_results p input b) s.results }
{}

/// For a sound and accepted program, once the root's scope has passed, the world has an outcome,
/// and this is the one-thread outcome.
pub fn worlds_come_to_the_outcome()
    ensures { (p : Program) → IsSound p → IsAccepted p → (w0 : ℕ) → 1 ≤ w0
        → (input : List (List ℤ)) (b : Budget) → FitsArrays p.arrays input
        → (es : List Event) (w : World) → LeadsTo p w0 input b es w
        → (s : Scope) → scope root_scope w.scopes ≡ Some s → s.passed ≡ true
        → outcome_of p w0 b w ≡ Some (outcome p input b) }
{}

/// No world of a sound and accepted program is stuck. Until its root's scope has passed, some event
/// is legal, or a task needs weight from a scope that has issued 2^31 times. What a passed scope
/// holds settles what its owner has made in it, so each live task that isn't parked has a next
/// action.
pub fn worlds_go_on()
    ensures goes { (p : Program) → IsSound p → IsAccepted p → (w0 : ℕ) → 1 ≤ w0
        → (input : List (List ℤ)) (b : Budget) → FitsArrays p.arrays input
        → (es : List Event) (w : World) → LeadsTo p w0 input b es w
        → (s : Scope) → scope root_scope w.scopes ≡ Some s → s.passed ≡ false
        → IsFree p w0 b w ⊎ IsSpent p w0 b w }
    ensures next { (p : Program) → IsSound p → IsAccepted p → (w0 : ℕ) → 1 ≤ w0
        → (input : List (List ℤ)) (b : Budget) → FitsArrays p.arrays input
        → (es : List Event) (w : World) → LeadsTo p w0 input b es w
        → (path : List ℕ) (t : Live) → task path w.live ≡ Some t → is_parked t.place ≡ false
        → (a : Action) × (next_of p w0 b t ≡ Some a) }
    ensures settles { (p : Program) → IsSound p → IsAccepted p → (w0 : ℕ) → 1 ≤ w0
        → (input : List (List ℤ)) (b : Budget) → FitsArrays p.arrays input
        → (es : List Event) (w : World) → LeadsTo p w0 input b es w
        → (path : List ℕ) (t : Live) → task path w.live ≡ Some t → is_parked t.place ≡ true
        → (inner around : Stake) (outer : List Stake) → t.stakes ≡ inner ∷ around ∷ outer
        → (s : Scope) → scope inner.scope w.scopes ≡ Some s → s.passed ≡ true
        → Settles p input b t s.results }
{}

/// If a task in a hand is at the end of a finish, its innermost scope is its own. If it is at its
/// own end, the innermost scope isn't its own. So this test never rejects `Parks` or `Ends`.
pub fn ends_are_their_own()
    ensures { (p : Program) (w0 : ℕ) → 1 ≤ w0 → (input : List (List ℤ)) (b : Budget)
        → (es : List Event) (w : World) → LeadsTo p w0 input b es w
        → (path : List ℕ) (t : Live) → task path w.live ≡ Some t
        → (v : ℕ) → hand_of t.place ≡ Some v
        → (s : Stake) (outer : List Stake) → t.stakes ≡ s ∷ outer
        → (next_of p w0 b t ≡ Some EndFinish → owns t s.scope ≡ true)
        × (next_of p w0 b t ≡ Some EndTask → owns t s.scope ≡ false) }
{}

/// A replay rejects exactly the first event that isn't legal.
pub fn replays_refuse_the_first()
    ensures { (p : Program) (w0 : ℕ) (input : List (List ℤ)) (b : Budget)
        → (es : List Event) (n : ℕ)
        → (replayed p w0 input b es ≡ IllegalAt n) ↔ IsFirstIllegal p w0 input b es n }
{}

/// A worker steals only from other workers.
pub fn nobody_steals_from_itself()
    ensures { (p : Program) (w0 : ℕ) (b : Budget) (worker : ℕ) (path : List ℕ) (w : World)
        → event_of p w0 b (Steal worker worker path) w ≡ None }
{}
