//! Theorems about the definitions, each the contract of an empty function.

ghost use Rattle.std.specs.Prelude.{◌≡◌, ◌+◌, ◌<◌, ◌||◌, ℕ, ℤ, List, [], ◌∷◌, ◌++◌, Option, Some, true};
ghost use Rattle.std.specs.Prelude.{Bool, false, length};
ghost use Rattle.types.specs.Code.{Truth, Code, While, Async, Codes, Then, Program};
ghost use Rattle.types.specs.Contents.{FitsArrays};
ghost use Rattle.types.specs.Outcome.{Budget, outcome};
ghost use Rattle.types.specs.Run.{State, Block};
ghost use Rattle.types.specs.Translation.{program as program_of};
ghost use Rattle.effects.specs.Sound.{IsSound};
ghost use Rattle.effects.specs.Needs.{Needs, Provides};
ghost use Rattle.effects.specs.Rounds.{needs_of};
ghost use Rattle.effects.specs.Statements.{HasStatement};
ghost use Rattle.plain_code.specs.Plain.{IsPlainWork};
ghost use Rattle.race_checker.specs.Clash.{IsAccepted};
ghost use Rattle.race_checker.specs.Scope.{IsScoped};
ghost use Rattle.race_checker.specs.Calm.{IsCalm};
ghost use Rattle.task_run.specs.Apart.{apart_outcome, is_stopped};
ghost use Rattle.task_run.specs.Results.{TaskResult, Settled};
ghost use Rattle.task_run.specs.OwnRun.{Start, Own, at_first, beginning, result_of, own_rules, next_action};
ghost use Rattle.task_run.specs.OwnRun.{last_action, Action, EndFinish, is_waiting, run_by};
ghost use Rattle.task_run.specs.Given.{own, given, in_truth, comes_to, below, IsOwn, root_of};
ghost use Rattle.task_run.specs.Given.{IsOfOwnRun, told_of};
ghost use Rattle.task_run.specs.InPlace.{in_place, result_in_place, IsKeptWhole, whole};
ghost use Rattle.task_run.specs.InPlace.{IsMadeFrom, IsMade, made_of, made_below};
ghost use Rattle.task_run.specs.Frames.{Frame, Rest, Again, AtEnd, Standing, turn, handed, HasBegun};
ghost use Rattle.task_run.specs.Frames.{HasBegunBelow, IsGivenChild, IsTask, Follows, done_in};
ghost use Rattle.task_run.specs.Holds.{MayBegin, Holds, HasOwn, HasNeeds};
ghost use Rattle.task_run.specs.Stops.{stops, some_stopped};
ghost use Rattle.task_run.specs.Reached.{HasNext, begun};
ghost use Rattle.task_run.specs.Runs.{root, root_result, root_comes_to, all_results, IsMadeResult};
ghost use Rattle.task_run.specs.Runs.{MayStand, IsTaskResult, IsMadeByTask, MayGoOn, MayEnd};
ghost use Rattle.task_run.specs.Settling.{settle, IsParted};
ghost use Rattle.task_run.specs.Left.{left_after, left_of, left_of_paused, left_of_start};
ghost use Rattle.task_run.specs.Lists.{Each, Shuffled};
ghost use Rattle.task_run.specs.MayRun.{MayRun, MayStart, MayWait, IsRunOf, Stays};
ghost use Rattle.task_run.specs.RunTurns.{CanTurn, IsTurn, Waits};
ghost use Rattle.task_run.specs.Standings.{IsAt, Shows};
ghost use Rattle.task_run.specs.Translation.{task_result};
ghost use Rattle.task_run.specs.declared.result.TaskResult.{TaskResult as Made};
ghost use Rattle.task_run.specs.Worth.{measured, worth, listed_worth, lists, ListsAs};
ghost use Rattle.task_run.specs.declared.run.Run.{Run};
ghost use Rattle.task_run.specs.declared.turn.Paused.{Paused};
ghost use Rattle.task_run.specs.declared.turn.Turn.{Turn};

/// For a sound and accepted program, tasks apart have the one-thread outcome. If results of tasks
/// settle, in any order, their outcome is the one-thread outcome too, whether a task has run on its
/// own or whole. If the input fits, the results of all own runs, each once and in any order, do
/// settle. They settle to the settled result of the root, which also gives the one-thread outcome.
pub fn accepted_programs_come_to_one_outcome()
    ensures apart { (p : Program) → IsSound p → IsAccepted p
        → (input : List (List ℤ)) (b : Budget)
        → apart_outcome p (needs_of p) input b ≡ outcome p input b }
    ensures told { (p : Program) → IsSound p → IsAccepted p
        → (input : List (List ℤ)) (b : Budget) (rs : List TaskResult) (s : Settled)
        → Each (IsMadeResult p input b) rs → settle (root_result p input b) rs ≡ Some s
        → told_of p s ≡ outcome p input b }
    ensures settles { (p : Program) → IsSound p → IsAccepted p
        → (input : List (List ℤ)) (b : Budget) → FitsArrays p.arrays input
        → (rs : List TaskResult) → Shuffled (all_results p input b) rs
        → settle (root_result p input b) rs ≡ Some (root_comes_to p input b) }
    ensures root { (p : Program) → IsSound p → IsAccepted p
        → (input : List (List ℤ)) (b : Budget)
        → told_of p (root_comes_to p input b) ≡ outcome p input b }
{}

/// No task of a sound and accepted program ever misses a place. In each configuration that a task
/// can reach, the next statement has all that it touches, an async has all that its body needs, and
/// no place comes back that is already owned. At its end the result of the task is that of its own
/// run. If results of any tasks, ended or run whole, settle the root's result, their outcome is the
/// one-thread outcome.
pub fn tasks_of_accepted_programs_miss_no_place()
    ensures next { (p : Program) → IsSound p → IsAccepted p
        → (input : List (List ℤ)) (b : Budget) → FitsArrays p.arrays input
        → (s : Start) (t : Standing Own) → MayStand p input b s t
        → HasNext (needs_of p) t.state t.frames }
    ensures parted { (p : Program) → IsSound p → IsAccepted p
        → (input : List (List ℤ)) (b : Budget) → FitsArrays p.arrays input
        → (s : Start) (t : Standing Own) → MayStand p input b s t
        → IsParted (result_of t.state) }
    ensures own { (p : Program) → IsSound p → IsAccepted p
        → (input : List (List ℤ)) (b : Budget) → FitsArrays p.arrays input
        → (r : TaskResult) → IsTaskResult p input b r
        → IsOfOwnRun p (needs_of p) b.steps (root p input b) r }
    ensures told { (p : Program) → IsSound p → IsAccepted p
        → (input : List (List ℤ)) (b : Budget) → FitsArrays p.arrays input
        → (st : State Own)
        → MayStand p input b (root p input b) (record { frames = []; state = st })
        → (rs : List TaskResult) (s : Settled) → Each (IsMadeByTask p input b) rs
        → settle (result_of st) rs ≡ Some s → told_of p s ≡ outcome p input b }
{}

/// No task of a sound and accepted program is ever stuck. In each configuration that a task can
/// reach, results of own runs settle what it has made so far, as at the end of a finish. Each task
/// can reach its end.
pub fn tasks_of_accepted_programs_are_never_stuck()
    ensures settles { (p : Program) → IsSound p → IsAccepted p
        → (input : List (List ℤ)) (b : Budget) → FitsArrays p.arrays input
        → (s : Start) (t : Standing Own) → MayStand p input b s t → MayGoOn p input b t }
    ensures ends { (p : Program) → IsSound p → IsAccepted p
        → (input : List (List ℤ)) (b : Budget) → FitsArrays p.arrays input
        → (s : Start) (t : Standing Own) → MayStand p input b s t → MayEnd p input b s }
{}

/// No result is lost, doubled or invented. A turn lists the child that it spawns, and no other. At
/// its end, the task's own result and the children that it lists together are worth as much as its
/// start. In a sound and accepted program, results of tasks settle if, by every measure, they are
/// worth as much as all that the task lists.
pub fn results_add_up()
    ensures lists { (p : Program) (needs : Codes → Needs) (close : State Own → Option Settled)
        → (nest : ℕ) (f : Frame Own) (fs : List (Frame Own)) (st : State Own)
        → ListsAs (done_in needs nest f st) (lists (record { frames = f ∷ fs; state = st }))
        (lists (turn p (own_rules needs nest close) f fs st)) }
    ensures worth { (p : Program) → IsSound p → IsAccepted p
        → (input : List (List ℤ)) (b : Budget) → FitsArrays p.arrays input
        → (f : TaskResult → ℕ) (s : Start) (st : State Own)
        → MayStand p input b s (record { frames = []; state = st })
        → worth p b f s ≡ f (result_of st) + listed_worth p b f st.extra.pending }
    ensures settles { (p : Program) → IsSound p → IsAccepted p
        → (input : List (List ℤ)) (b : Budget) → FitsArrays p.arrays input
        → (s : Start) (t : Standing Own) → MayStand p input b s t
        → (rs : List TaskResult) → Each (IsTaskResult p input b) rs
        → ((f : TaskResult → ℕ) → measured f rs ≡ listed_worth p b f t.state.extra.pending)
        → (x : Settled) × (settle (result_of t.state) rs ≡ Some x) }
{}

/// A task that may start has a settled result, if the results of all tasks below it are there, each
/// once and in any order. Results of tasks settle the result of a given task only to this settled
/// result. Results of own runs settle it only if they are exactly those of all tasks below it.
pub fn results_settle()
    ensures complete { (p : Program) (needs : Codes → Needs) (fresh : ℕ) (root s : Start)
        → IsScoped p → IsCalm p → Provides p needs
        → given p needs fresh root s.path ≡ Some s → MayBegin p needs s
        → (rs : List TaskResult) → Shuffled (below p needs fresh s.nest s) rs
        → settle (result_of (own p needs fresh s)) rs ≡ Some (comes_to p needs fresh s) }
    ensures sound { (p : Program) (needs : Codes → Needs) (fresh : ℕ) (root s : Start)
        → (r : TaskResult) (rs : List TaskResult) (x : Settled)
        → given p needs fresh root s.path ≡ Some s
        → IsMadeFrom p needs fresh s r → Each (IsMade p needs fresh root) rs
        → settle r rs ≡ Some x → x ≡ comes_to p needs fresh s }
    ensures exact { (p : Program) (needs : Codes → Needs) (fresh : ℕ) (root s : Start)
        → (rs : List TaskResult) (x : Settled) → given p needs fresh root s.path ≡ Some s
        → Each (IsOwn p needs fresh root) rs
        → settle (result_of (own p needs fresh s)) rs ≡ Some x
        → Shuffled (below p needs fresh s.nest s) rs }
{}

/// From its start to its end, turn by turn, a task is its own run. Each child that it lists has the
/// start that is given to the child's path. With results of tasks the task continues after a
/// finish. Its result is that of its own run.
pub fn tasks_are_own_runs()
    ensures begins { (p : Program) (needs : Codes → Needs) (fresh : ℕ) (root s : Start)
        → given p needs fresh root s.path ≡ Some s
        → IsTask p needs fresh root s
        (record { frames = Rest s.body ∷ []; state = beginning (at_first s.owned) fresh s }) }
    ensures turns { (p : Program) (needs : Codes → Needs) (fresh : ℕ) (root s : Start)
        → (f : Frame Own) (fs : List (Frame Own)) (st : State Own)
        → IsTask p needs fresh root s (record { frames = f ∷ fs; state = st })
        → IsTask p needs fresh root s
        (turn p (own_rules needs s.nest (in_truth p needs fresh)) f fs st) }
    ensures lists { (p : Program) (needs : Codes → Needs) (fresh : ℕ) (root s : Start)
        → (fs : List (Frame Own)) (st : State Own)
        → IsTask p needs fresh root s (record { frames = fs; state = st })
        → Each (IsGivenChild p needs fresh root) st.extra.pending }
    ensures leaves { (p : Program) (needs : Codes → Needs) (fresh : ℕ) (root s : Start)
        → (rs : List TaskResult) → Each (IsMade p needs fresh root) rs
        → (before : State Own) (fs : List (Frame Own)) (st : State Own)
        → IsTask p needs fresh root s (record { frames = AtEnd before ∷ fs; state = st })
        → (x : Settled) → settle (result_of st) rs ≡ Some x
        → IsTask p needs fresh root s (record { frames = fs; state = handed before x st }) }
    ensures ends { (p : Program) (needs : Codes → Needs) (fresh : ℕ) (root s : Start)
        → (st : State Own) → IsTask p needs fresh root s (record { frames = []; state = st })
        → IsOfOwnRun p needs fresh root (result_of st) }
    ensures tells { (p : Program) (needs : Codes → Needs) (fresh : ℕ) (root : Start)
        → (r : TaskResult) → IsOfOwnRun p needs fresh root r → IsOwn p needs fresh root r }
{}

/// For all later receipts, the own run from a task's start is what the task has so far, followed by
/// the own run of what remains. This is so at its start, after each turn, and after each receipt.
pub fn tasks_follow_their_receipts()
    ensures begins { (p : Program) (needs : Codes → Needs) (fresh : ℕ) (root s : Start)
        → Follows p needs fresh root s []
        (record { frames = Rest s.body ∷ []; state = beginning (at_first s.owned) fresh s }) }
    ensures turns { (p : Program) (needs : Codes → Needs) (fresh : ℕ) (root s : Start)
        → (taken : List (List TaskResult)) (f : Frame Own) (fs : List (Frame Own)) (st : State Own)
        → HasBegun s.nest st → HasBegunBelow s.nest st (f ∷ fs)
        → Follows p needs fresh root s taken (record { frames = f ∷ fs; state = st })
        → Follows p needs fresh root s taken
        (turn p (own_rules needs s.nest (in_truth p needs fresh)) f fs st) }
    ensures leaves { (p : Program) (needs : Codes → Needs) (fresh : ℕ) (root s : Start)
        → (taken : List (List TaskResult)) (receipt : List TaskResult)
        → (before : State Own) (fs : List (Frame Own)) (st : State Own) (x : Settled)
        → st.extra.waits ≡ false → settle (result_of st) receipt ≡ Some x
        → Follows p needs fresh root s taken (record { frames = AtEnd before ∷ fs; state = st })
        → Follows p needs fresh root s (taken ++ receipt ∷ [])
        (record { frames = fs; state = handed before x st }) }
{}

/// A turn adds what it does to the actions of a task, and these are the first actions of its own
/// run. At the end of a finish without a receipt a task waits.
pub fn turns_are_actions()
    ensures adds { (p : Program) (needs : Codes → Needs) (fresh : ℕ) (s : Start)
        → (f : Frame Own) (fs : List (Frame Own)) (st : State Own)
        → (turn p (own_rules needs s.nest (in_truth p needs fresh)) f fs st).state.extra.actions
        ≡ st.extra.actions ++ done_in needs s.nest f st }
    ensures firsts { (p : Program) (needs : Codes → Needs) (fresh : ℕ) (root s : Start)
        → (fs : List (Frame Own)) (st : State Own)
        → IsTask p needs fresh root s (record { frames = fs; state = st })
        → (rest : List Action) × ((own p needs fresh s).extra.actions ≡ st.extra.actions ++ rest) }
    ensures waits { (p : Program) (needs : Codes → Needs) (fresh : ℕ) (root s : Start)
        → (taken : List (List TaskResult)) (before : State Own)
        → (fs : List (Frame Own)) (st : State Own)
        → st.extra.waits ≡ false
        → Follows p needs fresh root s taken (record { frames = AtEnd before ∷ fs; state = st })
        → (is_waiting (run_by p needs fresh taken s) ≡ true)
        × ((run_by p needs fresh taken s).extra.actions ≡ st.extra.actions ++ EndFinish ∷ []) }
{}

/// The next action of a task is determined by its receipts and the number of actions done. It is
/// the action of the next turn that has one. At the end of a finish, or at the task's own end, it
/// is this end.
pub fn turns_do_the_next_action()
    ensures done { (p : Program) (needs : Codes → Needs) (fresh : ℕ) (root s : Start)
        → (taken : List (List TaskResult)) (f : Frame Own) (fs : List (Frame Own)) (st : State Own)
        → (a : Action) → HasBegun s.nest st → HasBegunBelow s.nest st (f ∷ fs)
        → Follows p needs fresh root s taken (record { frames = f ∷ fs; state = st })
        → done_in needs s.nest f st ≡ a ∷ []
        → next_action p needs fresh taken (length st.extra.actions) s ≡ Some a }
    ensures finish { (p : Program) (needs : Codes → Needs) (fresh : ℕ) (root s : Start)
        → (taken : List (List TaskResult)) (before : State Own)
        → (fs : List (Frame Own)) (st : State Own)
        → st.extra.waits ≡ false
        → Follows p needs fresh root s taken (record { frames = AtEnd before ∷ fs; state = st })
        → next_action p needs fresh taken (length st.extra.actions) s ≡ Some EndFinish }
    ensures end { (p : Program) (needs : Codes → Needs) (fresh : ℕ) (root s : Start)
        → (taken : List (List TaskResult)) (st : State Own) → st.extra.waits ≡ false
        → Follows p needs fresh root s taken (record { frames = []; state = st })
        → next_action p needs fresh taken (length st.extra.actions) s ≡ Some (last_action st.path) }
{}

/// A task always has what it touches: at its start, after each turn, and after each finish.
/// Therefore no place is ever missing, and a task writes only places that it owns.
pub fn tasks_have_what_they_touch()
    ensures root { (p : Program) (needs : Codes → Needs) (input : List (List ℤ)) (nest : ℕ)
        → IsScoped p → IsCalm p → Provides p needs
        → FitsArrays p.arrays input → MayBegin p needs (root_of p input nest) }
    ensures begins { (p : Program) (needs : Codes → Needs) (fresh : ℕ) (s : Start)
        → MayBegin p needs s → Holds p needs
        (record { frames = Rest s.body ∷ []; state = beginning (at_first s.owned) fresh s }) }
    ensures turns { (p : Program) (needs : Codes → Needs) (fresh : ℕ) (s : Start)
        → IsScoped p → IsCalm p → Provides p needs
        → (f : Frame Own) (fs : List (Frame Own)) (st : State Own)
        → Holds p needs (record { frames = f ∷ fs; state = st })
        → Holds p needs (turn p (own_rules needs s.nest (in_truth p needs fresh)) f fs st) }
    ensures leaves { (p : Program) (needs : Codes → Needs) (fresh : ℕ) (root s : Start)
        → IsScoped p → IsCalm p → Provides p needs
        → (rs : List TaskResult) → Each (IsMade p needs fresh root) rs
        → (before : State Own) (fs : List (Frame Own)) (st : State Own)
        → IsTask p needs fresh root s (record { frames = AtEnd before ∷ fs; state = st })
        → Holds p needs (record { frames = AtEnd before ∷ fs; state = st })
        → (x : Settled) → settle (result_of st) rs ≡ Some x
        → Holds p needs (record { frames = fs; state = handed before x st }) }
    ensures first { (p : Program) (needs : Codes → Needs) (fresh : ℕ) (s : Start)
        → IsScoped p → IsCalm p → Provides p needs
        → (l : ℕ) (c : Code) (rest : Codes) (fs : List (Frame Own)) (st : State Own)
        → Holds p needs (record { frames = Rest (Then l c rest) ∷ fs; state = st })
        → HasOwn st l c }
    ensures again { (p : Program) (needs : Codes → Needs) (fresh : ℕ) (s : Start)
        → IsScoped p → IsCalm p → Provides p needs
        → (l : ℕ) (t : Truth) (b : Codes) (fs : List (Frame Own)) (st : State Own)
        → Holds p needs (record { frames = Again l t b ∷ fs; state = st })
        → HasOwn st l (While t b) }
    ensures needed { (p : Program) (needs : Codes → Needs) (fresh : ℕ) (s : Start)
        → IsScoped p → IsCalm p → Provides p needs
        → (l : ℕ) (b rest : Codes) (fs : List (Frame Own)) (st : State Own)
        → Holds p needs (record { frames = Rest (Then l (Async b) rest) ∷ fs; state = st })
        → HasNeeds st (needs b) }
    ensures parted { (p : Program) (needs : Codes → Needs) (fs : List (Frame Own)) (st : State Own)
        → Holds p needs (record { frames = fs; state = st }) → IsParted (result_of st) }
{}

/// A turn stops a task exactly if its next statement is over the budget: it requires a step and
/// none is left, or it is an async and no nesting level is left. A finish stops its owner exactly
/// if the owner was stopped, or one of the tasks whose results it gathers. Nothing else stops a
/// task.
pub fn tasks_stop_over_the_budget()
    ensures turn { (p : Program) (needs : Codes → Needs) (nest : ℕ)
        → (close : State Own → Option Settled)
        → (f : Frame Own) (fs : List (Frame Own)) (st : State Own)
        → is_stopped (turn p (own_rules needs nest close) f fs st).state.flow
        ≡ (is_stopped st.flow || stops nest f st) }
    ensures finish { (before st : State Own) (rs : List TaskResult) (x : Settled)
        → settle (result_of st) rs ≡ Some x
        → is_stopped (handed before x st).flow ≡ (is_stopped st.flow || some_stopped rs) }
{}

/// A run in Rust of a sound and accepted program can take a turn: it has all that its next
/// statement needs, and if the next statement is an async, it is one of the program's. The value
/// that a turn returns belongs to the same task: a run, a run that waits at the end of a finish, or
/// the task's result. The root, and each task that a turn spawned, may start, and a run at such a
/// start is a run of the program. So is the run after a finish that continues with what results of
/// tasks settled to.
pub fn runs_stay_tasks()
    ensures next { (p : Program) → IsSound p → IsAccepted p
        → (input : List (List ℤ)) (b : Budget) → FitsArrays p.arrays input
        → (r : Run) → MayRun p input b r
        → CanTurn (needs_of p) (λ l c. HasStatement p l (Async c)) r }
    ensures stays { (p : Program) (input : List (List ℤ)) (b : Budget) (r : Run) (t : Turn)
        → (m : MayRun p input b r) → IsTurn (needs_of p) r t → Stays p input b m.start t }
    ensures root { (p : Program) (input : List (List ℤ)) (b : Budget)
        → MayStart p input b (root p input b) }
    ensures begins { (p : Program) (input : List (List ℤ)) (b : Budget) (r : Run) (s : Start)
        → MayStart p input b s → program_of r.plan.program.now ≡ p → r.thread.nest ≡ s.nest
        → IsAt r (begun b.steps s) → IsRunOf p input b s r }
    ensures behind { (p : Program) → IsSound p → IsAccepted p
        → (input : List (List ℤ)) (b : Budget) → FitsArrays p.arrays input
        → (q : Paused) (so_far : Made) (w : MayWait p input b q so_far)
        → (rs : List TaskResult) → Each (IsMadeByTask p input b) rs
        → (x : Settled) → settle (task_result so_far) rs ≡ Some x
        → (r : Run) → r.plan ≡ q.plan → r.thread.nest ≡ q.nest
        → IsAt r (record { frames = w.frames; state = handed w.before x w.state })
        → IsRunOf p input b w.start r }
{}

/// One thread that runs a task and all tasks below it in place makes all that the task's start
/// comes to, unless it is stopped. If the body is plain, it makes the result of the task's own run,
/// stopped or not. In both cases what it makes is the result of a task. Whichever tasks run whole,
/// the result of a task settles if those of all tasks below it are there, each once and in any
/// order. A task that runs whole has none below it.
pub fn tasks_may_run_whole()
    ensures whole { (p : Program) → IsSound p → IsAccepted p
        → (input : List (List ℤ)) (b : Budget) → FitsArrays p.arrays input
        → (s : Start) → MayStart p input b s
        → is_stopped (in_place p b.steps s).flow ≡ false
        → result_in_place p b.steps s ≡ whole p (needs_of p) b.steps s }
    ensures plain { (p : Program) (needs : Codes → Needs) (fresh : ℕ) (s : Start)
        → IsPlainWork p (Block s.body)
        → result_in_place p fresh s ≡ result_of (own p needs fresh s) }
    ensures made { (p : Program) → IsSound p → IsAccepted p
        → (input : List (List ℤ)) (b : Budget) → FitsArrays p.arrays input
        → (s : Start) → MayStart p input b s → IsKeptWhole p b.steps s
        → IsMadeByTask p input b (result_in_place p b.steps s) }
    ensures settles { (p : Program) → IsSound p → IsAccepted p
        → (input : List (List ℤ)) (b : Budget) → FitsArrays p.arrays input
        → (s : Start) → MayStart p input b s
        → (runs_whole : Start → Bool) (rs : List TaskResult)
        → Shuffled (made_below p (needs_of p) b.steps runs_whole s.nest s) rs
        → settle (made_of p (needs_of p) b.steps runs_whole s) rs
        ≡ Some (comes_to p (needs_of p) b.steps s) }
{}

/// Runs end: a turn decreases the bound of the number of turns that are left, including those of a
/// task that it spawns. The bound of a task at its start is less than the one that was reserved for
/// it. The bound of a task that continues after a finish is less than the bound of the waiting run.
pub fn runs_end()
    ensures turns { (needs : Codes → Needs) (r : Run) (t : Turn) (fs : List (Frame Own)) (x : Own)
        → Shows r fs x → IsTurn needs r t → left_after r.plan.budget.steps t < left_of r }
    ensures begins { (fresh : ℕ) (s : Start) (r : Run) → r.plan.budget.steps ≡ fresh
        → r.thread.nest ≡ s.nest → IsAt r (begun fresh s) → left_of r < left_of_start fresh s.nest }
    ensures goes_on { (q : Paused) (r : Run) (fs : List (Frame Own)) (before st : State Own)
        → (x : Settled) → r.plan ≡ q.plan → r.thread.nest ≡ q.nest → Waits q fs before st
        → IsAt r (record { frames = fs; state = handed before x st })
        → left_of r < left_of_paused q }
{}
