//! Theorems about the definitions. Each is the contract of a function that does nothing.

ghost use Rattle.std.specs.Prelude.{◌≡◌, ◌≢◌, ◌<◌, ◌≤◌, ◌⊎◌, ℕ, ℤ, List, Some, None, true};
ghost use Rattle.std.specs.Prelude.{◌++◌, false, length, replicate};
ghost use Rattle.sections.specs.Member.{Member};
ghost use Rattle.sections.specs.Place.{Place};
ghost use Rattle.types.specs.Code.{Program};
ghost use Rattle.types.specs.Contents.{Contents, read, held_by};
ghost use Rattle.types.specs.Outcome.{Budget, IsLarger, Outcome, Ended, outcome};
ghost use Rattle.types.specs.Trees.{Leaf, Tree, all_done, ready};
ghost use Rattle.types.specs.TreeSteps.{leaf_step, step, leaf_at, first_tree};
ghost use Rattle.types.specs.TreeRuns.{Runs, Reachable, Ends, Open, NoSuchChoice, tree_ending, explored};
ghost use Rattle.types.specs.TreePlaces.{StandsBefore, next_reads, next_writes};
ghost use Rattle.effects.specs.Sound.{IsSound};
ghost use Rattle.parallel_relation.specs.Together.{LabelsMeet};
ghost use Rattle.race_checker.specs.Clash.{IsAccepted};
ghost use Rattle.step_trees.specs.Still.{Separate, still};
ghost use Rattle.step_trees.specs.Laws.{ParIn, ThenIn, StepsTo, Commutes, GoesOn, AreTexts};
ghost use Rattle.step_trees.specs.Laws.{HasLawfulParts, LeafFits, OwnerKeeps, SameStep, EndsBy};
ghost use Rattle.step_trees.specs.Laws.{OpensBy, MissesBy, Chosen};
ghost use Rattle.step_trees.specs.Standing.{EndsBeyond, HasEnded, standing};

/// States that no tree of any program is ever stuck. If a run reaches a tree that hasn't ended, the
/// tree has a leaf that may step. So an `Open` result has such a leaf too.
pub fn trees_are_never_stuck()
    ensures ready { (p : Program) (input : Contents) (t : Tree) (a : Contents)
        → Reachable p input t a → all_done t ≡ false → 0 < ready t }
    ensures open { (p : Program) (input : List (List ℤ)) (choices : List ℕ) (leaves : ℕ)
        → explored p input choices ≡ Open leaves → 0 < leaves }
{}

/// States that the leaves that may step are numbered from 0, and that no others may step.
pub fn ready_leaves_may_step()
    ensures may { (p : Program) (n : ℕ) (t : Tree) (a : Contents)
        → n < ready t → StepsTo p n t a }
    ensures may_not { (p : Program) (n : ℕ) (t : Tree) (a : Contents)
        → ready t ≤ n → step p n t a ≡ None }
{}

/// States that in each `t par u` of a tree that a run of an accepted program reaches, no place that
/// one side may still write is one that the other may still read or write.
pub fn sides_keep_apart()
    ensures { (p : Program) → IsSound p → IsAccepted p
        → (input : Contents) (v : Tree) (a : Contents) → Reachable p input v a
        → (t u : Tree) → ParIn t u v → Separate (still p t) (still p u) }
{}

/// States that in a tree that a run of an accepted program reaches, no two leaves are about to
/// access one place that one of them writes.
pub fn leaves_do_not_race()
    ensures { (p : Program) → IsSound p → IsAccepted p
        → (input : Contents) (t : Tree) (a : Contents) → Reachable p input t a
        → (m n : ℕ) → m ≢ n
        → (j k : Leaf) → leaf_at m t ≡ Some j → leaf_at n t ≡ Some k
        → (q : Place) → Member q (next_writes j a)
        → (Member q (next_reads k a)) ⊎ (Member q (next_writes k a)) → ⊥ }
{}

/// States that a step depends only on the numbers at the places that it reads. Over a store with
/// the same numbers there, it does the same. It changes only the places that it writes.
pub fn steps_keep_to_their_places()
    ensures { (p : Program) (k : Leaf) (a : Contents) (u : Tree) (b c : Contents)
        → leaf_step p k.rest k a ≡ Some (u, b)
        → ((q : Place) → Member q (next_reads k a) → read a q ≡ read c q)
        → SameStep p k a u b c }
{}

/// States that if two leaves may step in a tree that a run of an accepted program reaches, each
/// still may after a step of the other, and both orders give the same tree and store.
pub fn steps_commute()
    ensures { (p : Program) → IsSound p → IsAccepted p
        → (input : Contents) (t : Tree) (a : Contents) → Reachable p input t a
        → (m n : ℕ) → m < n → (u v : Tree) (b c : Contents)
        → step p m t a ≡ Some (u, b) → step p n t a ≡ Some (v, c)
        → Commutes p m n t u b v c }
{}

/// States that if one run of an accepted program ends after n steps, every run can continue to the
/// same end, and ends there after n steps. This end is the one-thread outcome with n steps and nest
/// n, and under every larger budget.
pub fn runs_end_as_one_thread()
    ensures alike { (p : Program) → IsSound p → IsAccepted p
        → (input : Contents) (n : ℕ) (t : Tree) (a : Contents)
        → Runs p n (first_tree p) input t a → all_done t ≡ true
        → (m : ℕ) (u : Tree) (b : Contents) → Runs p m (first_tree p) input u b
        → GoesOn p m n u b t a }
    ensures one_thread { (p : Program) → IsSound p → IsAccepted p
        → (input : List (List ℤ)) (n : ℕ) (t : Tree) (a : Contents)
        → Runs p n (first_tree p) (held_by input) t a → all_done t ≡ true
        → (b : Budget) → IsLarger b (record { steps = n; nest = n })
        → outcome p input b ≡ Ended (tree_ending p t a) }
{}

/// States that the result of given choices is the result of a run with as many steps, and that some
/// choices lead to each run. An `Ended` result is the one-thread outcome, for all choices if the
/// program is accepted, and for every program with lawful `parts` if the first leaf always steps.
/// Every sound program has lawful `parts`, and so has every program without a `parts`.
///
/// The tree tests whether a turn is left before the block of the turn before it, and the one-thread
/// meaning tests it after that block. Both find the same if the block doesn't give the name of the
/// section to another window.
pub fn choices_tell_of_runs()
    ensures ends { (p : Program) (input : List (List ℤ)) (choices : List ℕ) (o : Outcome)
        → explored p input choices ≡ Ends o
        → EndsBy p (length choices) (first_tree p) (held_by input) o }
    ensures open { (p : Program) (input : List (List ℤ)) (choices : List ℕ) (leaves : ℕ)
        → explored p input choices ≡ Open leaves
        → OpensBy p (length choices) (first_tree p) (held_by input) leaves }
    ensures missing { (p : Program) (input : List (List ℤ)) (choices : List ℕ) (n : ℕ)
        → explored p input choices ≡ NoSuchChoice n
        → MissesBy p choices n (first_tree p) (held_by input) }
    ensures chosen { (p : Program) (n : ℕ) (t u : Tree) (a b : Contents)
        → Runs p n t a u b → Chosen p n t a u b }
    ensures accepted { (p : Program) → IsSound p → IsAccepted p
        → (input : List (List ℤ)) (choices : List ℕ) (o : Outcome)
        → explored p input choices ≡ Ends o
        → (b : Budget) → IsLarger b (record { steps = length choices; nest = length choices })
        → outcome p input b ≡ o }
    ensures sound { (p : Program) → IsSound p → HasLawfulParts p }
    ensures first { (p : Program) → HasLawfulParts p
        → (input : List (List ℤ)) (n : ℕ) (o : Outcome)
        → explored p input (replicate n 0) ≡ Ends o
        → (b : Budget) → IsLarger b (record { steps = n; nest = n }) → outcome p input b ≡ o }
{}

/// States that if two leaves of one tree are about to run two labels, these labels may run
/// together, for every program in whose text no `parts` has begun. What a begun `parts` may do
/// isn't among what statements may do, because it is a statement of runs only.
pub fn labels_of_leaves_meet()
    ensures { (p : Program) → AreTexts p
        → (input : Contents) (t : Tree) (a : Contents) → Reachable p input t a
        → (m n : ℕ) → m ≢ n
        → (j k : Leaf) → leaf_at m t ≡ Some j → leaf_at n t ≡ Some k
        → (x y : ℕ) → StandsBefore j x → StandsBefore k y → LabelsMeet p x y }
{}

/// States that in a tree that a run of an accepted program reaches, the environment of each leaf
/// that may step fits. In each `t then <k>`, the environment of the owner of `t`, with which `<k>`
/// continues, has the windows of `<k>` for all names in scope there. So it is as if only the
/// scalars were passed on.
pub fn environments_stay_fit()
    ensures leaf { (p : Program) → IsSound p → IsAccepted p
        → (input : Contents) (t : Tree) (a : Contents) → Reachable p input t a
        → (n : ℕ) (k : Leaf) → leaf_at n t ≡ Some k → LeafFits p k }
    ensures owner { (p : Program) → IsSound p → IsAccepted p
        → (input : Contents) (v : Tree) (a : Contents) → Reachable p input v a
        → (t : Tree) (k : Leaf) → ThenIn t k v → OwnerKeeps p t k }
{}

/// States that if a list of choices ends a run, each list that it begins with leads to its outcome, and
/// nothing follows; or to a tree in which the next choice names a task that may step.
pub fn lists_go_on()
    ensures { (p : Program) (input : List (List ℤ)) (choices further : List ℕ) (o : Outcome)
        → standing p input (choices ++ further) ≡ HasEnded o
        → EndsBeyond (standing p input choices) further o }
{}
