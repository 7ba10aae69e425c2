//! Theorems about the places that come back, each the contract of an empty function.

ghost use Rattle.std.specs.Prelude.{◌≡◌, ℤ, List};
ghost use Rattle.sections.specs.Place.{Place};
ghost use Rattle.types.specs.Code.{Program};
ghost use Rattle.types.specs.Contents.{FitsArrays};
ghost use Rattle.types.specs.Outcome.{Budget};
ghost use Rattle.types.specs.Run.{State};
ghost use Rattle.effects.specs.Sound.{IsSound};
ghost use Rattle.race_checker.specs.Clash.{IsAccepted};
ghost use Rattle.task_run.specs.Frames.{Standing};
ghost use Rattle.task_run.specs.Lists.{Each};
ghost use Rattle.task_run.specs.OwnRun.{Start, Own, result_of};
ghost use Rattle.task_run.specs.Results.{TaskResult};
ghost use Rattle.task_run.specs.Runs.{IsMadeByTask, MayStand};
ghost use Rattle.task_run.specs.RunTurns.{ComesBack};
ghost use Rattle.task_run.specs.Translation.{owned_by};
ghost use Rattle.task_run.specs.declared.result.Settled.{Settled};
ghost use Rattle.gather.specs.GivesBack.{GiveBack, all_owned};

/// In each configuration that a task of a sound and accepted program can reach, the results of
/// tasks that have ended or that ran whole give back what is listed for these tasks. So its result
/// may be settled with them.
pub fn results_of_tasks_give_back()
    ensures { (p : Program) → IsSound p → IsAccepted p
        → (input : List (List ℤ)) (b : Budget) → FitsArrays p.arrays input
        → (s : Start) (t : Standing Own) → MayStand p input b s t
        → (rs : List TaskResult) → Each (IsMadeByTask p input b) rs
        → GiveBack (result_of t.state) rs }
{}

/// After a finish, a task continues with the places that it owned, and with those that come back.
/// These are all places that are owned once its result is settled.
pub fn settled_places_come_back()
    ensures { (st : State Own) (s : Settled)
        → ((q : Place) → owned_by s.holdings q ≡ all_owned (result_of st) q) → ComesBack s st }
{}
