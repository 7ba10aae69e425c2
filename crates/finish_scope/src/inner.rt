//! The state of a scope, under its lock.

ghost use Rattle.std.specs.Prelude.{◌≡◌, ◌≢◌, ◌+◌, ◌<◌, ◌≤◌, ◌⊎◌, ◌↔◌, IfErr, IfNone, IfOk};
ghost use Rattle.std.specs.Prelude.{IfSome, None, OnErr, OnOk};
ghost use Rattle.weights.specs.Ledger.{issued_of, returned_of};
ghost use Rattle.finish_scope.specs.Own.{IsOwnPassing, IsOwnResting, IsOwnScope, IsResultOfRun};
ghost use Rattle.finish_scope.specs.Scopes.{Cannot, Counts, Keeps, Mints, Parks, Passes, TakesBack};
ghost use Rattle.finish_scope.specs.Scopes.{IsEven, IsOwnerless, IsUndue, out_of, given_by};
ghost use Rattle.finish_scope.specs.Scopes.{scope_at_opening};

use crate::causes::{Ownerless, Spent, Undue};
use crate::late::{Late, Reason};
use crate::resting::{Passing, Resting};
use crate::running::Running;
use std::alloc::Global;
use std::marker::{Model, PhantomData};
use std::sync::Mutex;
use task_run::result::TaskResult;
use types::path::Path;
use weights::book::{Back, Book, MOST_ISSUES};
use weights::weight::Weight;

/// A scope that threads share.
pub type Scope<'p, J> = Mutex<Inner<'p, J>>;

/// The state of a scope, under its lock.
#[derive(Drop)]
pub struct Inner<'p, J: Running> {
    book: Book,
    /// The results that have arrived, the oldest first.
    results: Vec<TaskResult>,
    owner: Option<Resting<'p>>,
    /// There was no memory for a result, or for the entry of a weight.
    marked: bool,
    of: PhantomData<J>,
}

impl<'p, J: Running> Model for Inner<'p, J> {
    ghost use Rattle.std.specs.Coded.{codes};
    ghost use Rattle.finish_scope.specs.Own.{IsOwnScope};
    ghost use Rattle.finish_scope.specs.Scopes.{Standing};
    ghost use denote.Signature.{static_lft};
    ghost use Rattle.finish_scope.specs.contracts.resting.Resting as resting;

    ghost Value = { Standing };

    ghost coded = { Prim.hlevel (codes, (resting.the_row static_lft).coded) };

    ghost view = { λ s. record {
      book = s.book;
      results = s.results.items;
      owner = s.owner;
      marked = s.marked;
    } };

    ghost invariant = { λ s. IsOwnScope J.job s.results.items s.owner };
}

impl<'p, J: Running> Inner<'p, J> {
    /// Returns a scope at its opening, and the first weight that it issues.
    pub fn open(alloc: Global, w0: u64) -> (Inner<'p, J>, Weight)
        requires { (1 ≤ w0) × (w0 ≤ 4294967296) }
        ensures scope { result.0 ≡ scope_at_opening w0 }
        ensures weight { result.1 ≡ w0 }
    {
        let (book, weight) = Book::open(alloc, w0);
        let inner = Inner {
            book,
            results: Vec::new(alloc),
            owner: None,
            marked: false,
            of: PhantomData,
        };
        (inner, weight)
    }

    /// Returns the amount of weight that is out.
    pub fn out(&self) -> u64
        ensures out { result ≡ out_of self.now }
        ensures within { returned_of self.now.book ≤ issued_of self.now.book }
    {
        self.book.issued() - self.book.returned()
    }

    /// Returns whether memory ran out for a result, or for the entry of a weight.
    pub fn marked(&self) -> bool
        ensures marked { result ≡ self.now.marked }
        ensures of_run { IsOwnScope J.job self.now.results self.now.owner }
    {
        self.marked
    }

    /// Issues more weight, in addition to one that is out.
    pub fn replenish(&mut self, weight: Weight) -> Result<Weight, Late<Reason, Weight>>
        ensures book { OnOk result (Mints self.old self.new weight) }
        ensures weight { IfOk result (λ w. w ≡ weight + self.old.book.w0) }
        ensures enough { IfOk result (λ w. 2 ≤ w) }
        ensures case { IfErr result (λ l. Cannot self.old weight l.reason) }
        ensures back { IfErr result (λ l. l.back ≡ weight) }
        ensures same { OnErr result (self.new ≡ self.old) }
        ensures of_run { OnErr result (IsOwnScope J.job self.old.results self.old.owner) }
    {
        let out = self.out();
        if weight.units() > out {
            let cause = Undue {
                given: weight.units(),
                out,
                second_owner: false,
            };
            return Err(Late {
                reason: Reason::NotDue(cause),
                back: weight,
            });
        }
        let issues = self.book.issues();
        if issues == MOST_ISSUES {
            return Err(Late {
                reason: Reason::IssuedTooOften(Spent { issues }),
                back: weight,
            });
        }
        Ok(self.book.mint(weight))
    }

    /// Takes back the weight of a task that has finished, with its result.
    pub fn give_back(
        &mut self,
        weight: Weight,
        made: TaskResult,
    ) -> Result<Back, Late<Undue, (Weight, TaskResult)>>
        requires own { IsResultOfRun J.job made }
        ensures takes { OnOk result (TakesBack self.old self.new (given_by made weight) made) }
        ensures complete { IfOk result (λ b. (b ≡ Back.Complete) ↔ IsEven self.new) }
        ensures case { OnErr result (out_of self.old < weight) }
        ensures reason { IfErr result (λ l. IsUndue self.old weight l.reason) }
        ensures back { IfErr result (λ l. (l.back.0 ≡ weight) × (l.back.1 ≡ made)) }
        ensures same { OnErr result (self.new ≡ self.old) }
        ensures of_run { OnErr result (IsOwnScope J.job self.old.results self.old.owner) }
    {
        // For the proof: the scope is used, so what it holds is of the run.
        let _ = &self.book;
        let out = self.out();
        if out < weight.units() {
            let reason = Undue {
                given: weight.units(),
                out,
                second_owner: false,
            };
            return Err(Late {
                reason,
                back: (weight, made),
            });
        }
        let back = self.count(weight, &made.path);
        self.keep(made);
        Ok(back)
    }

    /// Takes back the weight of a task at the end of its finish, or of `main`, and parks that task
    /// as the owner.
    pub fn park(
        &mut self,
        weight: Weight,
        owner: Resting<'p>,
    ) -> Result<Back, Late<Undue, (Weight, Resting<'p>)>>
        requires own { IsOwnResting J.job owner }
        ensures parks { OnOk result (Parks self.old self.new
            (given_by owner.entry.parked.value.made weight) owner.entry) }
        ensures complete { IfOk result (λ b. (b ≡ Back.Complete) ↔ IsEven self.new) }
        ensures case { OnErr result ((out_of self.old < weight) ⊎ (self.old.owner ≢ None)) }
        ensures reason { IfErr result (λ l. IsUndue self.old weight l.reason) }
        ensures back { IfErr result (λ l. (l.back.0 ≡ weight) × (l.back.1 ≡ owner.entry)) }
        ensures same { OnErr result (self.new ≡ self.old) }
        ensures of_run { OnErr result (IsOwnScope J.job self.old.results self.old.owner) }
    {
        let out = self.out();
        let second_owner = self.owner.is_some();
        if second_owner || out < weight.units() {
            let reason = Undue {
                given: weight.units(),
                out,
                second_owner,
            };
            return Err(Late {
                reason,
                back: (weight, owner),
            });
        }
        let back = self.count(weight, owner.parked.path());
        self.owner = Some(owner);
        Ok(back)
    }

    /// Removes the owner, with all results, once all weight is back. Returns None if weight is out
    /// or nobody is parked; after the scope has passed, nobody is.
    pub fn resume(&mut self) -> Option<Passing<'p>>
        ensures own { IfSome result (IsOwnPassing J.job) }
        ensures passes { IfSome result (Passes self.old self.new) }
        ensures none { IfNone result ((self.old.owner ≡ None) ⊎ (IsEven self.old → ⊥)) }
        ensures same { IfNone result (self.new ≡ self.old) }
        ensures of_run { IfNone result (IsOwnScope J.job self.old.results self.old.owner) }
    {
        if self.out() > 0 {
            return None;
        }
        let owner = self.owner.take()?;
        let none = Vec::new(owner.parked.job.alloc);
        let results = std::mem::replace(&mut self.results, none);
        Some(Passing { owner, results })
    }

    /// Returns the cause for a run that ends because nobody is parked, though all weight is back.
    pub fn ownerless(&self) -> Ownerless
        requires even { IsEven self.now }
        requires nobody { self.now.owner ≡ None }
        ensures { IsOwnerless self.now result }
    {
        Ownerless {
            issued: self.book.issued(),
            returned: self.book.returned(),
        }
    }

    /// Counts a weight that came back. If there is no memory for its entry, the scope is marked.
    fn count(&mut self, weight: Weight, path: &Path) -> Back
        requires out { weight ≤ out_of self.old }
        ensures counts { Counts self.old self.new (record {
          path = path.now.turns.items;
          weight = weight;
        }) }
        ensures complete { (result ≡ Back.Complete) ↔ IsEven self.new }
    {
        let some = weight.units();
        let before = self.book.unlisted();
        let back = self.book.back(weight, path);
        if some > 0 && self.book.unlisted() != before {
            self.marked = true;
        }
        back
    }

    /// Keeps a result. If there is no memory for it, the scope is marked.
    fn keep(&mut self, made: TaskResult)
        requires own { IsResultOfRun J.job made }
        ensures { Keeps self.old self.new made }
    {
        if self.results.push(made).is_err() {
            self.marked = true;
        }
    }
}
