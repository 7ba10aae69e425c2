//! One step of a leaf.

ghost use Rattle.std.specs.Prelude.{◌≡◌, false, map, IfOk, OnOk};
ghost use Rattle.sections.specs.Translation.{section as section_of};
ghost use Rattle.types.specs.Code.{Async, Call, Do, If, Parts, Split, While};
ghost use Rattle.types.specs.Translation.{code as code_of, codes as codes_of, environment as environment_of};
ghost use Rattle.types.specs.Translation.{number as number_of, primitive as primitive_of};
ghost use Rattle.types.specs.Translation.{truth as truth_of};
ghost use Rattle.types.specs.Trees.{and_then, before_rest, done as done_leaf};
ghost use Rattle.types.specs.Trees.{held_back, inside as inside_leaf, is_done};
ghost use Rattle.types.specs.Trees.{returned as returned_leaf, single, Single};
ghost use Rattle.statement_steps.specs.Leading.{Body, next_of};
ghost use Rattle.statement_steps.specs.Standing.{flow as flow_of};
ghost use Rattle.statement_steps.specs.Turns.{begun};
ghost use Rattle.step_trees.specs.Translation.{handler_of, leaf_of, next_label, next_code};
ghost use Rattle.step_trees.specs.Turns.{leaf_in, store_in, becomes_by, Comes, After, IsLoopOf};
ghost use Rattle.step_trees.specs.Turns.{IsReady, Steps};
ghost use Rattle.step_trees.specs.Turns.{MayTurn};

use crate::leaf::{Caller, Handler, Leaf, Waiting, done, returned};
use crate::rest::{NextStep, RestOfBlock, begin, begin_turns, block_alone, enter, next};
use sections::id::SectionId;
use statement_steps::control::Called;
use statement_steps::flow::Flow;
use statement_steps::next::Next;
use statement_steps::store::Store;
use statement_steps::thread::{Plan, Thread};
use statement_steps::turns::TurnsToCome;
use std::alloc::{AllocError, Global};
use types::child_number::ChildNumber;
use types::code::{Label, Number, Pieces, Primitive, Sides, Stmt, StmtKind, Truth};
use types::ids::ProcedureId;
use types::path::Path;
use types::value::Environment;

/// What a leaf becomes in one step.
#[derive(Drop)]
pub enum Becomes<'p> {
    /// A leaf that continues or is done.
    Single(Leaf<'p>),
    /// The body of an async, in parallel with its parent.
    Spawned { child: Leaf<'p>, parent: Leaf<'p> },
    /// The body of a finish, and the leaf that waits for its end.
    Entered { body: Leaf<'p>, behind: Waiting<'p> },
}

/// A leaf that has the store during its step.
#[derive(Drop)]
pub struct LeafTurn<'p> {
    pub plan: Plan<'p>,
    pub thread: Thread<Store>,
    pub rest: Vec<RestOfBlock<'p>>,
    pub callers: Vec<Caller<'p>>,
}

/// Executes one step of a leaf that isn't done.
pub fn step<'p>(
    plan: Plan<'p>,
    store: Store,
    leaf: Leaf<'p>,
) -> Result<(Becomes<'p>, Store), AllocError>
    requires left { is_done (leaf_of leaf).rest ≡ false }
    requires bounds { MayTurn plan store leaf }
    ensures { IfOk result (Steps plan.entry store leaf.entry) }
{
    let mut leaf = leaf;
    let first = next(&mut leaf.rest)?;
    let thread = Thread {
        flow: Flow::On,
        store,
        lines: leaf.lines,
        faults: leaf.faults,
        path: leaf.path,
        spawned: leaf.spawned,
        environment: leaf.environment,
        steps: 0,
        nest: 0,
        spare: Vec::new(plan.alloc),
    };
    let turn = LeafTurn {
        plan,
        thread,
        rest: leaf.rest,
        callers: leaf.callers,
    };
    match first {
        None => Ok(going(turn)),
        Some(step) => perform(turn, step),
    }
}

/// Executes what is next.
fn perform<'p>(turn: LeafTurn<'p>, step: NextStep<'p>) -> Result<(Becomes<'p>, Store), AllocError>
    requires { IsReady turn }
    ensures { IfOk result (After turn.entry (next_label step.entry) (next_code step.entry)) }
{
    match step {
        NextStep::Statement(stmt) => statement(turn, stmt),
        NextStep::Turn(turns) => next_turn(turn, turns),
    }
}

/// Executes a statement.
fn statement<'p>(turn: LeafTurn<'p>, stmt: &'p Stmt) -> Result<(Becomes<'p>, Store), AllocError>
    requires { IsReady turn }
    ensures { IfOk result (After turn.entry stmt.entry.now.label (code_of stmt.entry.now.kind)) }
{
    match &stmt.kind {
        StmtKind::Do(statement) => primitive(turn, stmt.label, statement),
        StmtKind::If { guard, body, other } => choose(turn, stmt, guard, body, other),
        StmtKind::While { guard, body } => turn_loop(turn, stmt, guard, body),
        StmtKind::Split { sides, body } => split(turn, stmt, sides, body),
        StmtKind::Parts { pieces, body } => parts(turn, stmt, pieces, body),
        StmtKind::Call {
            procedure,
            values,
            sections,
        } => call(turn, stmt, *procedure, values, sections),
        StmtKind::Async { body } => begin_async(turn, body),
        StmtKind::Finish { body } => begin_finish(turn, body, None),
        StmtKind::Rescue {
            body,
            faults,
            handler,
        } => {
            let handler = Handler {
                faults: *faults,
                block: handler,
            };
            begin_finish(turn, body, Some(handler))
        }
    }
}

/// Executes a statement of one step.
fn primitive<'p>(
    mut turn: LeafTurn<'p>,
    label: Label,
    primitive: &Primitive,
) -> Result<(Becomes<'p>, Store), AllocError>
    requires { IsReady turn }
    ensures { IfOk result (After turn.entry label (Do (primitive_of primitive.now))) }
{
    let plan = turn.plan;
    turn.thread.primitive(plan, label, primitive)?;
    match turn.thread.flow {
        Flow::On => Ok(going(turn)),
        Flow::Faulted | Flow::Stopped => Ok(ended(turn)),
    }
}

/// Enters one of two blocks, depending on the condition.
#[inline(never)]
fn choose<'p>(
    mut turn: LeafTurn<'p>,
    stmt: &'p Stmt,
    guard: &Truth,
    body: &'p [Stmt],
    other: &'p [Stmt],
) -> Result<(Becomes<'p>, Store), AllocError>
    requires ready { IsReady turn }
    requires same { code_of stmt.now.kind ≡ If (truth_of guard.now) (codes_of body.now)
        (codes_of other.now) }
    ensures { IfOk result (After turn.entry stmt.entry.now.label (code_of stmt.entry.now.kind)) }
{
    let plan = turn.plan;
    let next = turn.thread.choose(plan, stmt.label, guard, body, other)?;
    take(turn, stmt, next)
}

/// Evaluates the condition of a loop. If it is true, enters the body and then the loop again.
#[inline(never)]
fn turn_loop<'p>(
    mut turn: LeafTurn<'p>,
    stmt: &'p Stmt,
    guard: &'p Truth,
    body: &'p [Stmt],
) -> Result<(Becomes<'p>, Store), AllocError>
    requires ready { IsReady turn }
    requires same { code_of stmt.now.kind ≡ While (truth_of guard.now) (codes_of body.now) }
    ensures { IfOk result (After turn.entry stmt.entry.now.label (code_of stmt.entry.now.kind)) }
{
    let plan = turn.plan;
    let next = turn.thread.turn_loop(plan, stmt.label, guard, body)?;
    take(turn, stmt, next)
}

/// Enters a block in which both sides of a section have names.
#[inline(never)]
fn split<'p>(
    mut turn: LeafTurn<'p>,
    stmt: &'p Stmt,
    sides: &Sides,
    body: &'p [Stmt],
) -> Result<(Becomes<'p>, Store), AllocError>
    requires ready { IsReady turn }
    requires same { code_of stmt.now.kind ≡ Split sides.now.section.number (number_of sides.now.at)
        sides.now.left.number sides.now.right.number (codes_of body.now) }
    ensures { IfOk result (After turn.entry stmt.entry.now.label (code_of stmt.entry.now.kind)) }
{
    let plan = turn.plan;
    let next = turn.thread.split(plan, stmt.label, sides, body)?;
    take(turn, stmt, next)
}

/// Evaluates the size of the pieces of a `parts`, whose turns run first.
#[inline(never)]
fn parts<'p>(
    mut turn: LeafTurn<'p>,
    stmt: &'p Stmt,
    pieces: &Pieces,
    body: &'p [Stmt],
) -> Result<(Becomes<'p>, Store), AllocError>
    requires ready { IsReady turn }
    requires same { code_of stmt.now.kind ≡ Parts pieces.now.section.number
        (number_of pieces.now.size) pieces.now.piece.number pieces.now.turn.number
        (codes_of body.now) }
    ensures { IfOk result (After turn.entry stmt.entry.now.label (code_of stmt.entry.now.kind)) }
{
    let plan = turn.plan;
    let next = turn.thread.begin_turns(plan, stmt.label, pieces, body)?;
    take(turn, stmt, next)
}

/// Evaluates the arguments of a call, and enters the procedure's body.
#[inline(never)]
fn call<'p>(
    mut turn: LeafTurn<'p>,
    stmt: &'p Stmt,
    procedure: ProcedureId,
    values: &'p [Number],
    sections: &'p [SectionId],
) -> Result<(Becomes<'p>, Store), AllocError>
    requires ready { IsReady turn }
    requires same { code_of stmt.now.kind ≡ Call procedure.number (map number_of values.now)
        (map section_of sections.now) }
    ensures { IfOk result (After turn.entry stmt.entry.now.label (code_of stmt.entry.now.kind)) }
{
    let plan = turn.plan;
    let called = Called::of(plan, procedure, values, sections);
    let room = no_room(plan.alloc);
    let next = turn.thread.call(plan, stmt.label, called, room)?;
    take(turn, stmt, next)
}

/// Goes on with what comes next after a statement.
#[inline(always)]
fn take<'p>(
    mut turn: LeafTurn<'p>,
    stmt: &'p Stmt,
    next: Next<'p>,
) -> Result<(Becomes<'p>, Store), AllocError>
    requires { IsLoopOf stmt.now.label (code_of stmt.now.kind) (next_of next) }
    ensures { IfOk result (Comes (becomes_by (next_of next.entry) (flow_of turn.entry.thread.flow)
        (leaf_in turn.entry)) (store_in turn.entry) turn.entry) }
{
    match next {
        Next::Nothing => match turn.thread.flow {
            Flow::On => Ok(going(turn)),
            Flow::Faulted | Flow::Stopped => Ok(ended(turn)),
        },
        Next::Block(block) => enters(turn, block),
        Next::Iteration {
            label: _,
            guard: _,
            body,
        } => {
            begin(&mut turn.rest, stmt)?;
            enters(turn, body)
        }
        Next::Turns(turns) => {
            let window = turn.thread.environment.window(turns.section);
            begin_turns(&mut turn.rest, turns, window)?;
            Ok(going(turn))
        }
        Next::Body { body, caller } => calls(turn, body, caller),
    }
}

/// Starts a call, in whose environment the leaf is. The caller's environment comes back after it.
#[inline(always)]
fn calls<'p>(
    mut turn: LeafTurn<'p>,
    body: &'p [Stmt],
    caller: Environment,
) -> Result<(Becomes<'p>, Store), AllocError>
    ensures { IfOk result (Comes (becomes_by (Body (codes_of body.entry.now) (environment_of caller))
        (flow_of turn.entry.thread.flow) (leaf_in turn.entry)) (store_in turn.entry) turn.entry) }
{
    let body = block_alone(turn.plan.alloc, body)?;
    let rest = std::mem::replace(&mut turn.rest, body);
    turn.callers.push(Caller {
        environment: caller,
        rest,
    })?;
    Ok(going(turn))
}

/// Returns an environment without room.
fn no_room(alloc: Global) -> Environment {
    Environment {
        scalars: Vec::new(alloc),
        windows: Vec::new(alloc),
    }
}

/// Enters the block of a turn of a `parts`, with its piece. The later turns come after it.
#[inline(never)]
fn next_turn<'p>(
    mut turn: LeafTurn<'p>,
    turns: TurnsToCome<'p>,
) -> Result<(Becomes<'p>, Store), AllocError>
    requires { IsReady turn }
    ensures { IfOk result (After turn.entry turns.entry.label (begun turns.entry)) }
{
    match turns.next_piece(&turn.thread.environment) {
        None => Ok(going(turn)),
        Some(piece) => {
            let window = turn.thread.environment.window(turns.section);
            begin_turns(&mut turn.rest, turns.after_next(), window)?;
            turn.thread.begin_turn(turns, piece)?;
            enters(turn, turns.body)
        }
    }
}

/// Spawns the body of an async in parallel with its parent. The body takes all output so far.
#[inline(never)]
fn begin_async<'p>(turn: LeafTurn<'p>, body: &'p [Stmt]) -> Result<(Becomes<'p>, Store), AllocError>
    ensures { IfOk result (After turn.entry 0 (Async (codes_of body.entry.now))) }
{
    let alloc = turn.plan.alloc;
    let Some(spawned) = turn.thread.spawned.checked_add(1) else {
        return Err(AllocError);
    };
    let number = ChildNumber::after(turn.thread.spawned);
    let path = turn.thread.path.child(number)?;
    let (mut parent, store) = apart(turn);
    let child = inside(alloc, &mut parent, body, path, 0)?;
    parent.spawned = spawned;
    let parent = returned(parent);
    Ok((Becomes::Spawned { child, parent }, store))
}

/// Enters the body of a finish, which takes all output so far, and keeps the leaf that waits for
/// its end.
#[inline(never)]
fn begin_finish<'p>(
    turn: LeafTurn<'p>,
    body: &'p [Stmt],
    handler: Option<Handler<'p>>,
) -> Result<(Becomes<'p>, Store), AllocError>
    ensures { IfOk result (Comes (and_then
        (single (inside_leaf (codes_of body.entry.now) (leaf_in turn.entry)))
        (handler_of handler.entry) (held_back (leaf_in turn.entry)))
        (store_in turn.entry) turn.entry) }
{
    let alloc = turn.plan.alloc;
    let path = turn.thread.path.copied(alloc)?;
    let spawned = turn.thread.spawned;
    let (mut behind, store) = apart(turn);
    let body = inside(alloc, &mut behind, body, path, spawned)?;
    let behind = Waiting {
        leaf: behind,
        handler,
    };
    Ok((Becomes::Entered { body, behind }, store))
}

/// Makes a separate leaf of a block. It takes all output of the leaf that contains the block.
fn inside<'p>(
    alloc: Global,
    around: &mut Leaf<'p>,
    block: &'p [Stmt],
    path: Path,
    spawned: u32,
) -> Result<Leaf<'p>, AllocError>
    ensures inside { IfOk result (λ leaf. leaf_of leaf
        ≡ returned_leaf (record (inside_leaf (codes_of block.entry.now) (leaf_of around.old))
        { path = path.turns.items; spawned = spawned })) }
    ensures around { OnOk result (leaf_of around.new ≡ held_back (leaf_of around.old)) }
{
    let environment = around.environment.copied(alloc)?;
    let rest = block_alone(alloc, block)?;
    Ok(returned(Leaf {
        environment,
        rest,
        callers: Vec::new(alloc),
        path,
        spawned,
        lines: std::mem::replace(&mut around.lines, Vec::new(alloc)),
        faults: std::mem::replace(&mut around.faults, Vec::new(alloc)),
    }))
}

// ---- the end of a step

/// Continues with a block that runs first.
#[inline(always)]
fn enters<'p>(mut turn: LeafTurn<'p>, block: &'p [Stmt]) -> Result<(Becomes<'p>, Store), AllocError>
    ensures { IfOk result (Comes (single (before_rest (codes_of block.entry.now) (leaf_in turn.entry)))
        (store_in turn.entry) turn.entry) }
{
    enter(&mut turn.rest, block)?;
    Ok(going(turn))
}

/// Returns the leaf, which continues, and the store.
#[inline(always)]
fn going<'p>(turn: LeafTurn<'p>) -> (Becomes<'p>, Store)
    ensures { Comes (single (leaf_in turn.entry)) (store_in turn.entry) turn.entry result }
{
    let (leaf, store) = apart(turn);
    (Becomes::Single(returned(leaf)), store)
}

/// Returns the leaf, which is done now, and the store.
#[inline(always)]
fn ended<'p>(turn: LeafTurn<'p>) -> (Becomes<'p>, Store)
    ensures { Comes (Single (done_leaf (leaf_in turn.entry))) (store_in turn.entry) turn.entry result }
{
    let alloc = turn.plan.alloc;
    let (leaf, store) = apart(turn);
    (Becomes::Single(done(alloc, leaf)), store)
}

/// Returns the leaf and the store.
#[inline(always)]
fn apart<'p>(turn: LeafTurn<'p>) -> (Leaf<'p>, Store)
    ensures leaf { leaf_of result.0 ≡ leaf_in turn.entry }
    ensures store { result.1 ≡ turn.entry.thread.store }
{
    let LeafTurn {
        plan: _,
        thread,
        rest,
        callers,
    } = turn;
    let Thread {
        flow: _,
        store,
        lines,
        faults,
        path,
        spawned,
        environment,
        steps: _,
        nest: _,
        spare: _,
    } = thread;
    let leaf = Leaf {
        environment,
        rest,
        callers,
        path,
        spawned,
        lines,
        faults,
    };
    (leaf, store)
}
