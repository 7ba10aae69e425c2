//! What an event changes.

ghost use Rattle.std.specs.Prelude.{◌≡◌, IfOk};
ghost use Rattle.serde_json.specs.View.{view};
ghost use Rattle.trace_page.specs.Changes.{change_json, flow_letter};

use crate::told::{Told, list};
use sections::window::{Place, Window};
use serde_json::{Value, json};
use statement_steps::flow::Flow;
use std::alloc::{AllocError, Global};
use types::fault::FaultKind;

/// A weight or a book that an event changes.
#[derive(Drop)]
pub enum WeightChange {
    /// The weight of the event's task in its innermost scope: `["w",512]`.
    Weight(u64),
    /// The weight of the task that it spawns: `["c",512]`.
    ChildWeight(u64),
    /// The book of the scope that it concerns: `["b",1024,512]`.
    Book { issued: u64, returned: u64 },
}

/// What an event changes in the state of its task.
#[derive(Drop)]
pub enum ValueChange {
    /// A scalar in its task's frame: `["x",0,-7]`.
    Scalar { slot: usize, value: i64 },
    /// A section in its task's frame, with its array, first element and length: `["s",2,0,16,8]`.
    Section { number: usize, window: Window },
    /// Whether its task continues: `["f","f"]`.
    Flows(Flow),
    /// An element that it has stored, with its array and index: `["e",0,5,-7]`.
    Store { place: Place, value: i64 },
    /// A line that it has printed: `["p",[7,8]]`.
    Line(Vec<i64>),
    /// Its fault: `["q","F6 3"]`.
    Fault(FaultKind),
    /// The number of faults that its finish has gathered: `["g",2]`.
    Gathered(usize),
    /// Elements that the task starts with that it spawns, and whether it owns them:
    /// `["n",true,0,16,8]`.
    Given { may_write: bool, window: Window },
}

impl Told for WeightChange {
    ghost use Rattle.trace_page.specs.Changes.{weight_json};

    ghost json = { weight_json };

    fn value(&self, alloc: Global) -> Result<Value, AllocError> {
        match self {
            WeightChange::Weight(own) => json!(in alloc; ["w", *own]),
            WeightChange::ChildWeight(weight) => json!(in alloc; ["c", *weight]),
            WeightChange::Book { issued, returned } => json!(in alloc; ["b", *issued, *returned]),
        }
    }
}

impl Told for ValueChange {
    ghost use Rattle.trace_page.specs.Changes.{change_json};

    ghost json = { change_json };

    fn value(&self, alloc: Global) -> Result<Value, AllocError> {
        match self {
            ValueChange::Scalar { slot, value } =>
                json!(in alloc; ["x", *slot, value.value(alloc)?]),
            ValueChange::Section { number, window } => json!(in alloc; [
                "s", *number, window.array.number, window.at, window.len
            ]),
            ValueChange::Flows(flow) => json!(in alloc; ["f", letter_of(*flow)]),
            ValueChange::Store { place, value } => json!(in alloc; [
                "e", place.array.number, place.index, value.value(alloc)?
            ]),
            ValueChange::Line(values) => json!(in alloc; ["p", list(alloc, values)?]),
            ValueChange::Fault(kind) => fault_value(alloc, *kind),
            ValueChange::Gathered(faults) => gathered_value(alloc, *faults),
            ValueChange::Given { may_write, window } => given_value(alloc, *may_write, *window),
        }
    }
}

/// Returns the value of a fault.
fn fault_value(alloc: Global, kind: FaultKind) -> Result<Value, AllocError>
    ensures { IfOk result (λ v. view v ≡ change_json (ValueChange.Fault kind)) }
{
    json!(in alloc; ["q", format!(in alloc; "{kind}")?])
}

/// Returns the value of a number of faults.
fn gathered_value(alloc: Global, faults: usize) -> Result<Value, AllocError>
    ensures { IfOk result (λ v. view v ≡ change_json (ValueChange.Gathered faults)) }
{
    json!(in alloc; ["g", faults])
}

/// Returns the value of elements that a child starts with.
fn given_value(alloc: Global, may_write: bool, window: Window) -> Result<Value, AllocError>
    ensures { IfOk result (λ v. view v ≡ change_json (ValueChange.Given may_write window)) }
{
    json!(in alloc; ["n", may_write, window.array.number, window.at, window.len])
}

/// Returns the letter of a flow.
fn letter_of(flow: Flow) -> &'static str
    ensures { result.now ≡ flow_letter flow }
{
    match flow {
        Flow::On => "o",
        Flow::Faulted => "f",
        Flow::Stopped => "s",
    }
}
