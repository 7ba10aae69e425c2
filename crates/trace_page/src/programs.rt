//! The program, and the settings of its run.

ghost use Rattle.std.specs.Prelude.{◌≡◌, IfOk, map};
ghost use Rattle.serde_json.specs.View.{view};
ghost use Rattle.types.specs.Translation.{array as array_of, input as lists_in};
ghost use Rattle.trace_page.specs.Pieces.{list_by};
ghost use Rattle.trace_page.specs.Programs.{ArePlaces, array_json, element_text, header_json, initial_json};
ghost use Rattle.trace_page.specs.Programs.{is_blank as is_blank_list, summary_json};

use crate::told::{Told, list};
use serde_json::{Value, json};
use statement_places::statement_places;
use std::alloc::{AllocError, Global};
use syntax::TextPlace;
use syntax::parser::MOST_BYTES;
use syntax_tree::tree::ElementType;
use trace_numbers::summary::TraceSummary;
use trace_text::header::Header;
use types::code::Array;
use types::input::Input;

/// Returns the settings of a run: `{"nest":8,"steps":100,"w0":1024,"workers":4}`.
pub fn header_value(alloc: Global, header: &Header) -> Result<Value, AllocError>
    ensures { IfOk result (λ v. view v ≡ header_json header.now) }
{
    json!(in alloc; {
        "nest": header.budget.nest,
        "steps": header.budget.steps,
        "w0": header.w0,
        "workers": header.workers,
    })
}

/// Returns the declared arrays: `[{"element":"int","length":2,"name":"a"}]`.
pub fn arrays_value(alloc: Global, arrays: &[Array]) -> Result<Value, AllocError>
    ensures { IfOk result (λ v. view v ≡ list_by array_json (map array_of arrays.now)) }
{
    list(alloc, arrays)
}

impl Told for Array {
    ghost use Rattle.types.specs.Translation.{array};
    ghost use Rattle.trace_page.specs.Programs.{array_json};

    ghost json = { λ a. array_json (array a) };

    fn value(&self, alloc: Global) -> Result<Value, AllocError> {
        json!(in alloc; {
            "element": element_name(self.element),
            "length": self.length,
            "name": &self.name,
        })
    }
}

/// Returns the name of a type of elements.
fn element_name(element: ElementType) -> &'static str
    ensures { result.now ≡ element_text element }
{
    match element {
        ElementType::Int => "int",
        ElementType::Byte => "byte",
    }
}

/// Returns the contents of the arrays at the start: `[[3,4],[]]`, if all numbers of the second one
/// are 0.
pub fn initial_value(alloc: Global, input: &Input) -> Result<Value, AllocError>
    ensures { IfOk result (λ v. view v ≡ list_by initial_json (lists_in input.now)) }
{
    list(alloc, &input.arrays)
}

impl Told for Vec<i64> {
    ghost use Rattle.trace_page.specs.Programs.{initial_json};

    ghost json = { λ numbers. initial_json numbers.items };

    fn value(&self, alloc: Global) -> Result<Value, AllocError> {
        if is_blank(self) {
            return Ok(Value::Array(Vec::new(alloc)));
        }
        list(alloc, self)
    }
}

/// Returns whether all numbers are 0.
fn is_blank(numbers: &[i64]) -> bool
    ensures { result ≡ is_blank_list numbers.now }
{
    for number in numbers {
        if *number != 0 {
            return false;
        }
    }
    true
}

/// Returns where the statements of a text's program start. A longer text spells no program: it is an
/// error.
pub fn places_in(alloc: Global, text: &str) -> Result<Vec<TextPlace>, AllocError>
    ensures { IfOk result (λ places. ArePlaces text.now places.items) }
{
    if text.len() > MOST_BYTES {
        return Err(AllocError);
    }
    match statement_places(alloc, text) {
        Ok(places) => Ok(places),
        Err(_) => Err(AllocError),
    }
}

impl Told for TextPlace {
    ghost use Rattle.trace_page.specs.Programs.{place_json};

    ghost json = { place_json };

    fn value(&self, alloc: Global) -> Result<Value, AllocError> {
        json!(in alloc; [self.line, self.column])
    }
}

/// Returns the numbers of `view --summary`.
pub fn summary_value(alloc: Global, summary: &TraceSummary) -> Result<Value, AllocError>
    ensures { IfOk result (λ v. view v ≡ summary_json summary.now) }
{
    json!(in alloc; {
        "deepest_nest": summary.deepest_nest,
        "most_live_tasks": summary.most_tasks,
        "replenishments": summary.replenishings,
        "span": summary.span,
        "steals": summary.steals,
        "steps": summary.steps,
        "steps_by_worker": list(alloc, &summary.by_worker)?,
        "tasks": summary.tasks,
    })
}
