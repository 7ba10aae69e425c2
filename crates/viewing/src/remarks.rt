//! `view --by-line`: the procedure and the statement of each step of a trace.

ghost use Rattle.std.specs.Prelude.{◌≡◌, slice_index};
ghost use Rattle.viewing.specs.Views.{remark_at};

use crate::statements::labels_of;
use crate::traces::JudgedTrace;
use commands::statements::NamedStatements;
use std::alloc::{AllocError, Global};
use types::code::{Label, Program, Stmt};
use types::typed::Typed;

/// The remarks after the lines of events.
#[derive(Drop)]
pub struct Remarks {
    /// The label of the statement at each event, or 0.
    pub labels: Vec<Label>,
    /// The remark about each statement, by its label; an empty one for 0.
    pub texts: Vec<String>,
}

impl Remarks {
    /// Finds the statements at the events of a trace of a text's program.
    pub fn of(alloc: Global, text: &str, judged: &JudgedTrace) -> Result<Remarks, AllocError> {
        Ok(Remarks {
            labels: labels_of(alloc, judged)?,
            texts: texts_of(alloc, text, judged.given.accepted.typed())?,
        })
    }

    /// Returns the remark about an event.
    pub fn at(&self, event: usize) -> &str
        ensures { result.now ≡ remark_at self.now event }
    {
        match self.texts.get(label_at(&self.labels, event) as usize) {
            None => "",
            Some(text) => text.as_str(),
        }
    }
}

/// Returns the label of the statement at an event, or 0.
fn label_at(labels: &[Label], event: usize) -> Label
    ensures { result ≡ slice_index labels.now event }
{
    labels.get(event).copied().unwrap_or(0)
}

/// Returns the remark about each statement: two spaces, its procedure, and the statement, as in
/// `  main 6:7 label 3  a[0] = 7;`.
fn texts_of(alloc: Global, text: &str, typed: &Typed) -> Result<Vec<String>, AllocError> {
    let statements = NamedStatements::of(alloc, text, typed.program())?;
    let mut texts = Vec::new(alloc);
    texts.push(String::new(alloc))?;
    for number in 0..statements.places.len() {
        let label = Label::try_from(number).unwrap_or(0).saturating_add(1);
        let procedure = procedure_at(typed.code(), label);
        let mut told = format!(in alloc; "  {procedure} ")?;
        statements.push(alloc, &mut told, label)?;
        texts.push(told)?;
    }
    Ok(texts)
}

/// Returns the name of the procedure that has the statement with a label. Labels are in the order of
/// the text, in which `main` comes last.
fn procedure_at(code: &Program, label: Label) -> &str {
    if begins_by(&code.main.body, label) {
        return "main";
    }
    let mut name = "main";
    for procedure in &code.procedures {
        if begins_by(&procedure.body, label) {
            name = procedure.name.as_str();
        }
    }
    name
}

/// Returns whether the first statement of a block has this label or a smaller one.
fn begins_by(body: &[Stmt], label: Label) -> bool {
    match body.first() {
        Some(first) => first.label <= label,
        None => false,
    }
}

/// Returns the number of steps of each statement of a trace, one per line:
/// `6:7 label 3: steps 4  a[0] = 7;`.
pub fn steps_by_line(
    alloc: Global,
    text: &str,
    judged: &JudgedTrace,
) -> Result<String, AllocError> {
    let program = judged.given.accepted.typed().program();
    let statements = NamedStatements::of(alloc, text, program)?;
    let labels = labels_of(alloc, judged)?;
    let counts = counts_of(alloc, &labels, statements.places.len())?;
    let mut told = String::new(alloc);
    for (number, steps) in counts.iter().enumerate() {
        let label = number.saturating_add(1);
        let between = format!(in alloc; "label {label}: steps {steps}")?;
        statements.push_around(&mut told, number, between.as_str())?;
        told.push('\n')?;
    }
    Ok(told)
}

/// Returns how often each of the labels from 1 to this one occurs.
fn counts_of(alloc: Global, labels: &[Label], most: usize) -> Result<Vec<usize>, AllocError> {
    let mut counts: Vec<usize> = Vec::new(alloc);
    for _ in 0..most {
        counts.push(0)?;
    }
    for label in labels {
        let number = usize::try_from(*label).unwrap_or(0);
        if number > 0 {
            if let Some(count) = counts.get_mut(number - 1) {
                *count = count.saturating_add(1);
            }
        }
    }
    Ok(counts)
}
