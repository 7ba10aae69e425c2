//! The evaluation of a statement up to a fault, with the cause of the fault.

use crate::cause::Cause;
use cost::book::Faulty;
use sections::id::{ArrayId, SectionId};
use statement_steps::store::Store;
use statement_steps::thread::Thread;
use types::code::{
    Link, Number, Operator, Pieces, Primitive, Program, Sides, Stmt, StmtKind, Truth,
};
use types::element::holds as fits_in;
use types::fault::FaultKind;
use types::value::{Environment, Places, holds, operate};

/// Returns the cause of a fault of a thread, which has changed nothing since then. Returns None if
/// there is no fault.
pub fn cause_of(program: &Program, thread: &Thread<Store>, faulty: Faulty<'_>) -> Option<Cause> {
    let mut tried = Tried::new(program, thread);
    match faulty {
        Faulty::Guard(guard) => tried.truth(guard).err(),
        Faulty::Statement(stmt) => tried.statement(stmt).err(),
    }
}

/// An evaluator for one statement. It counts the elements and operators that come earlier in the
/// statement's text.
#[derive(Drop)]
struct Tried<'e> {
    program: &'e Program,
    environment: &'e Environment,
    store: &'e Store,
    elements: usize,
    operators: usize,
}

impl<'e> Tried<'e> {
    /// Returns an evaluator before a statement.
    fn new(program: &'e Program, thread: &'e Thread<Store>) -> Tried<'e> {
        Tried {
            program,
            environment: &thread.environment,
            store: &thread.store,
            elements: 0,
            operators: 0,
        }
    }

    // ---- statements

    /// Evaluates the expressions of a statement.
    fn statement(&mut self, stmt: &Stmt) -> Result<(), Cause> {
        match &stmt.kind {
            StmtKind::Do(primitive) => self.primitive(primitive),
            StmtKind::If { guard, .. } | StmtKind::While { guard, .. } => {
                let _ = self.truth(guard)?;
                Ok(())
            }
            StmtKind::Split { sides, .. } => self.split(sides),
            StmtKind::Parts { pieces, .. } => self.parts(pieces),
            StmtKind::Call { values, .. } => self.numbers(values),
            StmtKind::Async { .. } | StmtKind::Finish { .. } | StmtKind::Rescue { .. } => Ok(()),
        }
    }

    /// Evaluates the expressions of a statement of one step.
    fn primitive(&mut self, primitive: &Primitive) -> Result<(), Cause> {
        match primitive {
            Primitive::Skip => Ok(()),
            Primitive::Assign { value, .. } => {
                let _ = self.number(value)?;
                Ok(())
            }
            Primitive::Store {
                section,
                index,
                value,
            } => self.stored(*section, index, value),
            Primitive::Print { values } => self.numbers(values),
            Primitive::Fault { value } => {
                let number = self.number(value)?;
                Err(Cause::Raised(number))
            }
        }
    }

    /// Evaluates a store. An index can cause F1. After that, a value can cause F4.
    fn stored(&mut self, section: SectionId, index: &Number, value: &Number) -> Result<(), Cause> {
        let nth = self.next_element();
        let index = self.number(index)?;
        let value = self.number(value)?;
        let window = self.environment.window(section);
        let Some(place) = window.place(index) else {
            return Err(Cause::Index { nth, index, window });
        };
        let array = place.array;
        if self.fits(array, value) {
            Ok(())
        } else {
            Err(Cause::OutOfElement { array, value })
        }
    }

    /// Returns whether a number fits in an element of an array.
    fn fits(&self, array: ArrayId, value: i64) -> bool {
        match self.program.arrays.get(array.number) {
            Some(array) => fits_in(array.element, value),
            None => true,
        }
    }

    /// Evaluates where a section is split.
    fn split(&mut self, sides: &Sides) -> Result<(), Cause> {
        let point = self.number(&sides.at)?;
        let length = self.environment.window(sides.section).len;
        match usize::try_from(point) {
            Ok(at) if at <= length => Ok(()),
            _ => Err(Cause::SplitPoint { point, length }),
        }
    }

    /// Evaluates the size of the pieces of a `parts`.
    fn parts(&mut self, pieces: &Pieces) -> Result<(), Cause> {
        let size = self.number(&pieces.size)?;
        if size < 1 {
            Err(Cause::PieceSize { size })
        } else {
            Ok(())
        }
    }

    /// Evaluates several expressions.
    fn numbers(&mut self, numbers: &[Number]) -> Result<(), Cause> {
        for number in numbers {
            let _ = self.number(number)?;
        }
        Ok(())
    }

    // ---- expressions

    /// Returns the number of the next element in the text.
    fn next_element(&mut self) -> usize {
        let nth = self.elements;
        self.elements = nth.saturating_add(1);
        nth
    }

    /// Returns the number of the next operator in the text.
    fn next_operator(&mut self) -> usize {
        let nth = self.operators;
        self.operators = nth.saturating_add(1);
        nth
    }

    /// Returns the value of a number expression.
    #[cycle(value)]
    fn number(&mut self, number: &Number) -> Result<i64, Cause> {
        match number {
            Number::Literal(value) => Ok(*value),
            Number::Scalar { slot } => Ok(self.environment.scalar(*slot)),
            Number::Element { section, index } => {
                let nth = self.next_element();
                let index = self.number(index)?;
                self.element(nth, *section, index)
            }
            Number::Length { section } => Ok(self.environment.window(*section).len as i64),
            Number::Negative(operand) => {
                let nth = self.next_operator();
                let value = self.number(operand)?;
                value.checked_neg().ok_or(Cause::Negative { nth })
            }
            Number::Chain { first, rest } => {
                let value = self.number(first)?;
                self.chain(value, rest)
            }
        }
    }

    /// Reads an element of a section.
    fn element(&self, nth: usize, section: SectionId, index: i64) -> Result<i64, Cause> {
        let window = self.environment.window(section);
        match window.place(index) {
            Some(place) => Ok(self.store.read(place)),
            None => Err(Cause::Index { nth, index, window }),
        }
    }

    /// Applies the operators and operands that follow a number to it.
    #[cycle(value)]
    fn chain(&mut self, first: i64, rest: &[Link]) -> Result<i64, Cause> {
        let mut value = first;
        for link in rest {
            let nth = self.next_operator();
            let operand = self.number(&link.operand)?;
            value = operated(nth, value, link.operator, operand)?;
        }
        Ok(value)
    }

    /// Returns the value of a boolean expression.
    #[cycle(truth)]
    fn truth(&mut self, truth: &Truth) -> Result<bool, Cause> {
        match truth {
            Truth::Constant(value) => Ok(*value),
            Truth::Compare {
                relation,
                left,
                right,
            } => {
                let left = self.number(left)?;
                let right = self.number(right)?;
                Ok(holds(*relation, left, right))
            }
            Truth::Not(operand) => Ok(!self.truth(operand)?),
            Truth::Both(operands) => self.up_to(operands, false),
            Truth::Either(operands) => self.up_to(operands, true),
        }
    }

    /// Returns `end` if one of the operands has this value, and otherwise the other value. The
    /// operands after the first one with the value `end` are only counted.
    #[cycle(truth)]
    fn up_to(&mut self, operands: &[Truth], end: bool) -> Result<bool, Cause> {
        let mut value = !end;
        for operand in operands {
            if value == end {
                self.pass_truth(operand);
            } else {
                value = self.truth(operand)?;
            }
        }
        Ok(value)
    }

    // ---- what is left out

    /// Counts the elements and operators of a truth expression that isn't evaluated.
    #[cycle(pass_truth)]
    fn pass_truth(&mut self, truth: &Truth) {
        match truth {
            Truth::Constant(_) => {}
            Truth::Compare { left, right, .. } => {
                self.pass_number(left);
                self.pass_number(right);
            }
            Truth::Not(operand) => self.pass_truth(operand),
            Truth::Both(operands) | Truth::Either(operands) => {
                for operand in operands {
                    self.pass_truth(operand);
                }
            }
        }
    }

    /// Counts the elements and operators of a number expression that isn't evaluated.
    #[cycle(pass_number)]
    fn pass_number(&mut self, number: &Number) {
        match number {
            Number::Literal(_) | Number::Scalar { .. } | Number::Length { .. } => {}
            Number::Element { index, .. } => {
                let _ = self.next_element();
                self.pass_number(index);
            }
            Number::Negative(operand) => {
                let _ = self.next_operator();
                self.pass_number(operand);
            }
            Number::Chain { first, rest } => {
                self.pass_number(first);
                for link in rest {
                    let _ = self.next_operator();
                    self.pass_number(&link.operand);
                }
            }
        }
    }
}

/// Applies one operator to two numbers.
fn operated(nth: usize, left: i64, operator: Operator, right: i64) -> Result<i64, Cause> {
    match operate(operator, left, right) {
        Ok(value) => Ok(value),
        Err(FaultKind::ZeroDivisor) => Err(Cause::ZeroDivisor {
            nth,
            left,
            operator,
        }),
        Err(_) => Err(Cause::Overflow {
            nth,
            left,
            operator,
            right,
        }),
    }
}
