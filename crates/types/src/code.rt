//! Programs with resolved names. Scalars are slots of their procedure's frame, and sections are
//! numbers of their procedure. Arrays and procedures are numbers of the program. Each statement has
//! its label.

ghost use Rattle.std.specs.Prelude.{◌≤◌};

use crate::ids::{ProcedureId, Slot};
use sections::id::SectionId;
use sections::tree::SectionTree;
use syntax_tree::tree::{ElementType, Relation};

/// A statement's number in the order of the text, from 1.
pub type Label = u32;

/// A resolved program. The section parameters of `main` are the arrays.
#[derive(Drop)]
pub struct Program {
    pub arrays: Vec<Array>,
    pub procedures: Vec<Procedure>,
    pub main: Procedure,
}

/// A declared array.
#[derive(Drop)]
pub struct Array {
    pub name: String,
    pub element: ElementType,
    pub length: usize,
    ghost within: { length ≤ 4194304 },
}

/// A procedure, or `main`. Its section parameters are its first sections, and its scalar parameters
/// are its first slots.
#[derive(Drop)]
pub struct Procedure {
    pub name: String,
    /// The section parameters, in the order of the text.
    pub parameters: Vec<SectionParameter>,
    /// The number of scalar parameters.
    pub scalars: usize,
    /// The number of slots of a frame, including the scalar parameters.
    pub slots: usize,
    /// The origin of each section.
    pub sections: SectionTree,
    /// The name of each section.
    pub section_names: Vec<String>,
    pub body: Vec<Stmt>,
}

/// A section parameter.
#[derive(Clone, Copy)]
pub struct SectionParameter {
    /// `mut`
    pub may_write: bool,
    pub element: ElementType,
}

/// A statement with its label.
#[derive(Drop)]
#[cycle(statement)]
pub struct Stmt {
    pub label: Label,
    pub kind: StmtKind,
}

/// What a statement does.
#[derive(Drop)]
#[cycle(statement)]
pub enum StmtKind {
    /// `a[0] = 7;`: one step, with no statement inside.
    Do(Primitive),
    /// `if x < 2 { .. } else { .. }`
    If {
        guard: Truth,
        body: Vec<Stmt>,
        other: Vec<Stmt>,
    },
    /// `while x < 2 { .. }`
    While {
        guard: Truth,
        body: Vec<Stmt>,
    },
    /// `split s at 2 as l, r { .. }`
    Split {
        sides: Sides,
        body: Vec<Stmt>,
    },
    /// `parts s by 4 as p, i { .. }`
    Parts {
        pieces: Pieces,
        body: Vec<Stmt>,
    },
    /// `f(a, 1);`
    Call {
        procedure: ProcedureId,
        values: Vec<Number>,
        sections: Vec<SectionId>,
    },
    /// `async { .. }`
    Async {
        body: Vec<Stmt>,
    },
    /// `finish { .. }`
    Finish {
        body: Vec<Stmt>,
    },
    /// `finish { .. } rescue n { .. }`: in the handler, the slot of `n` has the number of faults.
    Rescue {
        body: Vec<Stmt>,
        faults: Slot,
        handler: Vec<Stmt>,
    },
}

/// `s at 2 as l, r`: the section that is split, the position, and the two sides.
#[derive(Drop)]
pub struct Sides {
    pub section: SectionId,
    pub at: Number,
    pub left: SectionId,
    pub right: SectionId,
}

/// `s by 4 as p, i`: the section that is cut into pieces, the size of a piece, and what the block
/// sees in each turn: the piece, and the number of the turn from 0.
#[derive(Drop)]
pub struct Pieces {
    pub section: SectionId,
    pub size: Number,
    pub piece: SectionId,
    pub turn: Slot,
}

/// A statement that runs in one step.
#[derive(Drop)]
pub enum Primitive {
    /// `skip;`
    Skip,
    /// `x = 1;`, and `var x = 1;`
    Assign {
        slot: Slot,
        value: Number,
    },
    /// `a[0] = 7;`
    Store {
        section: SectionId,
        index: Number,
        value: Number,
    },
    /// `print a[0], 2;`
    Print {
        values: Vec<Number>,
    },
    /// `fault 3;`
    Fault {
        value: Number,
    },
}

/// A number expression.
#[derive(Drop)]
#[cycle(number)]
pub enum Number {
    /// `7`, never negative.
    Literal(i64),
    /// `x`
    Scalar {
        slot: Slot,
    },
    /// `a[0]`
    Element {
        section: SectionId,
        index: Box<Number>,
    },
    /// `len(a)`
    Length {
        section: SectionId,
    },
    /// `-x`
    Negative(Box<Number>),
    /// `x + 1 - y`, or `x * 2 % y`: the first operand, and the others in order.
    Chain {
        first: Box<Number>,
        rest: Vec<Link>,
    },
}

/// An operator of a chain, and the operand after it.
#[derive(Drop)]
#[cycle(number)]
pub struct Link {
    pub operator: Operator,
    pub operand: Number,
}

/// An operator of a sum or of a product.
#[derive(Clone, Copy, PartialEq, Eq, Debug)]
pub enum Operator {
    /// `+`
    Plus,
    /// `-`
    Minus,
    /// `*`
    Times,
    /// `/`, which rounds toward zero.
    Over,
    /// `%`, whose result has the sign of the dividend.
    Modulo,
}

/// A boolean expression.
#[derive(Drop)]
pub enum Truth {
    /// `true`
    Constant(bool),
    /// `x < 1`
    Compare {
        relation: Relation,
        left: Number,
        right: Number,
    },
    /// `not x < 1`
    Not(Box<Truth>),
    /// `x < 1 and y < 1`, with the operands in order.
    Both(Vec<Truth>),
    /// `x < 1 or y < 1`, with the operands in order.
    Either(Vec<Truth>),
}
