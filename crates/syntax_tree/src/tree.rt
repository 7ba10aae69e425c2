//! Programs as their texts spell them. There is one type for each level of precedence, so a program
//! has exactly one list of tokens.

/// A whole text. The empty text is a program with no procedure and no `main`.
#[derive(Drop)]
pub struct Program {
    pub procedures: Vec<Procedure>,
    pub main: Option<Main>,
}

/// `main { array a: int[8]; print a[0]; }`
#[derive(Drop)]
pub struct Main {
    pub arrays: Vec<Array>,
    pub body: Vec<Stmt>,
}

/// `array a: byte[8];`
#[derive(Drop)]
pub struct Array {
    pub name: String,
    pub element: ElementType,
    pub length: u64,
}

/// The element type of an array or a section.
#[derive(Clone, Copy, PartialEq, Eq, Debug)]
pub enum ElementType {
    /// `int`: a signed 64-bit integer.
    Int,
    /// `byte`: 0 to 255.
    Byte,
}

/// `proc f(mut s: int, read t: byte, n: int) { skip; }`
#[derive(Drop)]
pub struct Procedure {
    pub name: String,
    pub parameters: Vec<Parameter>,
    pub body: Vec<Stmt>,
}

/// A parameter of a procedure.
#[derive(Drop)]
pub enum Parameter {
    /// `mut s: int`
    Written { name: String, element: ElementType },
    /// `read t: byte`
    Read { name: String, element: ElementType },
    /// `n: int`
    Scalar { name: String },
}

/// A statement.
#[derive(Drop)]
pub enum Stmt {
    /// `skip;`
    Skip,
    /// `var x = 1;`
    Var {
        name: String,
        value: Expr,
    },
    /// `x = x + 1;`
    Assign {
        name: String,
        value: Expr,
    },
    /// `a[0] = 7;`
    Store {
        section: String,
        index: Expr,
        value: Expr,
    },
    /// `print a[0], 2;` with its first value and the others.
    Print {
        first: Expr,
        rest: Vec<Expr>,
    },
    /// `fault 3;`
    Fault {
        value: Expr,
    },
    /// `if x < 2 { skip; } else { }`. No `else` and an empty `else` are different trees.
    If {
        guard: Expr,
        body: Vec<Stmt>,
        other: Option<Vec<Stmt>>,
    },
    /// `while x < 2 { x = x + 1; }`
    While {
        guard: Expr,
        body: Vec<Stmt>,
    },
    /// `split s at 2 as l, r { l[0] = 1; }`
    Split {
        section: String,
        at: Expr,
        left: String,
        right: String,
        body: Vec<Stmt>,
    },
    /// `parts s by 4 as p, i { p[0] = i; }`
    Parts {
        section: String,
        size: Expr,
        piece: String,
        turn: String,
        body: Vec<Stmt>,
    },
    /// `f(a, 1);`
    Call {
        procedure: String,
        arguments: Vec<Expr>,
    },
    /// `async { skip; }`
    Async {
        body: Vec<Stmt>,
    },
    /// `finish { skip; }`
    Finish {
        body: Vec<Stmt>,
    },
    /// `finish { fault 1; } rescue n { print n; }`: the handler runs if the body has faults, and sees
    /// their number.
    Rescue {
        body: Vec<Stmt>,
        faults: String,
        handler: Vec<Stmt>,
    },
}

/// `a < 1 or b < 1`: the first operand, and the operands that follow an `or`.
#[derive(Drop)]
#[cycle(expr)]
pub struct Expr {
    pub first: Conj,
    pub rest: Vec<Conj>,
}

impl Expr {
    ghost use Rattle.std.specs.Prelude.{◌≡◌, option_copied};
    ghost use Rattle.std.specs.Option.{option_map};
    ghost use Rattle.syntax_tree.specs.Tree.{expr, atom, lone_atom};

    /// Returns the atom if the expression is a single atom, without operators, `not`, sign or
    /// comparison.
    pub fn as_atom(&self) -> Option<&Atom>
        ensures { option_map atom (option_copied result) ≡ lone_atom (expr self.now) }
    {
        if self.rest.is_empty() {
            self.first.as_atom()
        } else {
            None
        }
    }
}

/// `a < 1 and b < 1`: the first operand, and the operands that follow an `and`.
#[derive(Drop)]
#[cycle(expr)]
pub struct Conj {
    pub first: Neg,
    pub rest: Vec<Neg>,
}

impl Conj {
    ghost use Rattle.std.specs.Prelude.{◌≡◌, option_copied};
    ghost use Rattle.std.specs.Option.{option_map};
    ghost use Rattle.syntax_tree.specs.Tree.{conj, atom, atom_of_conj};

    /// Returns the atom if this is a single atom.
    fn as_atom(&self) -> Option<&Atom>
        ensures { option_map atom (option_copied result) ≡ atom_of_conj (conj self.now) }
    {
        if self.rest.is_empty() {
            self.first.as_atom()
        } else {
            None
        }
    }
}

/// `not a < 1`
#[derive(Drop)]
#[cycle(expr)]
pub struct Neg {
    pub negated: bool,
    pub comparison: Cmp,
}

impl Neg {
    ghost use Rattle.std.specs.Prelude.{◌≡◌, option_copied};
    ghost use Rattle.std.specs.Option.{option_map};
    ghost use Rattle.syntax_tree.specs.Tree.{neg, atom, atom_of_neg};

    /// Returns the atom if this is a single atom.
    fn as_atom(&self) -> Option<&Atom>
        ensures { option_map atom (option_copied result) ≡ atom_of_neg (neg self.now) }
    {
        if self.negated {
            return None;
        }
        match &self.comparison.right {
            None => self.comparison.left.as_atom(),
            Some(_) => None,
        }
    }
}

/// `a < 1`, or a sum alone.
#[derive(Drop)]
#[cycle(expr)]
pub struct Cmp {
    pub left: Sum,
    pub right: Option<Compared>,
}

/// The relation of a comparison and its right operand. It is boxed because few expressions compare.
#[derive(Drop)]
#[cycle(expr)]
pub struct Compared {
    pub relation: Relation,
    pub right: Box<Sum>,
}

/// `a + 1 - b`: the first operand, and the operands that follow a sign.
#[derive(Drop)]
#[cycle(expr)]
pub struct Sum {
    pub first: Prod,
    pub rest: Vec<Term>,
}

impl Sum {
    ghost use Rattle.std.specs.Prelude.{◌≡◌, option_copied};
    ghost use Rattle.std.specs.Option.{option_map};
    ghost use Rattle.syntax_tree.specs.Tree.{sum, atom, atom_of_sum};

    /// Returns the atom if this is a single atom.
    fn as_atom(&self) -> Option<&Atom>
        ensures { option_map atom (option_copied result) ≡ atom_of_sum (sum self.now) }
    {
        if self.rest.is_empty() {
            self.first.as_atom()
        } else {
            None
        }
    }
}

/// `- b` in a sum.
#[derive(Drop)]
#[cycle(expr)]
pub struct Term {
    pub sign: Sign,
    pub operand: Prod,
}

/// `a * 2 % b`: the first operand, and the operands that follow an operator.
#[derive(Drop)]
#[cycle(expr)]
pub struct Prod {
    pub first: Unary,
    pub rest: Vec<Factor>,
}

impl Prod {
    ghost use Rattle.std.specs.Prelude.{◌≡◌, option_copied};
    ghost use Rattle.std.specs.Option.{option_map};
    ghost use Rattle.syntax_tree.specs.Tree.{prod, atom, atom_of_prod};

    /// Returns the atom if this is a single atom.
    fn as_atom(&self) -> Option<&Atom>
        ensures { option_map atom (option_copied result) ≡ atom_of_prod (prod self.now) }
    {
        if self.rest.is_empty() {
            self.first.as_atom()
        } else {
            None
        }
    }
}

/// `% b` in a product.
#[derive(Drop)]
#[cycle(expr)]
pub struct Factor {
    pub operator: Operator,
    pub operand: Unary,
}

/// `-a[0]`, or an atom alone.
#[derive(Drop)]
#[cycle(expr)]
pub struct Unary {
    pub negative: bool,
    pub atom: Atom,
}

impl Unary {
    ghost use Rattle.std.specs.Prelude.{◌≡◌, option_copied};
    ghost use Rattle.std.specs.Option.{option_map};
    ghost use Rattle.syntax_tree.specs.Tree.{unary, atom, atom_of_unary};

    /// Returns the atom if this is a single atom.
    fn as_atom(&self) -> Option<&Atom>
        ensures { option_map atom (option_copied result) ≡ atom_of_unary (unary self.now) }
    {
        if !self.negative {
            Some(&self.atom)
        } else {
            None
        }
    }
}

/// An operand without an operator.
#[derive(Drop)]
#[cycle(expr)]
pub enum Atom {
    /// `7`, at most 9,223,372,036,854,775,807
    Number(u64),
    /// `true`
    True,
    /// `false`
    False,
    /// `x`
    Name(String),
    /// `a[0]`
    Element { section: String, index: Box<Expr> },
    /// `len(a)`
    Length(String),
    /// `(a + 1)`
    Parens(Box<Expr>),
}

/// A relation between two numbers.
#[derive(Clone, Copy, PartialEq, Eq, Debug)]
pub enum Relation {
    /// `<`
    Less,
    /// `<=`
    AtMost,
    /// `>`
    Greater,
    /// `>=`
    AtLeast,
    /// `==`
    Equal,
    /// `!=`
    Differs,
}

/// A sign in a sum.
#[derive(Clone, Copy, PartialEq, Eq, Debug)]
pub enum Sign {
    /// `+`
    Plus,
    /// `-`
    Minus,
}

/// An operator in a product.
#[derive(Clone, Copy, PartialEq, Eq, Debug)]
pub enum Operator {
    /// `*`
    Times,
    /// `/`
    Over,
    /// `%`
    Modulo,
}
