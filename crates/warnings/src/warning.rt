//! Warnings.

use types::code::Label;

/// What is probably a mistake. Procedures and parameters are numbered from 0.
#[derive(Clone, Copy, PartialEq, Eq, Debug)]
pub enum Warning {
    /// `proc f() { }`: neither another procedure nor `main` calls this one.
    UnusedProcedure(usize),
    /// `proc f(n: int) { }`: nothing reads this parameter of a procedure.
    UnusedParameter(usize, usize),
    /// `var x = 1;`, `x = 1;`: nothing reads the variable.
    UnreadVariable(Label),
    /// `finish { a[0] = 1; }`: no task that it waits for is started in it.
    IdleFinish(Label),
    /// `finish { async { .. } }`: it waits at once for its only task, which is started last.
    LoneTask(Label),
    /// `b[0] = 256;`: the constant doesn't fit in an element of bytes.
    NeverFits(Label),
    /// `fault 1; skip;`: no run reaches this statement.
    Unreached(Label),
}
