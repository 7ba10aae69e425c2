//! The object of arrays is an input that gives them: a theorem, as the contract of a function that
//! does nothing.

ghost use Rattle.std.specs.Prelude.{◌≡◌, Some};
ghost use Rattle.syntax_tree.specs.Tree.{Program as Text};
ghost use Rattle.types.specs.Code.{Program};
ghost use Rattle.types.specs.Resolution.{resolution};
ghost use Rattle.types.specs.Rules.{BreaksNoRule};
ghost use Rattle.json_answers.specs.Given.{AreGivenBack};

/// If a text is parsed as the object of the arrays of a program, then as an input of that program
/// it specifies their contents.
pub fn arrays_are_given_back()
    ensures { (t : Text) (p : Program) → BreaksNoRule t → resolution t ≡ Some p
        → AreGivenBack p.arrays }
{}
