//! Habits from other languages, and what to write instead.

use excerpts::named::{begins_with, is_operator};
use syntax::token::{Mark, Spanned, Token, Word};

const ELSE_IF: &str = "there is no `else if`: write `else { if .. { .. } }`";

/// What to write before a block.
pub const BLOCK: &str = "start the block with `{`";

/// What to write instead of a loop that counts.
pub const FOR: &str = "there is no `for`: write `var i = 0; while i < n { .. i = i + 1; }`";

/// What to write instead of a parallel loop as in other languages.
pub const PARALLEL_LOOP: &str =
    "write a parallel loop as `parts a by 1 as p, i { async { .. } }`; see `afx explain parallel_loop`";

/// What to write instead of a comment between marks.
pub const COMMENT: &str =
    "there are no comments between `/*` and `*/`: start a comment with `//`; it ends with its line";

const TASKS: &str = "start a task with `async { .. }` and wait for tasks with `finish { .. }`";

const SHIFT: &str = "there are no shifts: multiply or divide by a power of 2";

/// What to write instead of a computed length of an array.
const LENGTH: &str = "write the length as one number; it can't be computed";

/// The tokens around the place of a syntax error: three before it, and two from it on.
#[derive(Clone, Copy)]
pub struct TokensAround<'t> {
    last_but_two: Option<&'t Token>,
    last_but_one: Option<&'t Token>,
    last: Option<&'t Token>,
    first: Option<&'t Token>,
    second: Option<&'t Token>,
}

impl<'t> TokensAround<'t> {
    /// Takes the tokens around the place from those before and after it.
    pub fn of(before: &'t [Spanned], behind: &'t [Spanned]) -> TokensAround<'t> {
        TokensAround {
            last_but_two: before
                .len()
                .checked_sub(3)
                .and_then(|at| token_at(before, at)),
            last_but_one: before
                .len()
                .checked_sub(2)
                .and_then(|at| token_at(before, at)),
            last: before.last().map(|spanned| &spanned.token),
            first: token_at(behind, 0),
            second: token_at(behind, 1),
        }
    }

    /// Returns what to write instead, if the intention is recognised.
    pub fn mend(self) -> Option<&'static str> {
        if let Some(mend) = mend_of_name(self.first) {
            return Some(mend);
        }
        if let Some(mend) = mend_of_name(self.last) {
            return Some(mend);
        }
        if let Some(mend) = self.mend_of_statement() {
            return Some(mend);
        }
        if self.begins_for() {
            return Some(FOR);
        }
        match self.first {
            Some(Token::Name(name)) => self.mend_of_first_name(name),
            Some(Token::Mark(mark)) => self.mend_of_mark(*mark),
            Some(Token::Word(Word::As)) => self.mend_of_as(),
            Some(Token::Word(Word::Array)) => {
                Some("declare arrays only at the beginning of main")
            }
            Some(Token::Word(Word::Int)) | Some(Token::Word(Word::Byte)) => self.mend_of_type(),
            Some(Token::Word(Word::Mut)) | Some(Token::Word(Word::Read)) => self.mend_of_passed(),
            _ => self.mend_behind(),
        }
    }

    /// Handles a statement that starts with a word of another language, as in `atomic { .. }`.
    fn mend_of_statement(self) -> Option<&'static str> {
        let is_first = match self.last_but_one {
            Some(token) => ends_statement(token),
            None => true,
        };
        match self.last {
            Some(Token::Name(name)) if is_first => mend_of_statement_name(name),
            _ => None,
        }
    }

    /// Handles an unexpected name.
    fn mend_of_first_name(self, name: &str) -> Option<&'static str> {
        match name {
            "then" | "do" => Some(BLOCK),
            "mod" if !self.is_assigned() => Some("use `%` for the remainder, as in `7 % 3`"),
            "Main" => Some("write `main` in lower case"),
            _ => self.mend_behind(),
        }
    }

    /// Returns whether `=` follows the first token.
    fn is_assigned(self) -> bool {
        matches!(self.second, Some(Token::Mark(Mark::Becomes)))
    }

    /// Handles an unexpected `as`.
    fn mend_of_as(self) -> Option<&'static str> {
        if self.declares(Word::Parts) {
            Some("write `by` before `as`, as in `parts a by 1 as p, i { .. }`")
        } else if self.declares(Word::Split) {
            Some("write `at` before `as`, as in `split a at 2 as l, r { .. }`")
        } else {
            self.mend_behind()
        }
    }

    /// Handles an unexpected type.
    fn mend_of_type(self) -> Option<&'static str> {
        if self.is_ended() {
            Some("declare a variable as in `var x = 1;`")
        } else if self.is_parameter() {
            Some("write the type after the name, as in `n: int` or `mut s: int`")
        } else if matches!(self.last, Some(Token::Mark(Mark::Colon))) {
            Some("declare a number as `int`; only sections have bytes, as in `mut s: byte`")
        } else {
            self.mend_behind()
        }
    }

    /// Handles an unexpected `mut` or `read`.
    fn mend_of_passed(self) -> Option<&'static str> {
        match self.last {
            Some(Token::Mark(Mark::LeftParen)) | Some(Token::Mark(Mark::Comma)) => {
                Some("write only the name, as in `f(a);`: the parameter declares `mut` or `read`")
            }
            _ => self.mend_behind(),
        }
    }

    /// Handles an unexpected mark.
    fn mend_of_mark(self, mark: Mark) -> Option<&'static str> {
        match (self.last, mark) {
            (Some(Token::Word(Word::Main)), Mark::LeftParen) => {
                Some("main has no parameters: write `main { .. }`")
            }
            (_, Mark::LeftBracket) => self.mend_of_bracket(),
            (_, Mark::Colon) if self.is_assigned() => {
                Some("assign with `=`, as in `x = 1;`, and declare with `var`, as in `var x = 1;`")
            }
            (Some(Token::Name(_)), Mark::Colon) if self.declares(Word::Var) => {
                Some("remove the type: variables are integers, as in `var x = 1;`")
            }
            (Some(Token::Name(_)), Mark::Semicolon) | (Some(Token::Name(_)), Mark::Comma)
                if self.declares(Word::Var) => Some("give it a value, as in `var x = 0;`"),
            (_, Mark::Semicolon) if self.is_ended() => {
                Some("remove it; the empty statement is `skip;`")
            }
            (Some(Token::Number(_)), _) if self.computes_length() => Some(LENGTH),
            (Some(Token::Mark(last)), _) => self.mend_of_marks(*last, mark),
            _ => self.mend_of_step(mark),
        }
    }

    /// Handles an unexpected `[`.
    fn mend_of_bracket(self) -> Option<&'static str> {
        match self.last {
            Some(Token::Word(Word::Int)) | Some(Token::Word(Word::Byte)) => Some(
                "remove the brackets: a section is `mut s: int` or `read s: int`, and `len(s)` is its length",
            ),
            Some(Token::Mark(Mark::RightBracket)) => {
                Some("use one index, as in `a[i * n + j]`: arrays have one dimension")
            }
            Some(Token::Name(_)) if self.declares(Word::Array) => {
                Some("write the type before the length, as in `array a: int[8];`")
            }
            Some(Token::Name(_)) if matches!(self.last_but_two, Some(Token::Word(Word::Len))) => {
                Some("write only the name of a section, as in `len(a)`")
            }
            _ => self.mend_of_step(Mark::LeftBracket),
        }
    }

    /// Handles a mark after another one, as in `1 << 2` or `/* c */`.
    fn mend_of_marks(self, last: Mark, mark: Mark) -> Option<&'static str> {
        match (last, mark) {
            (Mark::Slash, Mark::Star) => Some(COMMENT),
            (Mark::Less, Mark::Less) | (Mark::Greater, Mark::Greater) => Some(SHIFT),
            (Mark::Less, Mark::Greater) | (Mark::Differs, Mark::Becomes) => Some(
                "use `!=` for not equal",
            ),
            (Mark::Equal, Mark::Becomes) => Some("use `==` for equality"),
            (Mark::Star, Mark::Star) => Some("there are no powers: multiply in a loop"),
            _ => self.mend_of_step(mark),
        }
    }

    /// Handles `x++`, `x += 1` and the like.
    fn mend_of_step(self, mark: Mark) -> Option<&'static str> {
        let Some(Token::Mark(second)) = self.second else {
            return self.mend_behind();
        };
        match (mark, *second) {
            (Mark::Plus, Mark::Plus) | (Mark::Minus, Mark::Minus) => {
                Some("there is no `x++`: write `x = x + 1;`")
            }
            (Mark::Slash, Mark::Star) | (Mark::Star, Mark::Slash) => Some(COMMENT),
            (Mark::Becomes, Mark::Greater) => Some("use `>=` for at least"),
            (Mark::Becomes, Mark::Less) => Some("use `<=` for at most"),
            (_, Mark::Becomes) if self.first.is_some_and(is_operator) => {
                Some("there are no compound assignments such as `+=`: write `x = x + ..;`")
            }
            _ => self.mend_behind(),
        }
    }

    /// Handles the other cases, by the tokens before the place alone.
    fn mend_behind(self) -> Option<&'static str> {
        match (self.last_but_one, self.last) {
            (_, Some(Token::Word(Word::Else))) => Some(self.mend_of_else()),
            (_, Some(Token::Word(Word::Async))) => {
                Some("put the body of the task in braces, as in `async { f(a); }`")
            }
            (_, Some(Token::Word(Word::Finish))) => {
                Some("put the body of the finish in braces, as in `finish { f(a); }`")
            }
            (_, Some(Token::Word(Word::Rescue))) => {
                Some("name the number of faults, as in `rescue n { print n; }`")
            }
            (Some(Token::Word(Word::Int)), Some(Token::Mark(Mark::LeftBracket)))
            | (Some(Token::Word(Word::Byte)), Some(Token::Mark(Mark::LeftBracket))) => Some(LENGTH),
            _ => None,
        }
    }

    /// Handles what follows `else`.
    fn mend_of_else(self) -> &'static str {
        match self.first {
            Some(Token::Word(Word::If)) => ELSE_IF,
            _ => BLOCK,
        }
    }

    /// Returns whether the last token is a name that follows this declaring word.
    fn declares(self, declaring: Word) -> bool {
        match self.last_but_one {
            Some(Token::Word(word)) => *word == declaring,
            _ => false,
        }
    }

    /// Returns whether an operator follows the length of an array, as in `int[3 * 4]`.
    fn computes_length(self) -> bool {
        match (self.last_but_two, self.last_but_one) {
            (Some(Token::Word(word)), Some(Token::Mark(Mark::LeftBracket))) => {
                (*word == Word::Int || *word == Word::Byte) && self.first.is_some_and(is_operator)
            }
            _ => false,
        }
    }

    /// Returns whether a parameter starts here: after `proc f(`, or after the type of another one
    /// and a comma.
    fn is_parameter(self) -> bool {
        match (self.last_but_two, self.last_but_one, self.last) {
            (Some(Token::Word(Word::Proc)), _, Some(Token::Mark(Mark::LeftParen))) => true,
            (_, Some(Token::Word(word)), Some(Token::Mark(Mark::Comma))) => {
                *word == Word::Int || *word == Word::Byte
            }
            _ => false,
        }
    }

    /// Returns whether `for` precedes a parenthesis that was just opened, as in `for (i = 0;`.
    fn begins_for(self) -> bool {
        match (self.last_but_one, self.last) {
            (Some(called), Some(Token::Mark(Mark::LeftParen))) => is_for(called),
            (Some(Token::Mark(Mark::LeftParen)), _) => self.last_but_two.is_some_and(is_for),
            _ => false,
        }
    }

    /// Returns whether a statement has just ended, or none has started.
    fn is_ended(self) -> bool {
        self.last.is_some_and(ends_statement)
    }
}

/// Returns whether a token is a name that starts a loop in other languages.
fn is_for(token: &Token) -> bool {
    match token {
        Token::Name(name) => matches!(name.as_str(), "for" | "foreach"),
        _ => false,
    }
}

/// Returns a token by its number, if there are that many.
fn token_at(tokens: &[Spanned], at: usize) -> Option<&Token> {
    tokens.get(at).map(|spanned| &spanned.token)
}

/// Returns what to write instead of a name that is a reserved word of other languages.
fn mend_of_name(token: Option<&Token>) -> Option<&'static str> {
    let Some(Token::Name(name)) = token else {
        return None;
    };
    match name.as_str() {
        "for" | "foreach" | "loop" => Some(FOR),
        "let" | "const" => Some("declare a variable as in `var x = 1;`"),
        "fn" | "func" | "function" | "def" | "void" => {
            Some("declare a procedure with `proc`, as in `proc f(mut s: int) { .. }`")
        }
        "return" => Some(
            "procedures return no value; write the result into a section of the caller",
        ),
        "break" | "continue" => Some(
            "there is no `break` or `continue`: a loop ends only by its condition",
        ),
        "elif" | "elsif" | "elseif" => Some(ELSE_IF),
        "spawn" | "sync" | "await" => Some(TASKS),
        _ => None,
    }
}

/// Returns what to write instead of a statement that starts with a name as in other languages.
fn mend_of_statement_name(name: &str) -> Option<&'static str> {
    match name {
        "cilk_spawn" | "cilk_sync" | "cilk_scope" | "cobegin" => Some(TASKS),
        "parallel_for" | "cilk_for" | "parallel" | "parfor" | "forall" | "coforall" => {
            Some(PARALLEL_LOOP)
        }
        "atomic" | "critical" | "mutex" | "lock" | "synchronized" => Some(
            "there are no locks or atomics: give each task its own result, and read them after the finish; see `afx explain answers`",
        ),
        "switch" | "match" => Some("write an `if` for each case"),
        "try" | "catch" | "except" => Some(
            "handle faults with `rescue`, as in `finish { .. } rescue n { .. }`",
        ),
        "throw" | "raise" => Some("stop the task with a number, as in `fault 1;`"),
        "call" => Some("write only the name before the parenthesis, as in `f(a);`"),
        "print_int" | "println" | "printf" | "puts" | "echo" => {
            Some("print numbers with `print`, as in `print x, a[0];`")
        }
        "bool" | "auto" | "long" | "float" | "double" | "i32" | "i64" | "u32" | "usize" => Some(
            "declare a variable as in `var x = 1;`",
        ),
        _ => None,
    }
}

/// Returns whether the first token compares two numbers.
pub fn begins_with_relation(tokens: &[Spanned]) -> bool {
    match token_at(tokens, 0) {
        Some(Token::Mark(mark)) => match *mark {
            Mark::Less | Mark::AtMost | Mark::Greater | Mark::AtLeast => true,
            Mark::Equal | Mark::Differs => true,
            _ => false,
        },
        _ => false,
    }
}

/// Returns what to write in the head of a procedure that would give a value, as in `proc f() -> int`.
pub fn mend_of_head(before: &[Spanned], behind: &[Spanned]) -> Option<&'static str> {
    let Some(Token::Word(Word::Proc)) = first_of_statement(before) else {
        return None;
    };
    match token_at(behind, 0) {
        Some(Token::Mark(Mark::Minus)) | Some(Token::Mark(Mark::Colon)) => Some(
            "start the body with `{`: procedures return no value; write the result into a `mut` section",
        ),
        _ => None,
    }
}

/// Returns what to write instead of a name where a type is expected.
pub fn mend_of_type_name(name: &str) -> &'static str {
    match name {
        "bool" | "boolean" | "Bool" => "declare a boolean as `int`, and use 0 and 1",
        "char" | "u8" | "uint8_t" => "use `int`, or `byte` for the elements of sections",
        _ => "use `int`, a number of 64 bits, or `byte` for the elements of sections",
    }
}

/// Returns what to write if a statement could end, and continues with a second assignment or a
/// second variable.
pub fn mend_of_second(before: &[Spanned], behind: &[Spanned]) -> Option<&'static str> {
    match first_of_statement(before) {
        Some(Token::Word(Word::Var)) | Some(Token::Name(_)) => {
            if begins_with(behind, Mark::Becomes) {
                Some("use one statement per assignment, as in `y = 1; x = y;`")
            } else if begins_with(behind, Mark::Comma) {
                Some("use one statement per variable, as in `var x = 1; var y = 2;`")
            } else {
                None
            }
        }
        _ => None,
    }
}

/// Returns what to write if the declaration of an array could end, and continues with its elements
/// or a second array.
pub fn mend_of_array(before: &[Spanned], behind: &[Spanned]) -> Option<&'static str> {
    let Some(Token::Word(Word::Array)) = first_of_statement(before) else {
        return None;
    };
    if begins_with(behind, Mark::Becomes) {
        Some(
            "assign elements, as in `a[0] = 1;`, or use `--set` or `--input`: arrays start with zeros",
        )
    } else if begins_with(behind, Mark::Comma) {
        Some("use one declaration per array, as in `array a: int[5]; array b: int[5];`")
    } else {
        None
    }
}

/// Returns whether the statement that contains the last token is a `print`.
pub fn is_print(tokens: &[Spanned]) -> bool {
    match first_of_statement(tokens) {
        Some(Token::Word(Word::Print)) => true,
        _ => false,
    }
}

/// Returns the first token of the statement that contains the last one.
fn first_of_statement(tokens: &[Spanned]) -> Option<&Token> {
    let mut first = None;
    let mut is_new = true;
    for spanned in tokens {
        if is_new {
            first = Some(&spanned.token);
        }
        is_new = ends_statement(&spanned.token);
    }
    first
}

/// Returns whether a token ends a statement, or none has started.
fn ends_statement(token: &Token) -> bool {
    match token {
        Token::Mark(mark) => {
            *mark == Mark::Semicolon || *mark == Mark::LeftBrace || *mark == Mark::RightBrace
        }
        _ => false,
    }
}
