//! The tokens of a text.

/// A token with the number of its first character, counted from 0.
#[derive(Drop, Debug)]
pub struct Spanned {
    pub token: Token,
    pub at: usize,
}

/// A token.
#[derive(Drop, Debug)]
pub enum Token {
    /// `total_2`
    Name(String),
    /// `007`, at most 9,223,372,036,854,775,807
    Number(u64),
    /// `while`
    Word(Word),
    /// `<=`
    Mark(Mark),
}

/// What is to the left of a token, in a text or in a line that is written.
#[derive(Clone, Copy, PartialEq, Eq, Debug)]
pub enum Left {
    /// Nothing in the line.
    Margin,
    /// `(`, `[`, or the `-` of `-1`
    Opening,
    /// `total`, `len`, `int` or `byte`
    Called,
    /// `7`, `true`, `false`, `)` or `]`
    Operand,
    /// `;`, `{` or `}`, which end a line
    Ended,
    /// `while`, or the `-` of `a - b`
    Other,
}

/// A reserved word.
#[derive(Clone, Copy, PartialEq, Eq, Debug)]
pub enum Word {
    And,
    Array,
    As,
    Async,
    At,
    By,
    Byte,
    Else,
    False,
    Fault,
    Finish,
    If,
    Int,
    Len,
    Main,
    Mut,
    Not,
    Or,
    Parts,
    Print,
    Proc,
    Read,
    Rescue,
    Skip,
    Split,
    True,
    Var,
    While,
}

/// A mark of one or two characters.
#[derive(Clone, Copy, PartialEq, Eq, Debug)]
pub enum Mark {
    /// `(`
    LeftParen,
    /// `)`
    RightParen,
    /// `{`
    LeftBrace,
    /// `}`
    RightBrace,
    /// `[`
    LeftBracket,
    /// `]`
    RightBracket,
    /// `,`
    Comma,
    /// `;`
    Semicolon,
    /// `:`
    Colon,
    /// `=`
    Becomes,
    /// `+`
    Plus,
    /// `-`
    Minus,
    /// `*`
    Star,
    /// `/`
    Slash,
    /// `%`
    Percent,
    /// `<`
    Less,
    /// `<=`
    AtMost,
    /// `>`
    Greater,
    /// `>=`
    AtLeast,
    /// `==`
    Equal,
    /// `!=`
    Differs,
}

impl Word {
    ghost use Rattle.std.specs.Prelude.{◌≡◌, ◌≢◌, IfSome, IfNone};
    ghost use Rattle.syntax.specs.declared.token.Word.{Word};
    ghost use Rattle.syntax.specs.Lexical.{word_text};

    /// Returns the reserved word with these letters, if there is one.
    pub fn of(name: &str) -> Option<Word>
        ensures found { IfSome result (λ word. word_text word ≡ name.now) }
        ensures absent { IfNone result ((word : Word) → word_text word ≢ name.now) }
    {
        Some(match name {
            "and" => Word::And,
            "array" => Word::Array,
            "as" => Word::As,
            "async" => Word::Async,
            "at" => Word::At,
            "by" => Word::By,
            "byte" => Word::Byte,
            "else" => Word::Else,
            "false" => Word::False,
            "fault" => Word::Fault,
            "finish" => Word::Finish,
            "if" => Word::If,
            "int" => Word::Int,
            "len" => Word::Len,
            "main" => Word::Main,
            "mut" => Word::Mut,
            "not" => Word::Not,
            "or" => Word::Or,
            "parts" => Word::Parts,
            "print" => Word::Print,
            "proc" => Word::Proc,
            "read" => Word::Read,
            "rescue" => Word::Rescue,
            "skip" => Word::Skip,
            "split" => Word::Split,
            "true" => Word::True,
            "var" => Word::Var,
            "while" => Word::While,
            _ => return None,
        })
    }
}

impl Mark {
    ghost use Rattle.std.specs.Prelude.{◌≡◌, ◌≢◌, [], ◌∷◌, IfSome, IfNone};
    ghost use Rattle.syntax.specs.declared.token.Mark.{Mark};
    ghost use Rattle.syntax.specs.Lexical.{mark_text};

    /// Returns the mark of one character.
    pub fn of_one(character: char) -> Option<Mark>
        ensures found { IfSome result (λ mark. mark_text mark ≡ character ∷ []) }
        ensures absent { IfNone result ((mark : Mark) → mark_text mark ≢ character ∷ []) }
    {
        Some(match character {
            '(' => Mark::LeftParen,
            ')' => Mark::RightParen,
            '{' => Mark::LeftBrace,
            '}' => Mark::RightBrace,
            '[' => Mark::LeftBracket,
            ']' => Mark::RightBracket,
            ',' => Mark::Comma,
            ';' => Mark::Semicolon,
            ':' => Mark::Colon,
            '=' => Mark::Becomes,
            '+' => Mark::Plus,
            '-' => Mark::Minus,
            '*' => Mark::Star,
            '/' => Mark::Slash,
            '%' => Mark::Percent,
            '<' => Mark::Less,
            '>' => Mark::Greater,
            _ => return None,
        })
    }

    /// Returns the mark of two characters. The second one is always `=`.
    pub fn of_two(first: char) -> Option<Mark>
        ensures found { IfSome result (λ mark. mark_text mark ≡ first ∷ 61 ∷ []) }
        ensures absent { IfNone result ((mark : Mark) → mark_text mark ≢ first ∷ 61 ∷ []) }
    {
        match first {
            '<' => Some(Mark::AtMost),
            '>' => Some(Mark::AtLeast),
            '=' => Some(Mark::Equal),
            '!' => Some(Mark::Differs),
            _ => None,
        }
    }
}
