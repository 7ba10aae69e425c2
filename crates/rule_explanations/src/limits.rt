//! Programs that exceed a limit.

use crate::arguments::parameters;
use crate::rule_texts::is_word;
use excerpts::heading::Heading;
use excerpts::statements::PlacedStatements;
use std::alloc::{AllocError, Global};
use syntax::token::{Spanned, Token, Word};

/// A limit, and what is printed about a program that exceeds it.
#[derive(Clone, Copy)]
struct Limit {
    most: u64,
    /// What the limit applies to: a program or a procedure.
    owner: &'static str,
    what: &'static str,
    mend: &'static str,
}

const PROCEDURES: Limit = Limit {
    most: 256,
    owner: "A program",
    what: "procedures besides main",
    mend: "remove procedures that nothing calls, or merge several into one.",
};

const PARAMETERS: Limit = Limit {
    most: 16,
    owner: "A procedure",
    what: "parameters",
    mend: "pass several numbers as elements of one section.",
};

const ARRAYS: Limit = Limit {
    most: 32,
    owner: "A program",
    what: "arrays",
    mend: "use one larger array for several, and name its parts with split.",
};

const ELEMENTS: Limit = Limit {
    most: 4_194_304,
    owner: "A program",
    what: "elements in all arrays together",
    mend: "declare smaller or fewer arrays.",
};

const STATEMENTS: Limit = Limit {
    most: 65_535,
    owner: "A program",
    what: "statements",
    mend: "use loops and procedures for repeated code.",
};

const LIMITS: &str =
    "A program has at most 256 procedures besides main, 16 parameters for each procedure, 32 arrays, 4194304 elements in all
arrays together, and 65535 statements.
help: stay within these limits.
";

/// The number of things in a program that a limit counts, and the character at which the first one
/// over the limit starts.
#[derive(Clone, Copy)]
struct Count {
    limit: Limit,
    many: u64,
    over: Option<usize>,
}

impl Count {
    /// Starts to count at 0.
    fn of(limit: Limit) -> Count {
        Count {
            limit,
            many: 0,
            over: None,
        }
    }

    /// Counts this many more things, at a character.
    fn add(&mut self, many: u64, at: usize) {
        self.many = self.many.saturating_add(many);
        if self.many > self.limit.most && self.over.is_none() {
            self.over = Some(at);
        }
    }
}

/// Adds which limit a program exceeds, by how much, and how to fix it.
pub fn push_over_limit(
    alloc: Global,
    told: &mut String,
    statements: &PlacedStatements<'_>,
    heading: Heading<'_>,
) -> Result<(), AllocError> {
    let (text, source) = (statements.text, &statements.source);
    for count in &counts(alloc, &source.tokens)? {
        if let Some(at) = count.over {
            heading.push_excerpt(told, text, source.place(at))?;
            return push_limit(told, count.limit, count.many);
        }
    }
    match statements.place(65_536) {
        Some(place) => {
            let many = u64::try_from(statements.places.len()).unwrap_or(u64::MAX);
            heading.push_excerpt(told, text, place)?;
            push_limit(told, STATEMENTS, many)
        }
        None => {
            heading.push(told, None)?;
            told.push_str(LIMITS)
        }
    }
}

/// Adds a limit that is exceeded.
fn push_limit(told: &mut String, limit: Limit, many: u64) -> Result<(), AllocError> {
    let (owner, most, what) = (limit.owner, limit.most, limit.what);
    write!(
        told,
        "{owner} can have at most {most} {what}; this one has {many}.\n"
    )?;
    let mend = limit.mend;
    write!(told, "help: {mend}\n")
}

/// Returns the counts of everything except statements.
fn counts(alloc: Global, tokens: &[Spanned]) -> Result<Vec<Count>, AllocError> {
    let mut found = Vec::new(alloc);
    found.push(words(tokens, Word::Proc, PROCEDURES))?;
    found.push(most_parameters(alloc, tokens)?)?;
    found.push(words(tokens, Word::Array, ARRAYS))?;
    found.push(elements(tokens))?;
    Ok(found)
}

/// Counts the occurrences of a reserved word.
fn words(tokens: &[Spanned], word: Word, limit: Limit) -> Count {
    let mut count = Count::of(limit);
    for spanned in tokens {
        if is_word(&spanned.token, word) {
            count.add(1, spanned.at);
        }
    }
    count
}

/// Counts the parameters of the first procedure that has too many.
fn most_parameters(alloc: Global, tokens: &[Spanned]) -> Result<Count, AllocError> {
    for (number, spanned) in tokens.iter().enumerate() {
        if is_word(&spanned.token, Word::Proc) {
            let mut count = Count::of(PARAMETERS);
            let behind = tokens.get(number.saturating_add(2)..).unwrap_or(&[]);
            for parameter in &parameters(alloc, behind)? {
                count.add(1, parameter.at);
            }
            if count.over.is_some() {
                return Ok(count);
            }
        }
    }
    Ok(Count::of(PARAMETERS))
}

/// Counts the elements of the arrays, each declared as in `array a: int[8];`.
fn elements(tokens: &[Spanned]) -> Count {
    let mut count = Count::of(ELEMENTS);
    for (number, spanned) in tokens.iter().enumerate() {
        if is_word(&spanned.token, Word::Array) {
            if let Some(length) = tokens.get(number.saturating_add(5)) {
                if let Token::Number(many) = &length.token {
                    count.add(*many, length.at);
                }
            }
        }
    }
    count
}
