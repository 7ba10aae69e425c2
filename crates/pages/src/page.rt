//! Pages and their texts.

ghost use Rattle.std.specs.Prelude.{◌≡◌, ◌++◌, IfOk, OnOk};
ghost use Rattle.std.specs.List.{flat_map, list_any};
ghost use Rattle.std.specs.Str.{bytes_eq};
ghost use Rattle.std.specs.String.{string_bytes};
ghost use Rattle.pages.specs.Pages.{answers_to, body_text, end_text, example_text, given_text, head_text};
ghost use Rattle.pages.specs.Pages.{indented, input_text, mend_text, page_text, place_text, program_text};
ghost use Rattle.pages.specs.Pages.{told_text, trace_text, traced_text};

use std::alloc::{AllocError, Global};

/// What `afx explain WORD` shows.
#[derive(Clone, Copy)]
pub struct Page {
    /// The word by which the page is found. It has no space.
    pub name: &'static str,
    /// Other words by which it is found, as the program prints them.
    pub others: &'static [&'static str],
    /// What the page is about, in one line.
    pub about: &'static str,
    /// The rule, or the meaning of the word, in lines.
    pub rule: &'static str,
    pub example: Example,
    /// How to fix the problem, in lines.
    pub mend: Option<&'static str>,
}

/// The example of a page.
#[derive(Clone, Copy)]
pub enum Example {
    /// No small program shows it, such as running out of memory.
    Nothing,
    /// A program and what is printed for it.
    Program(Sample),
    /// A program with an input, and what is printed for them.
    WithInput(SampleWithInput),
    /// A program with a trace, and what is printed for them.
    WithTrace(Traced),
    /// A part of a program.
    Shape(Shape),
}

/// A program and what is printed for it.
#[derive(Clone, Copy)]
pub struct Sample {
    /// The lines of `program.afx`.
    pub lines: &'static [&'static str],
    /// The arguments of `afx`, such as `check program.afx`.
    pub command: &'static str,
    /// The one line that is printed.
    pub line: &'static str,
}

/// A program with `input.json`, and what is printed for both.
#[derive(Clone, Copy)]
pub struct SampleWithInput {
    pub told: Sample,
    /// The text of `input.json`.
    pub input: &'static str,
}

/// A program with `program.trace`, and what is printed for both.
#[derive(Clone, Copy)]
pub struct Traced {
    pub told: Sample,
    /// The lines of `program.trace`.
    pub trace: &'static [&'static str],
}

/// A procedure of a program in `examples/`, or a similar one.
#[derive(Clone, Copy)]
pub struct Shape {
    pub lines: &'static [&'static str],
    /// The name of the program, such as `tiles`.
    pub name: &'static str,
}

/// A page of a table. Fields that it lacks are left out: other words, an input, a trace, a program,
/// or how to fix the problem.
macro_rules! page {
    (
        name: $name:literal,
        $(others: [$($other:literal),*],)?
        about: $about:literal,
        rule: $rule:literal,
        $(
            program: $lines:tt,
            $(input: $input:literal,)?
            $(trace: $trace:tt,)?
            tells: $command:literal => $line:literal,
        )?
        $(shape: $shape:tt of $place:literal,)?
        $(mend: $mend:literal,)?
    ) => {
        $crate::page::Page {
            name: $name,
            others: &[$($($other),*)?],
            about: $about,
            rule: $rule,
            example: $crate::page::page!(@example
                $($lines $command $line $(input $input)? $(trace $trace)?)?
                $(shape $shape $place)?
            ),
            mend: $crate::page::page!(@mend $($mend)?),
        }
    };
    (@example) => { $crate::page::Example::Nothing };
    (@example shape $lines:tt $name:literal) => {
        $crate::page::Example::Shape($crate::page::Shape { lines: &$lines, name: $name })
    };
    (@example $lines:tt $command:literal $line:literal) => {
        $crate::page::Example::Program($crate::page::page!(@told $lines $command $line))
    };
    (@example $lines:tt $command:literal $line:literal input $input:literal) => {
        $crate::page::Example::WithInput($crate::page::SampleWithInput {
            told: $crate::page::page!(@told $lines $command $line),
            input: $input,
        })
    };
    (@example $lines:tt $command:literal $line:literal trace $trace:tt) => {
        $crate::page::Example::WithTrace($crate::page::Traced {
            told: $crate::page::page!(@told $lines $command $line),
            trace: &$trace,
        })
    };
    (@told $lines:tt $command:literal $line:literal) => {
        $crate::page::Sample { lines: &$lines, command: $command, line: $line }
    };
    (@mend) => { None };
    (@mend $mend:literal) => { Some($mend) };
}

pub(crate) use page;

impl Page {
    /// Returns whether a word is one of the page's words.
    pub fn answers_to(&self, word: &str) -> bool
        ensures { result ≡ answers_to self.now word.now }
    {
        self.name == word || has_word(self.others, word)
    }

    /// Returns whether a line starts with one of the page's words.
    pub fn is_begun(&self, line: &str) -> bool {
        begins(line, self.name) || begins_with_one(line, self.others)
    }

    /// Returns its text: its heading, the rule, the example, and how to fix the problem.
    pub fn text(&self, alloc: Global) -> Result<String, AllocError>
        ensures { IfOk result (λ text. string_bytes text ≡ page_text self.now) }
    {
        let mut text = String::new(alloc);
        self.push_head(&mut text)?;
        self.push_body(&mut text)?;
        Ok(text)
    }

    /// Adds the text after the heading.
    fn push_body(&self, text: &mut String) -> Result<(), AllocError>
        ensures { OnOk result (string_bytes text.new ≡ string_bytes text.old ++ body_text self.now) }
    {
        push_all(text, &["\n", self.rule, "\n"])?;
        self.push_end(text)
    }

    /// Adds the text after the rule.
    fn push_end(&self, text: &mut String) -> Result<(), AllocError>
        ensures { OnOk result (string_bytes text.new ≡ string_bytes text.old ++ end_text self.now) }
    {
        push_example(text, self.example)?;
        push_mend(text, self.mend)
    }

    /// Adds its name and what it is about, in one line.
    pub fn push_head(&self, text: &mut String) -> Result<(), AllocError>
        ensures { OnOk result (string_bytes text.new ≡ string_bytes text.old ++ head_text self.now) }
    {
        push_all(text, &[self.name, ": ", self.about, "\n"])
    }
}

/// Returns whether a word is one of these.
fn has_word(words: &[&str], word: &str) -> bool
    ensures { result ≡ list_any (λ one. bytes_eq one.now word.now) words.now }
{
    words.iter().any(|one| *one == word)
}

/// Returns whether a line starts with one of these words.
fn begins_with_one(line: &str, words: &[&str]) -> bool {
    for word in words {
        if begins(line, *word) {
            return true;
        }
    }
    false
}

/// Returns whether a line is this word, or starts with it and a space.
fn begins(line: &str, word: &str) -> bool {
    match line.strip_prefix(word) {
        Some(rest) => rest.is_empty() || rest.starts_with(' '),
        None => false,
    }
}

/// Adds an example.
fn push_example(text: &mut String, example: Example) -> Result<(), AllocError>
    ensures { OnOk result (string_bytes text.new ≡ string_bytes text.old ++ example_text example) }
{
    match example {
        Example::Nothing => Ok(()),
        Example::Program(told) => {
            push_program(text, told.lines)?;
            push_told(text, told)
        }
        Example::WithInput(given) => {
            push_program(text, given.told.lines)?;
            push_told_of(text, given)
        }
        Example::WithTrace(traced) => {
            push_program(text, traced.told.lines)?;
            push_told_by(text, traced)
        }
        Example::Shape(shape) => {
            push_program(text, shape.lines)?;
            push_place(text, shape.name)
        }
    }
}

/// Adds how to fix the problem, if the page has that.
fn push_mend(text: &mut String, mend: Option<&str>) -> Result<(), AllocError>
    ensures { OnOk result (string_bytes text.new ≡ string_bytes text.old ++ mend_text mend.entry) }
{
    match mend {
        None => Ok(()),
        Some(mend) => push_all(text, &["\n", mend, "\n"]),
    }
}

/// Adds the lines of a program.
fn push_program(text: &mut String, lines: &[&str]) -> Result<(), AllocError>
    ensures { OnOk result (string_bytes text.new ≡ string_bytes text.old ++ program_text lines.now) }
{
    text.push('\n')?;
    push_lines(text, lines)
}

/// Adds lines, each indented by four spaces.
fn push_lines(text: &mut String, lines: &[&str]) -> Result<(), AllocError>
    ensures { OnOk result (string_bytes text.new
        ≡ string_bytes text.old ++ flat_map indented lines.now) }
{
    for line in lines {
        push_all(text, &["    ", *line, "\n"])?;
    }
    Ok(())
}

/// Adds an input, and a command with its output.
fn push_told_of(text: &mut String, given: SampleWithInput) -> Result<(), AllocError>
    ensures { OnOk result (string_bytes text.new ≡ string_bytes text.old ++ given_text given) }
{
    push_input(text, given.input)?;
    push_told(text, given.told)
}

/// Adds a trace, and a command with its output.
fn push_told_by(text: &mut String, traced: Traced) -> Result<(), AllocError>
    ensures { OnOk result (string_bytes text.new ≡ string_bytes text.old ++ traced_text traced) }
{
    push_trace(text, traced.trace)?;
    push_told(text, traced.told)
}

/// Adds the lines of a trace.
fn push_trace(text: &mut String, lines: &[&str]) -> Result<(), AllocError>
    ensures { OnOk result (string_bytes text.new ≡ string_bytes text.old ++ trace_text lines.now) }
{
    text.push_str("\n  program.trace:\n")?;
    push_lines(text, lines)
}

/// Adds an input.
fn push_input(text: &mut String, input: &str) -> Result<(), AllocError>
    ensures { OnOk result (string_bytes text.new ≡ string_bytes text.old ++ input_text input.now) }
{
    push_all(text, &["\n  input.json: ", input, "\n"])
}

/// Adds the file that has the complete program of a pattern.
fn push_place(text: &mut String, name: &str) -> Result<(), AllocError>
    ensures { OnOk result (string_bytes text.new ≡ string_bytes text.old ++ place_text name.now) }
{
    push_all(text, &["\n  Complete program: examples/", name, ".afx\n"])
}

/// Adds a command and its output.
fn push_told(text: &mut String, told: Sample) -> Result<(), AllocError>
    ensures { OnOk result (string_bytes text.new ≡ string_bytes text.old ++ told_text told) }
{
    push_all(text, &["\n  $ afx ", told.command, "\n  ", told.line, "\n"])
}

/// Adds these texts, one after the other.
pub fn push_all(text: &mut String, pieces: &[&str]) -> Result<(), AllocError>
    ensures { OnOk result (string_bytes text.new
        ≡ string_bytes text.old ++ flat_map (λ piece. piece.now) pieces.now) }
{
    for piece in pieces {
        text.push_str(*piece)?;
    }
    Ok(())
}
