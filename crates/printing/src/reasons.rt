//! The pieces of error messages, written without allocating.

ghost use Rattle.std.specs.Prelude.{◌≡◌, ◌<◌, ◌++◌};
ghost use Rattle.std.specs.Fmt.{decimal};
ghost use Rattle.syntax.specs.Refusals.{at_text, error_text as syntax_text};
ghost use Rattle.types.specs.Codes.{error_text, labelled};
ghost use Rattle.printing.specs.Appending.{Writes};
ghost use Rattle.printing.specs.Reasons.{digit, escaped, escaped_character, input_text};

use crate::emit::{EmitError, append, emit_count, emit_label};
use std::io::Write;
use syntax::TextPlace;
use syntax::error::SyntaxError;
use types::code::Label;
use types::error::TypeError;
use types::input_error::InputError;

/// Writes a text.
pub fn emit_text<W: Write>(err: &mut W, text: &str) -> Result<(), EmitError>
    ensures { Writes (W.contents err.old) (W.contents err.new) result text.now }
{
    append(err, text.as_bytes())
}

/// Writes a text and a name.
pub fn emit_named<W: Write>(err: &mut W, told: &str, name: &str) -> Result<(), EmitError>
    ensures { Writes (W.contents err.old) (W.contents err.new) result (told.now ++ name.now) }
{
    emit_text(err, told)?;
    emit_text(err, name)
}

/// Writes a text and a name that comes from outside: that of a file, or of a member of an input.
pub fn emit_file<W: Write>(err: &mut W, told: &str, name: &str) -> Result<(), EmitError>
    ensures { Writes (W.contents err.old) (W.contents err.new) result
        (told.now ++ escaped name.now) }
{
    emit_text(err, told)?;
    emit_escaped(err, name)
}

/// Writes a name, character by character.
fn emit_escaped<W: Write>(err: &mut W, name: &str) -> Result<(), EmitError>
    ensures { Writes (W.contents err.old) (W.contents err.new) result (escaped name.now) }
{
    for character in name.chars() {
        emit_character(err, character)?;
    }
    Ok(())
}

/// Writes a character of a name. Control characters are escaped by their number.
fn emit_character<W: Write>(err: &mut W, character: char) -> Result<(), EmitError>
    ensures { Writes (W.contents err.old) (W.contents err.new) result (escaped_character character) }
{
    if character.is_control() {
        let number = character as u8;
        append(
            err,
            &[b'\\', b'x', digit_of(number / 16), digit_of(number % 16)],
        )
    } else {
        append(err, character.encode_utf8(&mut [0; 4]).as_bytes())
    }
}

/// Returns a hexadecimal digit.
fn digit_of(number: u8) -> u8
    requires { number < 16 }
    ensures { result ≡ digit number }
{
    if number < 10 {
        b'0' + number
    } else {
        b'a' + (number - 10)
    }
}

/// Writes `S2 at 1:13`.
pub fn emit_syntax_error<W: Write>(err: &mut W, error: &SyntaxError) -> Result<(), EmitError>
    ensures { Writes (W.contents err.old) (W.contents err.new) result (syntax_text error.now) }
{
    emit_text(err, error.code())?;
    match error.place() {
        None => Ok(()),
        Some(place) => emit_place(err, place),
    }
}

/// Writes ` at 1:13`: the line before the column.
fn emit_place<W: Write>(err: &mut W, place: TextPlace) -> Result<(), EmitError>
    ensures { Writes (W.contents err.old) (W.contents err.new) result (at_text (Some place)) }
{
    emit_text(err, " at ")?;
    emit_label(err, place.line)?;
    emit_text(err, ":")?;
    emit_label(err, place.column)
}

/// Writes `Y1 at label 2`.
pub fn emit_type_error<W: Write>(err: &mut W, error: TypeError) -> Result<(), EmitError>
    ensures { Writes (W.contents err.old) (W.contents err.new) result (error_text error) }
{
    match error.label() {
        None => emit_text(err, error.code()),
        Some(label) => emit_at_label(err, error.code(), label),
    }
}

/// Writes a code and a label.
fn emit_at_label<W: Write>(err: &mut W, code: &str, label: Label) -> Result<(), EmitError>
    ensures { Writes (W.contents err.old) (W.contents err.new) result
        (labelled code.now (Some label)) }
{
    emit_text(err, code)?;
    emit_text(err, " at label ")?;
    emit_label(err, label)
}

/// Writes `N4 a`.
pub fn emit_input_error<W: Write>(err: &mut W, error: &InputError) -> Result<(), EmitError>
    ensures { Writes (W.contents err.old) (W.contents err.new) result (input_text error.now) }
{
    match error {
        InputError::NotJson => emit_text(err, "N1"),
        InputError::NotAnObject => emit_text(err, "N2"),
        InputError::UnknownArray { name } => emit_file(err, "N3 ", name.as_str()),
        InputError::WrongNumberOfLists => emit_text(err, "N4"),
        InputError::WrongLength { name } => emit_named(err, "N4 ", name.as_str()),
        InputError::WrongElement { name } => emit_named(err, "N5 ", name.as_str()),
        InputError::OutOfMemory => emit_text(err, "N6"),
    }
}

/// Writes a text and a number: `no leaf at choice 2`
pub fn emit_numbered<W: Write>(err: &mut W, told: &str, number: usize) -> Result<(), EmitError>
    ensures { Writes (W.contents err.old) (W.contents err.new) result
        (told.now ++ decimal number) }
{
    emit_text(err, told)?;
    emit_count(err, number)
}
