//! Inputs that don't match their program.

use excerpts::escaped::Escaped;
use excerpts::heading::Heading;
use excerpts::nouns::noun;
use excerpts::similar::similar;
use excerpts::source::line_of;
use serde_json::{Error, Value};
use std::alloc::{AllocError, Global};
use syntax::TextPlace;
use syntax_tree::tree::ElementType;
use types::code::Array;
use types::input_error::InputError;

/// How an input is given.
#[derive(Clone, Copy, PartialEq, Eq, Debug)]
pub enum Form {
    /// A file has its JSON text.
    Json,
    /// `--set` has the elements of an array.
    Numbers,
    /// `--text` names a file whose bytes are the elements of an array.
    Bytes,
}

/// The JSON text of an input, and how that is given.
#[derive(Clone, Copy)]
pub struct GivenInput<'i> {
    pub text: &'i str,
    pub form: Form,
}

/// Returns the text after the line of an input error: where, why, and how to fix it. The arrays are
/// those of the program.
pub fn explained_input(
    alloc: Global,
    arrays: &[Array],
    given: GivenInput<'_>,
    error: &InputError,
    heading: Heading<'_>,
) -> Result<String, AllocError> {
    let mut told = String::new(alloc);
    let GivenInput { text, form } = given;
    let value = match Value::from_str(alloc, text) {
        Ok(value) => value,
        Err(wrong) => {
            if wrong.is_memory() {
                return Err(AllocError);
            }
            push_unread(alloc, &mut told, text, &wrong, heading)?;
            return Ok(told);
        }
    };
    heading.push(&mut told, None)?;
    match error {
        InputError::NotAnObject => told.push_str(NO_OBJECT)?,
        InputError::UnknownArray { name } => push_unknown(alloc, &mut told, arrays, name, form)?,
        InputError::WrongLength { name } => push_length(&mut told, arrays, &value, name, form)?,
        InputError::WrongElement { name } => push_element(alloc, &mut told, arrays, &value, name)?,
        _ => {}
    }
    Ok(told)
}

const NO_OBJECT: &str =
    "The input must be one object with a list of numbers for each array that doesn't start with zeros.
help: write {\"a\": [1, 2]}, where a is the name of an array.
";

const OUT_OF_RANGE: &str = "The number before this is too large.
help: use a number from -9223372036854775808 to 9223372036854775807.
";

/// Explains why a text can't be read as JSON.
fn push_unread(
    alloc: Global,
    told: &mut String,
    text: &str,
    wrong: &Error,
    heading: Heading<'_>,
) -> Result<(), AllocError> {
    let place = place_in(text, wrong.line(), wrong.column());
    heading.push_excerpt(told, text, place)?;
    let reason = format!(in alloc; "{wrong}")?;
    if reason.contains("number out of range") {
        return told.push_str(OUT_OF_RANGE);
    }
    push_no_json(told, text, place, wrong.is_eof())
}

/// Returns the place of a byte of a line, given by its number from 1.
fn place_in(text: &str, line: usize, byte: usize) -> TextPlace {
    let mut place = TextPlace {
        line: u32::try_from(line).unwrap_or(1),
        column: 1,
    };
    let characters = characters_of(line_of(text, place), byte);
    place.column = u32::try_from(characters).unwrap_or(1).max(1);
    place
}

/// Adds where the text stops being JSON, and how to fix it.
fn push_no_json(
    told: &mut String,
    text: &str,
    place: TextPlace,
    is_cut: bool,
) -> Result<(), AllocError> {
    told.push_str(if is_cut {
        "The JSON ends too early.\n"
    } else {
        "Invalid JSON.\n"
    })?;
    let mend = if !text.trim_start().starts_with('{') {
        FORM
    } else if is_cut {
        "close every open list with `]`, and the object with `}`"
    } else {
        mend_of_json(text, place)
    };
    write!(told, "help: {mend}.\n")
}

const FORM: &str = "write {\"a\": [1, 2]}, where a is the name of an array";

/// Returns what to write instead of a character that JSON doesn't have there.
fn mend_of_json(text: &str, place: TextPlace) -> &'static str {
    let before = usize::try_from(place.column).unwrap_or(1).saturating_sub(1);
    match line_of(text, place).chars().nth(before) {
        Some('\'') => "write names in double quotes, as in {\"a\": [1, 2]}",
        Some(']') | Some('}') => "remove the comma before it, or write a number there",
        Some('/') | Some('#') => "remove the comment: JSON has no comments",
        Some(',') => "remove the comma, or write a number before it",
        Some(digit) if digit.is_ascii_digit() => {
            "separate numbers with `,`, and write them with digits only and no leading zeros"
        }
        Some(letter) if letter.is_ascii_alphabetic() => {
            "write numbers with digits only, and names in double quotes, as in {\"a\": [1, 2]}"
        }
        _ => FORM,
    }
}

/// Returns the number of characters that start in the first bytes of a line. Each byte past its end
/// counts as one.
fn characters_of(line: &str, bytes: usize) -> usize {
    let mut many = bytes.saturating_sub(line.len());
    for (at, _) in line.char_indices() {
        if at < bytes {
            many = many.saturating_add(1);
        }
    }
    many
}

/// Adds which arrays the program has.
fn push_arrays(told: &mut String, arrays: &[Array]) -> Result<(), AllocError> {
    if arrays.is_empty() {
        return told.push_str("The program has no arrays.\n");
    }
    let mut before = "Arrays: ";
    for array in arrays {
        let name = array.name.as_str();
        let element = element_text(array.element);
        let length = array.length;
        write!(told, "{before}{name}: {element}[{length}]")?;
        before = ", ";
    }
    told.push('\n')
}

/// Returns the name of an element type.
fn element_text(element: ElementType) -> &'static str {
    match element {
        ElementType::Int => "int",
        ElementType::Byte => "byte",
    }
}

/// Explains a name that no array has.
fn push_unknown(
    alloc: Global,
    told: &mut String,
    arrays: &[Array],
    name: &str,
    form: Form,
) -> Result<(), AllocError> {
    let shown = Escaped(name);
    write!(told, "The program has no array `{shown}`.")?;
    match similar_array(alloc, arrays, name)? {
        Some(other) => write!(told, " Did you mean `{other}`?\n")?,
        None => told.push('\n')?,
    }
    push_arrays(told, arrays)?;
    told.push_str(match form {
        Form::Json => "help: remove the member, or rename it to an array.\n",
        Form::Numbers => "help: write the name of an array before the `=`.\n",
        Form::Bytes => "help: write the name of an array before the `=`.\n",
    })
}

/// Returns the name of the array that is spelled most like a name.
fn similar_array<'a>(
    alloc: Global,
    arrays: &'a [Array],
    name: &str,
) -> Result<Option<&'a str>, AllocError> {
    let mut names = Vec::new(alloc);
    for array in arrays {
        names.push(array.name.as_str())?;
    }
    similar(alloc, name, &names)
}

/// Returns the array with this name.
fn array_of<'a>(arrays: &'a [Array], name: &str) -> Option<&'a Array> {
    for array in arrays {
        if array.name.as_str() == name {
            return Some(array);
        }
    }
    None
}

/// Adds how many elements an array has, and how many are given.
fn push_length(
    told: &mut String,
    arrays: &[Array],
    value: &Value,
    name: &str,
    form: Form,
) -> Result<(), AllocError> {
    let Some(array) = array_of(arrays, name) else {
        return Ok(());
    };
    let wanted = array.length;
    let Some(list) = value.get(name).and_then(Value::as_array) else {
        return push_no_list(told, value, name, wanted);
    };
    let elements = noun(wanted, "element", "elements");
    let (giver, given) = (giver_of(form), list.len());
    write!(
        told,
        "The array `{name}` has {wanted} {elements}, but {giver} {given}.\n"
    )?;
    told.push_str(match form {
        Form::Json =>
            "help: write one number for each element; an omitted array starts with zeros.\n",
        Form::Numbers => "help: write one number for each element.\n",
        Form::Bytes => return push_bytes_mend(told, array, list),
    })
}

/// Adds how to fix a file that doesn't have one byte for each element of an array.
fn push_bytes_mend(told: &mut String, array: &Array, list: &[Value]) -> Result<(), AllocError> {
    let (wanted, given) = (array.length, list.len());
    if given == 0 {
        return told.push_str("help: name a file with one byte for each element.\n");
    }
    if given == wanted.saturating_add(1) && ends_line(list) {
        return told.push_str(
            "help: leave out the line end at the end of the file, as `printf` does.\n",
        );
    }
    let (name, element) = (array.name.as_str(), element_text(array.element));
    let bytes = noun(wanted, "byte", "bytes");
    write!(
        told,
        "help: declare `{name}: {element}[{given}]`, or name a file of {wanted} {bytes}.\n"
    )
}

/// Returns what gives so many elements.
fn giver_of(form: Form) -> &'static str {
    match form {
        Form::Json => "the list has",
        Form::Numbers => "`--set` gives",
        Form::Bytes => "the file has",
    }
}

/// Returns whether the last of these bytes is a line end.
fn ends_line(bytes: &[Value]) -> bool {
    bytes.last().and_then(Value::as_i64) == Some(10)
}

/// Adds that an array with this number of elements needs a list.
fn push_no_list(
    told: &mut String,
    value: &Value,
    name: &str,
    wanted: usize,
) -> Result<(), AllocError> {
    let numbers = noun(wanted, "number", "numbers");
    write!(
        told,
        "The array `{name}` needs a list of {wanted} {numbers}.\n"
    )?;
    if value.get(name).and_then(Value::as_str).is_some() {
        write!(
            told,
            "help: write the code of each letter, as in [107, 105]; if no other array has an input, use `--text {name}=FILE`.\n"
        )
    } else {
        told.push_str(
            "help: write one number for each element; an omitted array starts with zeros.\n",
        )
    }
}

/// Adds which element doesn't fit in an array.
fn push_element(
    alloc: Global,
    told: &mut String,
    arrays: &[Array],
    value: &Value,
    name: &str,
) -> Result<(), AllocError> {
    let Some(array) = array_of(arrays, name) else {
        return Ok(());
    };
    let Some(list) = value.get(name).and_then(Value::as_array) else {
        return Ok(());
    };
    let mut is_fraction = false;
    for (number, element) in list.iter().enumerate() {
        if !fits(array.element, element) {
            write!(told, "Element {number} of `{name}` (counting from 0) is ")?;
            push_value(alloc, told, element)?;
            is_fraction = element.is_f64();
            break;
        }
    }
    told.push_str(match array.element {
        ElementType::Int => "An int is an integer from -9223372036854775808 to 9223372036854775807",
        ElementType::Byte => "A byte is an integer from 0 to 255",
    })?;
    told.push_str(", written without a decimal point or exponent.\n")?;
    told.push_str(if is_fraction {
        DIGITS
    } else {
        "help: use a number in this range.\n"
    })
}

const DIGITS: &str =
    "help: write an integer in this range with digits only, such as 0 for -0 and 1000 for 1e3.\n";

/// The number of characters that are shown of an element.
const SHOWN: usize = 60;

/// Adds an element as JSON, with `..` for what is left out, and a newline.
fn push_value(alloc: Global, told: &mut String, value: &Value) -> Result<(), AllocError> {
    let text = value.to_string(alloc)?;
    let mut begin = String::new(alloc);
    for character in text.chars().take(SHOWN) {
        begin.push(character)?;
    }
    let shown = Escaped(begin.as_str());
    write!(told, "{shown}")?;
    told.push_str(if begin.len() < text.len() {
        "..\n"
    } else {
        ".\n"
    })
}

/// Returns whether a value is a number that fits in an element of this type.
fn fits(element: ElementType, value: &Value) -> bool {
    match value.as_i64() {
        Some(number) => match element {
            ElementType::Int => true,
            ElementType::Byte => 0 <= number && number <= 255,
        },
        None => false,
    }
}
