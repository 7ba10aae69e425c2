//! The initial contents of the arrays.

ghost use Rattle.std.specs.Prelude.{◌≡◌, ◌++◌, [], map, IfErr, IfOk, OnOk, Some, option_map};
ghost use Rattle.std.specs.List.{flat_map};
ghost use Rattle.std.specs.String.{string_bytes};
ghost use Rattle.types.specs.Inputs.{IsInput};
ghost use Rattle.types.specs.Translation.{input as lists_of};
ghost use Rattle.types.specs.Typed.{code_of};
ghost use Rattle.command_line.specs.Lists.{lists_in as lists_among};
ghost use Rattle.command_line.specs.Requests.{FromBytes, FromFile, source as source_of};
ghost use Rattle.files.specs.Held.{BeginsWith, HasMistakeIn, SaysText, TellsNoInput, after_comma};
ghost use Rattle.files.specs.Held.{bytes_text as text_of_bytes, joined as joined_by};
ghost use Rattle.files.specs.Held.{behind_list, lists_text as text_of_lists, member, member_of, members};
ghost use Rattle.files.specs.Held.{shown};
ghost use Rattle.files.specs.Held.{zeros as zeros_of};

use crate::bytes_input::with_bytes;
use crate::file_source::{FileSource, read_file};
use command_line::lists::{awaits, list_of};
use command_line::request::InputSource;
use failures::failure::Failure;
use std::alloc::{AllocError, Global};
use types::input::Input;
use types::typed::Typed;

/// Returns the input of a program: that of this source, or zeros if there is none.
pub fn input_of<F: FileSource>(
    alloc: Global,
    files: &mut F,
    typed: &Typed,
    source: Option<InputSource<'_>>,
) -> Result<Input, Failure>
    ensures begins { let from = option_map source_of source.entry in IfOk result
        (λ i. BeginsWith from (F.held files.old) (code_of typed.now).arrays (lists_of i)) }
    ensures fits { IfOk result (λ i. IsInput (code_of typed.now).arrays (lists_of i)) }
    ensures why { let from = option_map source_of source.entry in IfErr result
        (TellsNoInput from (F.held files.old) (code_of typed.now).arrays) }
    ensures keeps { F.held files.new ≡ F.held files.old }
{
    match source {
        Some(InputSource::File(name)) => input_in(alloc, files, typed, name),
        Some(InputSource::Lists(words)) => lists_in(alloc, typed, words),
        Some(InputSource::Bytes { name, file }) => bytes_in(alloc, files, typed, name, file),
        None => zeros(alloc, typed),
    }
}

/// Returns the lists in a JSON file.
fn input_in<F: FileSource>(
    alloc: Global,
    files: &mut F,
    typed: &Typed,
    name: &str,
) -> Result<Input, Failure>
    ensures says { IfOk result (λ i. BeginsWith (Some (FromFile name.now)) (F.held files.old)
        (code_of typed.now).arrays (lists_of i)) }
    ensures fits { IfOk result (λ i. IsInput (code_of typed.now).arrays (lists_of i)) }
    ensures why { IfErr result
        (TellsNoInput (Some (FromFile name.now)) (F.held files.old) (code_of typed.now).arrays) }
    ensures keeps { F.held files.new ≡ F.held files.old }
{
    let bytes = read_file(alloc, files, name)?;
    match std::str::from_utf8(&bytes) {
        Ok(text) => read(alloc, typed, text),
        Err(_) => Err(Failure::not_utf8(alloc, name)),
    }
}

/// Returns the lists in a JSON text.
fn read(alloc: Global, typed: &Typed, text: &str) -> Result<Input, Failure>
    ensures says { IfOk result (λ i. SaysText text.now (code_of typed.now).arrays (lists_of i)) }
    ensures fits { IfOk result (λ i. IsInput (code_of typed.now).arrays (lists_of i)) }
    ensures why { IfErr result (HasMistakeIn text.now (code_of typed.now).arrays) }
{
    match Input::from_json(alloc, typed, text) {
        Ok(input) => Ok(input),
        Err(error) => Err(Failure::Input(error)),
    }
}

/// Returns the input in which arrays have the elements of the lists among these arguments.
fn lists_in(alloc: Global, typed: &Typed, words: &[String]) -> Result<Input, Failure>
    ensures says { IfOk result (λ i. SaysText (text_of_lists (map string_bytes words.now))
        (code_of typed.now).arrays (lists_of i)) }
    ensures fits { IfOk result (λ i. IsInput (code_of typed.now).arrays (lists_of i)) }
    ensures why { IfErr result (HasMistakeIn (text_of_lists (map string_bytes words.now))
        (code_of typed.now).arrays) }
{
    match lists_text(alloc, words) {
        Ok(text) => read(alloc, typed, text.as_str()),
        Err(AllocError) => Err(Failure::NoMemory),
    }
}

/// Returns the input in which one array has the bytes of a file.
fn bytes_in<F: FileSource>(
    alloc: Global,
    files: &mut F,
    typed: &Typed,
    name: &str,
    file: &str,
) -> Result<Input, Failure>
    ensures says { IfOk result (λ i. BeginsWith (Some (FromBytes name.now file.now)) (F.held files.old)
        (code_of typed.now).arrays (lists_of i)) }
    ensures fits { IfOk result (λ i. IsInput (code_of typed.now).arrays (lists_of i)) }
    ensures why { IfErr result (TellsNoInput (Some (FromBytes name.now file.now))
        (F.held files.old) (code_of typed.now).arrays) }
    ensures keeps { F.held files.new ≡ F.held files.old }
{
    let bytes = read_file(alloc, files, file)?;
    with_bytes(alloc, typed, name, &bytes)
}

// ---- JSON texts

/// Returns the JSON text of the lists among these arguments.
pub fn lists_text(alloc: Global, words: &[String]) -> Result<String, AllocError>
    ensures { IfOk result
        (λ text. string_bytes text ≡ text_of_lists (map string_bytes words.now)) }
{
    let mut text = String::from_str(alloc, "{")?;
    push_lists(&mut text, words)?;
    text.push_str("}")?;
    Ok(text)
}

/// Adds the members of the lists among these arguments, with commas between them.
fn push_lists(text: &mut String, words: &[String]) -> Result<(), AllocError>
    ensures { OnOk result (string_bytes text.new
        ≡ string_bytes text.old ++ members [] (lists_among (map string_bytes words.now))) }
{
    let mut awaited = false;
    let mut before = "";
    for word in words {
        let list = list_of(awaited, word.as_str());
        before = push_if_list(text, before, list)?;
        awaited = awaits(awaited, word.as_str());
    }
    Ok(())
}

/// Adds the member of a list after another text, if there is a list. Returns the text before the
/// next member.
fn push_if_list(
    text: &mut String,
    before: &'static str,
    list: Option<&str>,
) -> Result<&'static str, AllocError>
    ensures added { OnOk result (string_bytes text.new ≡ string_bytes text.old
        ++ shown before.now (option_map (λ l. l.now) list.entry)) }
    ensures behind { IfOk result
        (λ behind. behind.now ≡ behind_list before.now (option_map (λ l. l.now) list.entry)) }
{
    match list {
        Some(list) => {
            push_list(text, before, list)?;
            Ok(",")
        }
        None => Ok(before),
    }
}

/// Adds the member of a list after another text: `"a":[1,2,3]` of `a=1,2,3`.
fn push_list(text: &mut String, before: &str, list: &str) -> Result<(), AllocError>
    ensures { OnOk result (string_bytes text.new
        ≡ string_bytes text.old ++ (before.now ++ member list.now)) }
{
    match list.split_once('=') {
        Some((name, elements)) => push_member(text, before, name, elements),
        None => push_member(text, before, list, ""),
    }
}

/// Adds the member of an array with these elements after another text.
fn push_member(
    text: &mut String,
    before: &str,
    name: &str,
    elements: &str,
) -> Result<(), AllocError>
    ensures { OnOk result (string_bytes text.new
        ≡ string_bytes text.old ++ (before.now ++ member_of name.now elements.now)) }
{
    write!(text, "{before}\"{name}\":[{elements}]")
}

/// Returns the JSON text of one array whose elements are these bytes.
pub fn bytes_text(alloc: Global, name: &str, bytes: &[u8]) -> Result<String, AllocError>
    ensures { IfOk result (λ text. string_bytes text ≡ text_of_bytes name.now bytes.now) }
{
    let elements = joined(alloc, bytes)?;
    let mut text = String::from_str(alloc, "{")?;
    push_member(&mut text, "", name, elements.as_str())?;
    text.push_str("}")?;
    Ok(text)
}

/// Returns these numbers, with commas between them.
fn joined(alloc: Global, bytes: &[u8]) -> Result<String, AllocError>
    ensures { IfOk result (λ text. string_bytes text ≡ joined_by bytes.now) }
{
    let mut text = String::new(alloc);
    if let [first, others @ ..] = bytes {
        write!(&mut text, "{first}")?;
        push_others(&mut text, others)?;
    }
    Ok(text)
}

/// Adds these numbers, each after a comma.
fn push_others(text: &mut String, bytes: &[u8]) -> Result<(), AllocError>
    ensures { OnOk result (string_bytes text.new
        ≡ string_bytes text.old ++ flat_map after_comma bytes.now) }
{
    for byte in bytes {
        push_other(text, *byte)?;
    }
    Ok(())
}

/// Adds a number after a comma.
fn push_other(text: &mut String, byte: u8) -> Result<(), AllocError>
    ensures { OnOk result (string_bytes text.new ≡ string_bytes text.old ++ after_comma byte) }
{
    write!(text, ",{byte}")
}

/// Returns an input of zeros.
fn zeros(alloc: Global, typed: &Typed) -> Result<Input, Failure>
    ensures zeros { IfOk result (λ i. lists_of i ≡ zeros_of (code_of typed.now).arrays) }
    ensures fits { IfOk result (λ i. IsInput (code_of typed.now).arrays (lists_of i)) }
    ensures why { IfErr result (λ failure. failure ≡ Failure.NoMemory) }
{
    match Input::zeros(alloc, typed) {
        Ok(input) => Ok(input),
        Err(_) => Err(Failure::NoMemory),
    }
}
