//! Inputs in which one array has the bytes of a file.

ghost use Rattle.std.specs.Prelude.{◌≡◌, ◌≤◌, IfErr, IfOk, Some, length, map, pos, replicate};
ghost use Rattle.std.specs.Prelude.{if◌then◌else◌};
ghost use Rattle.std.specs.Str.{bytes_eq};
ghost use Rattle.std.specs.String.{string_bytes};
ghost use Rattle.types.specs.Inputs.{IsInput, Stranger, wrong_input};
ghost use Rattle.types.specs.InputErrors.{told};
ghost use Rattle.types.specs.InputNames.{is_array};
ghost use Rattle.types.specs.Translation.{array as array_of, input as lists_of};
ghost use Rattle.types.specs.Typed.{code_of};
ghost use Rattle.files.specs.Held.{HasMistakeOf, HoldBytes, with_bytes as lists_with_bytes};
ghost use Rattle.files.specs.Held.{wrong_bytes};

use failures::failure::Failure;
use std::alloc::{AllocError, Global};
use types::code::Array;
use types::input::Input;
use types::input_error::InputError;
use types::typed::Typed;

/// Returns the input in which the array with this name has these bytes, and the other arrays have
/// zeros.
pub(crate) fn with_bytes(
    alloc: Global,
    typed: &Typed,
    name: &str,
    bytes: &[u8],
) -> Result<Input, Failure>
    ensures says { IfOk result
        (λ i. HoldBytes name.now bytes.now (code_of typed.now).arrays (lists_of i)) }
    ensures fits { IfOk result (λ i. IsInput (code_of typed.now).arrays (lists_of i)) }
    ensures why { IfErr result
        (HasMistakeOf (wrong_bytes name.now bytes.now (code_of typed.now).arrays)) }
{
    let arrays = typed.code().arrays.as_slice();
    if !names_array(arrays, name) {
        return Err(stranger(alloc, name));
    }
    match lists_with(alloc, arrays, name, bytes) {
        Ok(lists) => input_with(alloc, typed, lists),
        Err(AllocError) => Err(Failure::NoMemory),
    }
}

/// Returns the input with these lists.
fn input_with(alloc: Global, typed: &Typed, lists: Vec<Vec<i64>>) -> Result<Input, Failure>
    ensures lists { IfOk result (λ i. i.arrays ≡ lists) }
    ensures fits { IfOk result (λ i. IsInput (code_of typed.now).arrays (lists_of i)) }
    ensures why { IfErr result (HasMistakeOf
        (wrong_input (code_of typed.now).arrays (map (λ v. v.items) lists.items))) }
{
    match Input::new(alloc, typed, lists) {
        Ok(input) => Ok(input),
        Err(error) => Err(Failure::Input(error)),
    }
}

/// Returns the failure for a name that no array has.
fn stranger(alloc: Global, name: &str) -> Failure
    ensures { HasMistakeOf (Some (Stranger name.now)) result }
{
    match String::from_str(alloc, name) {
        Ok(name) => Failure::Input(InputError::UnknownArray { name }),
        Err(AllocError) => Failure::NoMemory,
    }
}

/// Returns whether an array has this name.
fn names_array(arrays: &[Array], name: &str) -> bool
    ensures { result ≡ is_array arrays.now name.now }
{
    arrays.iter().any(|array| array.name.as_str() == name)
}

/// Returns a list for each array: these bytes for the one with this name, and zeros for the others.
fn lists_with(
    alloc: Global,
    arrays: &[Array],
    name: &str,
    bytes: &[u8],
) -> Result<Vec<Vec<i64>>, AllocError>
    ensures { IfOk result (λ lists. map (λ v. v.items) lists.items
        ≡ lists_with_bytes name.now bytes.now (map array_of arrays.now)) }
{
    let mut lists = Vec::with_capacity(alloc, arrays.len())?;
    for array in arrays {
        lists.push(list_with(alloc, array, name, bytes)?)?;
    }
    Ok(lists)
}

/// Returns the list for an array: these bytes if it has this name, or else zeros.
fn list_with(alloc: Global, array: &Array, name: &str, bytes: &[u8]) -> Result<Vec<i64>, AllocError>
    ensures { IfOk result (λ list. list.items ≡ (if bytes_eq (string_bytes array.now.name) name.now
        then map pos bytes.now else replicate array.now.length (pos 0))) }
{
    if array.name.as_str() == name {
        return numbers(alloc, bytes);
    }
    Ok(vec![in alloc; 0; array.length]?)
}

/// Returns bytes as numbers.
fn numbers(alloc: Global, bytes: &[u8]) -> Result<Vec<i64>, AllocError>
    ensures { IfOk result (λ list. list.items ≡ map pos bytes.now) }
{
    let mut numbers = Vec::with_capacity(alloc, bytes.len())?;
    for byte in bytes {
        numbers.push(i64::from(*byte))?;
    }
    Ok(numbers)
}
