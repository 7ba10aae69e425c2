//! The initial contents of the arrays.

ghost use Rattle.std.specs.Prelude.{◌≡◌, ◌↔◌, Err, IfErr, IfOk, IfSome, IsTrue, None, Ok, Some};
ghost use Rattle.std.specs.Prelude.{map, not, option_map, pos, replicate};
ghost use Rattle.std.specs.BTreeMap.{IsOrdered, keys};
ghost use Rattle.std.specs.List.{find, list_all};
ghost use Rattle.std.specs.String.{string_bytes, string_cmp};
ghost use Rattle.serde_json.specs.Find.{get};
ghost use Rattle.serde_json.specs.View.{items_view, view};
ghost use Rattle.types.specs.Contents.{FitsArrays};
ghost use Rattle.types.specs.InputErrors.{mistake_in, told};
ghost use Rattle.types.specs.Inputs.{BadElement, IsInput, data_says, member_says, members_say};
ghost use Rattle.types.specs.Inputs.{numbers_in, text_says, value_says, wrong_input, wrong_row};
ghost use Rattle.types.specs.InputNames.{is_array};
ghost use Rattle.types.specs.Translation.{array as array_of};
ghost use Rattle.types.specs.Typed.{code_of};
ghost use Rattle.types.specs.Value.{holds_number};

use crate::code::Array;
use crate::element::holds;
use crate::input_error::InputError;
use crate::typed::Typed;
use serde_json::{Map, Value};
use std::alloc::{AllocError, Global};
use syntax_tree::tree::ElementType;

/// The contents of the arrays at the start of a run, in the order of declaration.
#[derive(Clone, PartialEq, Eq, Debug, Drop)]
pub struct Input {
    pub arrays: Vec<Vec<i64>>,
}

impl Input {
    ghost use Rattle.types.specs.Translation.{input};

    /// Returns zeros for all elements.
    pub fn zeros(alloc: Global, typed: &Typed) -> Result<Input, AllocError>
        ensures zeros { IfOk result
            (λ i. input i ≡ map (λ a. replicate a.length (pos 0)) (code_of typed.now).arrays) }
        ensures fits { IfOk result (λ i. FitsArrays (code_of typed.now).arrays (input i)) }
    {
        let mut arrays = Vec::new(alloc);
        for array in &typed.code().arrays {
            arrays.push(vec![in alloc; 0; array.length]?)?;
        }
        Ok(Input { arrays })
    }

    /// Returns an input with these lists, one for each array in the order of declaration.
    pub fn new(alloc: Global, typed: &Typed, lists: Vec<Vec<i64>>) -> Result<Input, InputError>
        ensures lists { IfOk result (λ i. i.arrays ≡ lists) }
        ensures fits { IfOk result (λ i. IsInput (code_of typed.now).arrays (input i)) }
        ensures error { IfErr result (λ e. IfSome (told e) (λ m.
            wrong_input (code_of typed.now).arrays (map (λ v. v.items) lists.items) ≡ Some m)) }
    {
        let arrays = typed.code().arrays.as_slice();
        if lists.len() != arrays.len() {
            return Err(InputError::WrongNumberOfLists);
        }
        for (number, array) in arrays.iter().enumerate() {
            if let Some(fault) = list_fault(array, &lists[number]) {
                return Err(refusal(alloc, fault, array)?);
            }
        }
        Ok(Input { arrays: lists })
    }

    /// Parses a JSON object with a list of numbers for each array. Arrays that it doesn't name
    /// start with zeros.
    pub fn from_json(alloc: Global, typed: &Typed, text: &str) -> Result<Input, InputError>
        ensures says { IfOk result
            (λ i. text_says (code_of typed.now).arrays text.now ≡ Ok (input i)) }
        ensures fits { IfOk result (λ i. IsInput (code_of typed.now).arrays (input i)) }
        ensures error { IfErr result (λ e. IfSome (told e)
            (λ m. text_says (code_of typed.now).arrays text.now ≡ Err m)) }
    {
        let arrays = typed.code().arrays.as_slice();
        let value = match Value::from_str(alloc, text) {
            Ok(value) => value,
            Err(error) if error.is_memory() => return Err(InputError::OutOfMemory),
            Err(_) => return Err(InputError::NotJson),
        };
        let arrays = lists_in(alloc, arrays, &value)?;
        Ok(Input { arrays })
    }

    /// Returns whether a program can start with this input: one list for each array, of the array's
    /// length, with elements that fit in the element type.
    pub fn fits(&self, typed: &Typed) -> bool
        ensures { IsTrue result ↔ IsInput (code_of typed.now).arrays (input self.now) }
    {
        let arrays = typed.code().arrays.as_slice();
        if self.arrays.len() != arrays.len() {
            return false;
        }
        for (number, array) in arrays.iter().enumerate() {
            if list_fault(array, &self.arrays[number]).is_some() {
                return false;
            }
        }
        true
    }
}

/// The mistake in a list for an array.
#[derive(Clone, Copy)]
pub enum ListFault {
    /// `[1, 2]` for `array a: int[1]`
    Length,
    /// `[256]` for `array a: byte[1]`
    Element,
}

/// Returns the mistake in a list for an array. The length is checked before the elements.
fn list_fault(array: &Array, list: &[i64]) -> Option<ListFault>
    ensures { option_map (mistake_in (string_bytes array.now.name)) result
        ≡ wrong_row (array_of array.now) list.now }
{
    if list.len() != array.length {
        return Some(ListFault::Length);
    }
    if !all_held(array.element, list) {
        return Some(ListFault::Element);
    }
    None
}

/// Returns whether all numbers of a list fit in an element type.
fn all_held(element: ElementType, list: &[i64]) -> bool
    ensures { result ≡ list_all (holds_number element) list.now }
{
    list.iter().all(|number| holds(element, *number))
}

/// Returns the error for a mistake in the list for an array.
fn refusal(alloc: Global, fault: ListFault, array: &Array) -> Result<InputError, AllocError>
    ensures { IfOk result (λ e. told e ≡ Some (mistake_in (string_bytes array.now.name) fault)) }
{
    let name = String::from_str(alloc, array.name.as_str())?;
    match fault {
        ListFault::Length => Ok(InputError::WrongLength { name }),
        ListFault::Element => Ok(InputError::WrongElement { name }),
    }
}

/// Returns the lists that a JSON value gives for arrays.
fn lists_in(alloc: Global, arrays: &[Array], value: &Value) -> Result<Vec<Vec<i64>>, InputError>
    ensures says { IfOk result (λ ls. data_says (map array_of arrays.now) (view value.now)
        ≡ Ok (map (λ v. v.items) ls.items)) }
    ensures error { IfErr result (λ e. IfSome (told e)
        (λ m. data_says (map array_of arrays.now) (view value.now) ≡ Err m)) }
{
    let members = match value.as_object() {
        None => return Err(InputError::NotAnObject),
        Some(members) => members,
    };
    if let Some(name) = first_stranger(members, arrays) {
        let name = name.clone()?;
        return Err(InputError::UnknownArray { name });
    }
    lists_of(alloc, arrays, value)
}

/// Returns the first member, in byte order, that names no array.
fn first_stranger<'m>(members: &'m Map<String, Value>, arrays: &[Array]) -> Option<&'m String>
    ensures first { option_map (λ s. s.now) result
        ≡ find (λ name. not (is_array arrays.now (string_bytes name))) (keys members.now) }
    ensures ordered { IsOrdered string_cmp members.now }
{
    members.keys().find(|name| !names_array(arrays, name))
}

/// Returns whether an array has this name.
fn names_array(arrays: &[Array], name: &String) -> bool
    ensures { result ≡ is_array arrays.now (string_bytes name.now) }
{
    arrays.iter().any(|array| array.name == *name)
}

/// Returns the lists that the members of a JSON object give for arrays.
fn lists_of(alloc: Global, arrays: &[Array], object: &Value) -> Result<Vec<Vec<i64>>, InputError>
    ensures says { IfOk result (λ ls.
        members_say (λ name. get name (view object.now)) (map array_of arrays.now)
        ≡ Ok (map (λ v. v.items) ls.items)) }
    ensures error { IfErr result (λ e. IfSome (told e)
        (λ m. members_say (λ name. get name (view object.now)) (map array_of arrays.now) ≡ Err m)) }
{
    let mut lists = Vec::new(alloc);
    for array in arrays {
        lists.push(member_of(alloc, array, object)?)?;
    }
    Ok(lists)
}

/// Returns the list that a JSON object gives for an array, or zeros if the object has no such
/// member.
fn member_of(alloc: Global, array: &Array, object: &Value) -> Result<Vec<i64>, InputError>
    ensures says { IfOk result (λ v. member_says (array_of array.now)
        (get (string_bytes array.now.name) (view object.now)) ≡ Ok v.items) }
    ensures error { IfErr result (λ e. IfSome (told e) (λ m. member_says (array_of array.now)
        (get (string_bytes array.now.name) (view object.now)) ≡ Err m)) }
{
    match object.get(array.name.as_str()) {
        None => Ok(vec![in alloc; 0; array.length]?),
        Some(value) => list_of(alloc, array, value),
    }
}

/// Returns the list that a JSON value gives for an array.
fn list_of(alloc: Global, array: &Array, value: &Value) -> Result<Vec<i64>, InputError>
    ensures says { IfOk result (λ v. value_says (array_of array.now) (view value.now) ≡ Ok v.items) }
    ensures error { IfErr result (λ e. IfSome (told e)
        (λ m. value_says (array_of array.now) (view value.now) ≡ Err m)) }
{
    match value.as_array() {
        None => Err(refusal(alloc, ListFault::Length, array)?),
        Some(elements) => {
            if elements.len() != array.length {
                return Err(refusal(alloc, ListFault::Length, array)?);
            }
            numbers_of(alloc, array, elements)
        }
    }
}

/// Returns the elements of a list for an array. Each element must fit in the element type.
fn numbers_of(alloc: Global, array: &Array, elements: &[Value]) -> Result<Vec<i64>, InputError>
    ensures says { IfOk result (λ v.
        numbers_in array.now.element (items_view elements.now) ≡ Some v.items) }
    ensures error { IfErr result (λ e. IfSome (told e)
        (λ m. (m ≡ BadElement (string_bytes array.now.name))
        × (numbers_in array.now.element (items_view elements.now) ≡ None))) }
{
    let mut numbers = Vec::with_capacity(alloc, array.length)?;
    for element in elements {
        match element.as_i64() {
            Some(number) if holds(array.element, number) => numbers.push(number)?,
            _ => return Err(refusal(alloc, ListFault::Element, array)?),
        }
    }
    Ok(numbers)
}
