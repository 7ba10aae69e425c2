//! Parts of objects.

use serde_json::Value;

/// Returns a number in an object.
pub fn number_in(object: &Value, name: &str) -> Option<u64> {
    object.get(name).and_then(Value::as_u64)
}

/// Returns a list in an object, or an empty list if it has none with this name.
pub fn list_in<'v>(object: &'v Value, name: &str) -> &'v [Value] {
    match object.get(name).and_then(Value::as_array) {
        Some(list) => list,
        None => &[],
    }
}

/// Returns a text in an object, or an empty text if it has none with this name.
pub fn text_in<'v>(object: &'v Value, name: &str) -> &'v str {
    object.get(name).and_then(Value::as_str).unwrap_or("")
}
