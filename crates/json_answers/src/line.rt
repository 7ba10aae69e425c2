//! The line of an object.

ghost use Rattle.std.specs.Prelude.{◌≡◌, ◌≤◌, IfOk, OnOk, false};
ghost use Rattle.std.specs.String.{string_bytes};
ghost use Rattle.serde_json.specs.Data.{depth};
ghost use Rattle.serde_json.specs.Read.{max_depth};
ghost use Rattle.serde_json.specs.View.{view};
ghost use Rattle.serde_json.specs.Written.{has_float};
ghost use Rattle.json_answers.specs.Pieces.{IsReadBack, line};

use serde_json::Value;
use std::alloc::{AllocError, Global};

/// Returns the compact text of a value, followed by a line feed. Example: `{"status":0}` and a line
/// feed for `{"status": 0}`.
pub fn line_of(alloc: Global, value: &Value) -> Result<String, AllocError>
    requires no_float { has_float (view value.now) ≡ false }
    requires shallow { depth (view value.now) ≤ max_depth }
    ensures text { IfOk result (λ text. string_bytes text ≡ line (view value.now)) }
    ensures reads { OnOk result (IsReadBack (view value.now)) }
{
    let mut text = value.to_string(alloc)?;
    text.push('\n')?;
    Ok(text)
}
