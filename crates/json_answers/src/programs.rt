//! The answers of `check`, `mhp` and `fmt --check`.

ghost use Rattle.std.specs.Prelude.{◌≡◌, IfOk, OnOk};
ghost use Rattle.std.specs.String.{string_bytes};
ghost use Rattle.serde_json.specs.View.{view};
ghost use Rattle.types.specs.Translation.{program};
ghost use Rattle.parallel_relation.specs.Pairs.{pairs_left};
ghost use Rattle.printing.specs.Labels.{labels_in};
ghost use Rattle.json_answers.specs.Pieces.{IsReadBack, line, list_by};
ghost use Rattle.json_answers.specs.Programs.{accepted_json, formatted_json, pair_json, pairs_json};

use crate::line::line_of;
use parallel_relation::pairs::PairList;
use printing::labels::labels;
use serde_json::{Value, json};
use std::alloc::{AllocError, Global};
use types::code::{Label, Program};

/// Returns the object of an accepted program:
/// `{"accepted":true,"labels":9,"procedures":1,"status":0}`. `main` isn't counted.
pub fn accepted_object(alloc: Global, code: &Program) -> Result<String, AllocError>
    ensures text { IfOk result (λ text. string_bytes text ≡ line (accepted_json (program code.now))) }
    ensures reads { OnOk result (IsReadBack (accepted_json (program code.now))) }
{
    let Some(labels) = labels(code) else {
        return Err(AllocError);
    };
    let value = accepted_value(alloc, code, labels)?;
    line_of(alloc, &value)
}

/// Returns the value of an accepted program with so many labels.
fn accepted_value(alloc: Global, code: &Program, labels: u64) -> Result<Value, AllocError>
    requires { labels ≡ labels_in (program code.now) }
    ensures { IfOk result (λ v. view v ≡ accepted_json (program code.now)) }
{
    let procedures = code.procedures.len();
    json!(in alloc; {
        "accepted": true,
        "labels": labels,
        "procedures": procedures,
        "status": 0u8,
    })
}

/// Returns the object of a formatted text: `{"formatted":true,"status":0}`.
pub fn formatted_object(alloc: Global) -> Result<String, AllocError>
    ensures text { IfOk result (λ text. string_bytes text ≡ line formatted_json) }
    ensures reads { OnOk result (IsReadBack formatted_json) }
{
    let value = formatted_value(alloc)?;
    line_of(alloc, &value)
}

/// Returns the value of a formatted text.
fn formatted_value(alloc: Global) -> Result<Value, AllocError>
    ensures { IfOk result (λ v. view v ≡ formatted_json) }
{
    json!(in alloc; {"formatted": true, "status": 0u8})
}

/// Returns the object of pairs of labels: `{"pairs":[[3,4]],"status":0}`.
pub fn pairs_object(alloc: Global, pairs: PairList<'_>) -> Result<String, AllocError>
    ensures text { IfOk result (λ text. string_bytes text ≡ line (pairs_json (pairs_left pairs.entry))) }
    ensures reads { OnOk result (IsReadBack (pairs_json (pairs_left pairs.entry))) }
{
    let value = pairs_value(alloc, pairs)?;
    line_of(alloc, &value)
}

/// Returns the value of pairs of labels.
fn pairs_value(alloc: Global, pairs: PairList<'_>) -> Result<Value, AllocError>
    ensures { IfOk result (λ v. view v ≡ pairs_json (pairs_left pairs.entry)) }
{
    json!(in alloc; {"pairs": list_value(alloc, pairs)?, "status": 0u8})
}

/// Returns `[[3,4],[3,6]]`.
fn list_value(alloc: Global, pairs: PairList<'_>) -> Result<Value, AllocError>
    ensures { IfOk result (λ v. view v ≡ list_by pair_json (pairs_left pairs.entry)) }
{
    let mut list = Vec::new(alloc);
    for (one, other) in pairs {
        list.push(pair_value(alloc, one, other)?)?;
    }
    Ok(Value::Array(list))
}

/// Returns `[3,4]`.
fn pair_value(alloc: Global, one: Label, other: Label) -> Result<Value, AllocError>
    ensures { IfOk result (λ v. view v ≡ pair_json (one, other)) }
{
    json!(in alloc; [one, other])
}
