//! The steps of a way from statements down to an access.

ghost use Rattle.std.specs.Prelude.{◌≡◌, ◌∷◌, IfOk, length, option_map};
ghost use Rattle.witness.specs.Known.{steps};
ghost use Rattle.witness.specs.Least.{IsLesserOf};

use sections::id::SectionId;
use std::alloc::{AllocError, Global};
use types::code::Label;
use types::ids::ProcedureId;

/// How a way continues from a statement.
#[derive(Clone, Copy, PartialEq, Eq, Debug)]
pub enum Rule {
    /// `a[0] = 1;`: the statement's own expressions make the access. It is the last step.
    Own,
    /// `if x < 1 { HERE }`
    Body,
    /// `if x < 1 { } else { HERE }`
    Other,
    /// `while x < 1 { HERE }`
    Turn,
    /// `split s at 2 as l, r { HERE }`
    Side,
    /// `parts s by 2 as p, i { HERE }`
    Piece,
    /// `f(a);`: the body of that procedure.
    Enter { procedure: ProcedureId },
    /// `async { HERE }`
    Begin,
    /// `finish { HERE }`, with or without a rescue
    Await,
    /// `finish { } rescue n { HERE }`
    Handler,
}

/// A step of a way: at the statement with this label, in the list that the way has reached.
#[derive(Clone, Copy, PartialEq, Eq, Debug)]
pub struct WayStep {
    pub label: Label,
    pub rule: Rule,
    /// The section that is accessed, in the names around the statement. The next step has its name
    /// inside the statement.
    pub section: SectionId,
}

/// Returns a way with one more step in front.
pub(crate) fn led(alloc: Global, step: WayStep, way: &[WayStep]) -> Result<Vec<WayStep>, AllocError>
    ensures { IfOk result (λ led. led.items ≡ step ∷ way.now) }
{
    let mut led = Vec::new(alloc);
    led.push(step)?;
    led.extend_from_slice(way)?;
    Ok(led)
}

/// Adds a step in front of a way, if one was found.
pub(crate) fn led_on(
    alloc: Global,
    step: WayStep,
    found: Option<Vec<WayStep>>,
) -> Result<Option<Vec<WayStep>>, AllocError>
    ensures { IfOk result (λ led. steps led ≡ option_map (λ way. step ∷ way) (steps found)) }
{
    match found {
        None => Ok(None),
        Some(way) => {
            let longer = led(alloc, step, &way)?;
            Ok(Some(longer))
        }
    }
}

/// Returns the shorter of two ways that were found, or the first if they are equally long.
pub fn shorter(one: Option<Vec<WayStep>>, other: Option<Vec<WayStep>>) -> Option<Vec<WayStep>>
    ensures { IsLesserOf length (steps one) (steps other) (steps result) }
{
    match one {
        None => other,
        Some(way) => match other {
            None => Some(way),
            Some(next) => {
                if way.len() <= next.len() {
                    Some(way)
                } else {
                    Some(next)
                }
            }
        },
    }
}
