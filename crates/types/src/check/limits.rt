//! The size limits of a program.

#![tactic(auto, using(crate::proofs::Telling::telling))]

ghost use Rattle.std.specs.Prelude.{◌≡◌, [], OnOk, IfErr};
ghost use Rattle.types.specs.Rules.{limit as over};
ghost use Rattle.types.specs.Told.{Told};

use crate::code::Label;
use crate::error::TypeError;

/// The maximum number of procedures of a program, in addition to `main`.
pub const MOST_PROCEDURES: usize = 256;

/// The maximum number of parameters of a procedure.
pub const MOST_PARAMETERS: usize = 16;

/// The maximum number of arrays of a program.
pub const MOST_ARRAYS: usize = 32;

/// The maximum number of statements of a program.
pub const MOST_LABELS: Label = 65_535;

const _: () = prove!(MOST_PROCEDURES == 256);

const _: () = prove!(MOST_PARAMETERS == 16);

const _: () = prove!(MOST_ARRAYS == 32);

const _: () = prove!(MOST_LABELS == 65_535);

/// Checks that a count is at most `most`.
pub fn limit(most: usize, count: usize) -> Result<(), TypeError>
    ensures right { OnOk result (over most count ≡ []) }
    ensures error { IfErr result (Told (over most count)) }
{
    if count > most {
        return Err(TypeError::OverLimit);
    }
    Ok(())
}
