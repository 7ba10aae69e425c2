//! Accesses that a statement's own expressions make.

ghost use Rattle.std.specs.Prelude.{◌≡◌, IfOk, map};
ghost use Rattle.types.specs.Translation.{code as plain_code};
ghost use Rattle.effects.specs.Accesses.{own_accesses as own_by};
ghost use Rattle.effects.specs.Rounds.{lists, same_access};
ghost use Rattle.effects.specs.Translation.{access as access_of};

use effects::access::Access;
use effects::own::own_accesses;
use std::alloc::{AllocError, Global};
use types::code::Stmt;

/// Returns whether a statement's own expressions make an access. Takes no memory for the many
/// statements with another label.
pub(crate) fn makes(alloc: Global, statement: &Stmt, access: Access) -> Result<bool, AllocError>
    ensures { IfOk result (λ makes. makes ≡ lists
        (own_by statement.now.label (plain_code statement.now.kind)) (access_of access)) }
{
    if statement.label != access.label {
        return Ok(false);
    }
    let own = own_accesses(alloc, statement.label, &statement.kind)?;
    Ok(has(&own, access))
}

/// Returns whether a list of accesses contains an access.
fn has(accesses: &[Access], access: Access) -> bool
    ensures { result ≡ lists (map access_of accesses.now) (access_of access) }
{
    for other in accesses {
        if is_same(access, *other) {
            return true;
        }
    }
    false
}

/// Returns whether two accesses are equal.
fn is_same(one: Access, other: Access) -> bool
    ensures { result ≡ same_access (access_of one) (access_of other) }
{
    one.label == other.label
        && one.section.number == other.section.number
        && one.write == other.write
}
