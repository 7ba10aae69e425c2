//! The lists of a tree. Most of them have one item or none.

ghost use Rattle.std.specs.Prelude.{◌≡◌, [], ◌∷◌, ◌++◌, OnOk};

use std::alloc::AllocError;

/// Adds an item. The first item allocates space for one item only. `Vec::push` would reserve space
/// for four, which is expensive for a text with many short lists.
pub fn push<T: Drop>(list: &mut Vec<T>, item: T) -> Result<(), AllocError>
    ensures items { OnOk result (list.new.items ≡ list.old.items ++ item ∷ []) }
{
    if list.is_empty() {
        list.reserve_exact(1)?;
    }
    list.push(item)?;
    Ok(())
}
