//! Appending to lists.
ghost use Rattle.std.specs.Prelude.{◌≡◌, ◌++◌, [], ◌∷◌, OnOk, OnErr};

use arc_base::{List, Memory};

/// Appends an item. It also fails if the list has `u32::MAX` items.
pub fn push<T: Drop>(items: &mut List<T>, item: T) -> Result<(), Memory>
    ensures ok { OnOk result (items.new ≡ items.old ++ item ∷ []) }
    ensures err { OnErr result (items.new ≡ items.old) }
{
    if items.len() == u32::MAX {
        return Err(Memory);
    }
    items.push(item)
}
