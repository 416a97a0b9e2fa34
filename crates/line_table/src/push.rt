ghost use Rattle.std.specs.Prelude.{◌≡◌, ◌++◌, ◌∷◌, [], OnOk};

use fan_base::Memory;

/// Puts an item behind the others.
pub(crate) fn push<X: Drop>(items: &mut Vec<X>, item: X) -> Result<(), Memory>
    ensures { OnOk result (items.new.items ≡ items.old.items ++ item ∷ []) }
{
    match items.push(item) {
        Ok(()) => Ok(()),
        Err(_) => Err(Memory),
    }
}
