ghost use Rattle.std.specs.Prelude.{◌≡◌, false, length, IfOk};
ghost use Rattle.std.specs.List.{All};
ghost use Rattle.core_word.specs.Seen.{SeenHome};

use core_word::{Home, Key};
use fan_base::Memory;
use std::alloc::Global;

/// So many homes that nobody has begun. Where memory runs out, those that were made come back.
pub fn new_homes<T, C, P>(
    alloc: Global,
    count: usize,
) -> Result<Vec<Home<T, C, P>>, Vec<Home<T, C, P>>>
    ensures count { IfOk result (λ homes. length homes.items ≡ count) }
    ensures untaken { IfOk result (λ homes. All (λ (home : SeenHome). home.taken ≡ false) homes.items) }
{
    let Ok(mut homes) = Vec::with_capacity(alloc, count) else {
        return Err(Vec::new(alloc));
    };
    'making: while homes.len() < count {
        match Home::new(alloc) {
            Ok(home) => homes.push_reserved(home),
            Err(Memory) => return Err(homes),
        }
    }
    Ok(homes)
}

/// The keys of these homes, which nobody has begun.
pub fn keys_of<'h, T, C, P>(
    alloc: Global,
    homes: &'h mut [Home<T, C, P>],
) -> Result<Vec<Key<'h, T, C, P>>, Memory>
    requires { All (λ (home : SeenHome). home.taken ≡ false) homes.old }
    ensures { IfOk result (λ keys. length keys.items ≡ length homes.old) }
{
    let Ok(mut keys) = Vec::with_capacity(alloc, homes.len()) else {
        return Err(Memory);
    };
    for home in homes.iter_mut() {
        keys.push_reserved(key_of(home));
    }
    Ok(keys)
}

fn key_of<'h, T, C, P>(home: &'h mut Home<T, C, P>) -> Key<'h, T, C, P>
    requires { home.old.taken ≡ false }
{
    let Some(key) = home.key() else {
        unreachable!()
    };
    key
}
