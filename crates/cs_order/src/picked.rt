//! Some of the keys in one piece of memory, in another order.

ghost use Rattle.std.specs.Prelude.{◌≡◌, ◌++◌, ◌∷◌, [], length, OnOk, OnErr};
ghost use Rattle.std.specs.List.{All};
ghost use Rattle.cs_order.specs.Order.{key_at};
ghost use Rattle.cs_order.specs.Spots.{IsSpotIn, keys_in};

use crate::Memory;
use crate::keys::Keys;
use std::alloc::Global;
use std::marker::Model;

/// Keys, and those of them that were picked out one by one. All stay in one piece of memory, so no byte of a key is copied.
#[derive(Drop)]
pub struct PickedKeys {
    bytes: Vec<u8>,
    spots: Vec<(usize, usize)>,
    picked: Vec<(usize, usize)>,
}

impl Model for PickedKeys {
    ghost use Rattle.std.specs.Prelude.{List, ℕ, length};
    ghost use Rattle.std.specs.List.{All};
    ghost use Rattle.cs_order.specs.Spots.{IsSpotIn, keys_in};

    ghost Value = { List (List ℕ) × List (List ℕ) };

    ghost view = { λ keys. (keys_in keys.bytes.items keys.spots.items, keys_in keys.bytes.items keys.picked.items) };

    ghost invariant = { λ keys. All (IsSpotIn (length keys.bytes.items)) keys.spots.items
        × All (IsSpotIn (length keys.bytes.items)) keys.picked.items };
}

/// Picks the key at a place, an empty one past the end. An `Err` changes nothing.
#[inline(always)]
fn pick(
    bytes: &[u8],
    spots: &[(usize, usize)],
    place: usize,
    picked: &mut Vec<(usize, usize)>,
) -> Result<(), Memory>
    requires spots { All (IsSpotIn (length bytes.now)) spots.now }
    requires picked { All (IsSpotIn (length bytes.now)) picked.old.items }
    ensures within { All (IsSpotIn (length bytes.now)) picked.new.items }
    ensures ok { OnOk result (keys_in bytes.now picked.new.items
        ≡ keys_in bytes.now picked.old.items ++ key_at (keys_in bytes.now spots.now) place ∷ []) }
    ensures err { OnErr result (picked.new.items ≡ picked.old.items) }
{
    let spot = if place < spots.len() {
        spots[place]
    } else {
        (0, 0)
    };
    picked.push(spot)?;
    Ok(())
}

impl PickedKeys {
    ghost use Rattle.std.specs.Prelude.{◌≡◌, ◌++◌, ◌∷◌, [], IfOk, OnOk, OnErr};
    ghost use Rattle.cs_order.specs.Order.{key_at};

    /// None of these keys is picked yet, and there is room for so many.
    pub fn of_keys(alloc: Global, keys: Keys, room: usize) -> Result<PickedKeys, Memory>
        ensures { IfOk result (λ made. made ≡ (keys, [])) }
    {
        let picked = Vec::with_capacity(alloc, room)?;
        let (bytes, spots) = keys.into_parts();
        Ok(PickedKeys {
            bytes,
            spots,
            picked,
        })
    }

    /// Picks the key at a place, an empty one past the end. An `Err` changes nothing.
    #[inline(always)]
    pub fn push(&mut self, place: usize) -> Result<(), Memory>
        ensures keys { self.new.0 ≡ self.old.0 }
        ensures ok { OnOk result (self.new.1 ≡ self.old.1 ++ key_at self.old.0 place ∷ []) }
        ensures err { OnErr result (self.new.1 ≡ self.old.1) }
    {
        pick(
            self.bytes.as_slice(),
            self.spots.as_slice(),
            place,
            &mut self.picked,
        )
    }

    /// The keys that were picked, in the order in which they were. It takes no memory.
    pub fn finish(self) -> Keys
        ensures { result ≡ self.1 }
    {
        Keys::from_parts(self.bytes, self.picked)
    }
}
