//! Keys that are lent.

ghost use Rattle.std.specs.Prelude.{◌≡◌, ◌++◌, length};
ghost use Rattle.std.specs.List.{All};
ghost use Rattle.cs_order.specs.Order.{keys_behind, key_at};
ghost use Rattle.cs_order.specs.Spots.{IsSpotIn, keys_in};

use std::marker::Model;

/// Lent keys: slices, or spots in one piece of memory, so that no list of slices has to be made of these. (Slices come first
/// where there are both.)
#[derive(Drop)]
pub(crate) struct LentKeys<'a> {
    slices: &'a [&'a [u8]],
    bytes: &'a [u8],
    spots: &'a [(usize, usize)],
}

impl<'a> Model for LentKeys<'a> {
    ghost use Rattle.std.specs.Prelude.{List, ℕ, ◌++◌, length};
    ghost use Rattle.std.specs.List.{All};
    ghost use Rattle.cs_order.specs.Order.{keys_behind};
    ghost use Rattle.cs_order.specs.Spots.{IsSpotIn, keys_in};

    ghost Value = { List (List ℕ) };

    ghost view = { λ keys. keys_behind keys.slices.now ++ keys_in keys.bytes.now keys.spots.now };

    ghost invariant = { λ keys. All (IsSpotIn (length keys.bytes.now)) keys.spots.now };
}

/// The key at a spot, or an empty one past the last.
#[inline(always)]
fn key_in<'a>(bytes: &'a [u8], spots: &[(usize, usize)], place: usize) -> &'a [u8]
    requires { All (IsSpotIn (length bytes.now)) spots.now }
    ensures { result.now ≡ key_at (keys_in bytes.now spots.now) place }
{
    if place < spots.len() {
        let (start, end) = spots[place];
        &bytes[start..end]
    } else {
        &[]
    }
}

/// The key at a place among slices and behind them spots, or an empty one past the last.
#[inline(always)]
fn key_among<'a>(
    slices: &'a [&'a [u8]],
    bytes: &'a [u8],
    spots: &[(usize, usize)],
    place: usize,
) -> &'a [u8]
    requires { All (IsSpotIn (length bytes.now)) spots.now }
    ensures { result.now ≡ key_at (keys_behind slices.now ++ keys_in bytes.now spots.now) place }
{
    if place < slices.len() {
        slices[place]
    } else {
        key_in(bytes, spots, place - slices.len())
    }
}

impl<'a> LentKeys<'a> {
    ghost use Rattle.std.specs.Prelude.{◌≡◌, length};
    ghost use Rattle.std.specs.List.{All};
    ghost use Rattle.cs_order.specs.Order.{keys_behind, key_at};
    ghost use Rattle.cs_order.specs.Spots.{IsSpotIn, keys_in};

    /// These slices.
    pub(crate) fn of_slices(slices: &'a [&'a [u8]]) -> LentKeys<'a>
        ensures { result ≡ keys_behind slices.now }
    {
        LentKeys {
            slices,
            bytes: &[],
            spots: &[],
        }
    }

    /// What stands at these spots.
    pub(crate) fn of_spots(bytes: &'a [u8], spots: &'a [(usize, usize)]) -> LentKeys<'a>
        requires { All (IsSpotIn (length bytes.now)) spots.now }
        ensures { result ≡ keys_in bytes.now spots.now }
    {
        LentKeys {
            slices: &[],
            bytes,
            spots,
        }
    }

    /// How many there are.
    #[inline(always)]
    pub(crate) fn len(&self) -> usize
        ensures { result ≡ length self.now }
    {
        self.slices.len() + self.spots.len()
    }

    /// The key at a place, or an empty one past the last.
    #[inline(always)]
    pub(crate) fn get(&self, place: usize) -> &'a [u8]
        ensures { result.now ≡ key_at self.now place }
    {
        key_among(self.slices, self.bytes, self.spots, place)
    }
}
