//! The order of a table's keys.

use std::marker::Model;

/// The places of keys in the order of the keys. Where these rise as they stand, no place is written down.
#[derive(Drop)]
pub(crate) struct KeyOrder {
    count: usize,
    places: Option<Vec<usize>>,
}

impl Model for KeyOrder {
    ghost use Rattle.std.specs.Prelude.{◌≡◌, List, ℕ, length};
    ghost use Rattle.cs_normalising.specs.Steps.Standing.{places_or_all};

    ghost Value = { List ℕ };

    ghost view = { λ order. places_or_all order.count order.places };

    ghost invariant = { λ order. length (places_or_all order.count order.places) ≡ order.count };
}

impl KeyOrder {
    ghost use Rattle.std.specs.Prelude.{◌≡◌, ◌<◌, IsTrue, length, slice_index};
    ghost use Rattle.std.specs.List.{range_with_len};

    /// So many places, as they stand.
    pub fn as_they_stand(count: usize) -> KeyOrder
        ensures { result ≡ range_with_len 0 count }
    {
        KeyOrder {
            count,
            places: None,
        }
    }

    /// These places.
    pub fn of_places(places: Vec<usize>) -> KeyOrder
        ensures { result ≡ places.items }
    {
        KeyOrder {
            count: places.len(),
            places: Some(places),
        }
    }

    /// How many places there are.
    #[inline(always)]
    pub fn len(&self) -> usize
        ensures { result ≡ length self.now }
    {
        self.count
    }

    /// Whether the places are known to stand as they are numbered.
    pub fn stands(&self) -> bool
        ensures { IsTrue result → self.now ≡ range_with_len 0 (length self.now) }
    {
        self.places.is_none()
    }

    /// The place there.
    #[inline(always)]
    pub fn place(&self, at: usize) -> usize
        requires { at < length self.now }
        ensures { result ≡ slice_index self.now at }
    {
        match &self.places {
            None => at,
            Some(places) => places[at],
        }
    }
}
