//! Where names stand in a list, so that the places of one name are found without a walk over the whole list.

ghost use Rattle.std.specs.Prelude.{◌≡◌, map, slice_index, IfOk};
ghost use Rattle.cs_order.specs.Groups.{places_of, IsGrouping};
ghost use Rattle.cs_order.specs.Order.{key_at, keys_behind};
ghost use Rattle.cs_normal.specs.Placed.{name_first, AreGrouped};

use cs_order::{Groups, Keys, group_keys};
use cs_value::Memory;
use std::alloc::Global;
use std::marker::Model;

/// Names, which are lent, and the places of each. Contracts see the names in their order.
#[derive(Drop)]
pub struct NamePlaces<'a> {
    names: Vec<&'a [u8]>,
    once: Keys,
    places: Groups,
}

impl<'a> Model for NamePlaces<'a> {
    ghost use Rattle.std.specs.Prelude.{List, ℕ};
    ghost use Rattle.cs_order.specs.Order.{keys_behind};
    ghost use Rattle.cs_normal.specs.Placed.{AreGrouped};

    ghost Value = { List (List ℕ) };

    ghost view = { λ found. keys_behind found.names.items };

    ghost invariant = { λ found. AreGrouped (keys_behind found.names.items) found.once found.places };
}

/// The name at the first of these places; an empty one where there is none.
fn first_name<'a>(names: &'a [&[u8]], places: &[usize]) -> &'a [u8]
    ensures { result.now ≡ name_first (keys_behind names.now) places.now }
{
    let place = if places.is_empty() { 0 } else { places[0] };
    if place < names.len() {
        names[place]
    } else {
        &[]
    }
}

/// The name of each group of places.
fn names_once(alloc: Global, names: &[&[u8]], places: &Groups) -> Result<Keys, Memory>
    ensures { IfOk result (λ once. once ≡ map (name_first (keys_behind names.now)) places.now) }
{
    let mut once = Keys::new(alloc);
    for at in 0..places.len() {
        once.push(first_name(names, places.group(at)))?;
    }
    Ok(once)
}

impl<'a> NamePlaces<'a> {
    ghost use Rattle.std.specs.Prelude.{◌≡◌, IfOk};
    ghost use Rattle.cs_order.specs.Groups.{places_of};
    ghost use Rattle.cs_order.specs.Order.{keys_behind};

    /// The places of these names: they are put in order once.
    pub fn new(alloc: Global, names: Vec<&'a [u8]>) -> Result<NamePlaces<'a>, Memory>
        ensures { IfOk result (λ found. found ≡ keys_behind names.entry.items) }
    {
        let places = group_keys(alloc, names.as_slice())?;
        let once = names_once(alloc, names.as_slice(), &places)?;
        Ok(NamePlaces {
            names,
            once,
            places,
        })
    }

    /// The places of a name, rising, found by halves; none where it isn't there.
    pub fn of(&self, name: &[u8]) -> &[usize]
        ensures { result.now ≡ places_of self.now name.now }
    {
        match self.once.find(name) {
            None => &[],
            Some(at) => self.places.group(at),
        }
    }
}
