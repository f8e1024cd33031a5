//! The bytes of keys, one after another.

ghost use Rattle.std.specs.Prelude.{◌≡◌, ◌++◌, ◌∷◌, [], length, OnOk, OnErr};
ghost use Rattle.std.specs.List.{All};
ghost use Rattle.cs_order.specs.Spots.{IsSpotIn, keys_in};
ghost use Rattle.cs_order.specs.Steps.Rising.{ascend};

use crate::Memory;
use crate::comparing::{compare_bytes, same_bytes};
use crate::distinct::distinct_lent;
use crate::grouping::{Groups, group_lent};
use crate::lent::LentKeys;
use std::alloc::{AllocError, Global};
use std::cmp::Ordering;
use std::marker::Model;

/// Keys, as their bytes and where each stands.
#[derive(Drop)]
pub struct Keys {
    bytes: Vec<u8>,
    spots: Vec<(usize, usize)>,
}

impl Model for Keys {
    ghost use Rattle.std.specs.Prelude.{List, ℕ, length};
    ghost use Rattle.std.specs.List.{All};
    ghost use Rattle.cs_order.specs.Spots.{IsSpotIn, keys_in};

    ghost Value = { List (List ℕ) };

    ghost view = { λ keys. keys_in keys.bytes.items keys.spots.items };

    ghost invariant = { λ keys. All (IsSpotIn (length keys.bytes.items)) keys.spots.items };
}

/// Appends a key. An `Err` changes nothing.
#[inline(always)]
fn put(bytes: &mut Vec<u8>, spots: &mut Vec<(usize, usize)>, key: &[u8]) -> Result<(), Memory>
    requires { All (IsSpotIn (length bytes.old.items)) spots.old.items }
    ensures within { All (IsSpotIn (length bytes.new.items)) spots.new.items }
    ensures ok { OnOk result (keys_in bytes.new.items spots.new.items
        ≡ keys_in bytes.old.items spots.old.items ++ key.now ∷ []) }
    ensures err { OnErr result (keys_in bytes.new.items spots.new.items
        ≡ keys_in bytes.old.items spots.old.items) }
{
    let start = bytes.len();
    bytes.extend_from_slice(key)?;
    let pushed = spots.push((start, bytes.len()));
    if pushed.is_err() {
        bytes.truncate(start);
        return Err(AllocError);
    }
    Ok(())
}

/// Whether the key at each spot is below that at the next.
#[tactic(auto, unfolding(crate::specs::Steps::Rising::ascend, crate::specs::Steps::Rising::ascend_from))]
fn spots_rise(bytes: &[u8], spots: &[(usize, usize)]) -> bool
    requires { All (IsSpotIn (length bytes.now)) spots.now }
    ensures { result ≡ ascend (keys_in bytes.now spots.now) }
{
    let Some((first, rest)) = spots.split_first() else {
        return true;
    };
    let mut last = &bytes[first.0..first.1];
    let mut rest = rest;
    while let Some((next, more)) = rest.split_first() {
        let key = &bytes[next.0..next.1];
        if compare_bytes(last, key) != Ordering::Less {
            return false;
        }
        last = key;
        rest = more;
    }
    true
}

impl Keys {
    ghost use Rattle.std.specs.Prelude.{◌≡◌, ◌↔◌, IsTrue, ◌++◌, ◌∷◌, [], ◌<◌, length, IfOk, MatchOption, OnOk, OnErr, slice_index_or};
    ghost use Rattle.std.specs.List.{All, Contains};
    ghost use Rattle.std.specs.List.Sorted.{IsStrictlySortedBy};
    ghost use Rattle.cs_order.specs.Groups.{HasTwins, IsDistinctOrder, IsGrouping};
    ghost use Rattle.cs_order.specs.Order.{by_bytes, key_at, keys_behind};
    ghost use Rattle.cs_order.specs.Spots.{IsSpotIn, keys_in};

    /// The keys that stand in these bytes at these spots. It takes no memory.
    pub fn from_parts(bytes: Vec<u8>, spots: Vec<(usize, usize)>) -> Keys
        requires { All (IsSpotIn (length bytes.items)) spots.items }
        ensures { result ≡ keys_in bytes.items spots.items }
    {
        Keys { bytes, spots }
    }

    /// The bytes, and where each key stands in them. It takes no memory.
    pub(crate) fn into_parts(self) -> (Vec<u8>, Vec<(usize, usize)>)
        ensures keys { keys_in result.0.items result.1.items ≡ self }
        ensures within { All (IsSpotIn (length result.0.items)) result.1.items }
    {
        let Keys { bytes, spots } = self;
        (bytes, spots)
    }

    /// No key.
    pub fn new(alloc: Global) -> Keys
        ensures { result ≡ [] }
    {
        Keys {
            bytes: Vec::new(alloc),
            spots: Vec::new(alloc),
        }
    }

    /// No key, with room for so many keys in so many bytes.
    pub fn with_capacity(alloc: Global, keys: usize, bytes: usize) -> Result<Keys, Memory>
        ensures { IfOk result (λ made. made ≡ []) }
    {
        Ok(Keys {
            bytes: Vec::with_capacity(alloc, bytes)?,
            spots: Vec::with_capacity(alloc, keys)?,
        })
    }

    /// No key, with room for as many as these.
    pub fn with_room_for(alloc: Global, keys: &Keys) -> Result<Keys, Memory>
        ensures { IfOk result (λ made. made ≡ []) }
    {
        Keys::with_capacity(alloc, keys.spots.len(), keys.bytes.len())
    }

    /// The same keys, in memory of their own.
    pub fn copy(&self, alloc: Global) -> Result<Keys, Memory>
        ensures { IfOk result (λ copied. copied ≡ self.now) }
    {
        Ok(Keys {
            bytes: Vec::from_slice(alloc, self.bytes.as_slice())?,
            spots: Vec::from_slice(alloc, self.spots.as_slice())?,
        })
    }

    /// Takes all keys out.
    pub fn clear(&mut self)
        ensures { self.new ≡ [] }
    {
        self.spots.clear();
        self.bytes.clear();
    }

    /// How many keys there are.
    #[inline(always)]
    pub fn len(&self) -> usize
        ensures { result ≡ length self.now }
    {
        self.spots.len()
    }

    /// The key there.
    #[inline(always)]
    pub fn get(&self, at: usize) -> &[u8]
        requires { at < length self.now }
        ensures { result.now ≡ slice_index_or self.now at [] }
    {
        let (start, end) = self.spots[at];
        &self.bytes.as_slice()[start..end]
    }

    /// Appends a key. An `Err` changes nothing.
    #[inline(always)]
    pub fn push(&mut self, key: &[u8]) -> Result<(), Memory>
        ensures ok { OnOk result (self.new ≡ self.old ++ key.now ∷ []) }
        ensures err { OnErr result (self.new ≡ self.old) }
    {
        put(&mut self.bytes, &mut self.spots, key)
    }

    /// Whether two lists hold the same keys in the same order.
    pub fn same(&self, other: &Keys) -> bool
        ensures { IsTrue result ↔ (self.now ≡ other.now) }
    {
        if self.len() != other.len() {
            return false;
        }
        let mut at = 0;
        while at < self.len() {
            if !same_bytes(self.get(at), other.get(at)) {
                return false;
            }
            at += 1;
        }
        true
    }

    /// Whether each key is below the next, in the order of their bytes.
    #[tactic(auto, using(crate::specs::Facts::ascend_tells))]
    pub fn rise(&self) -> bool
        ensures { IsTrue result ↔ IsStrictlySortedBy by_bytes self.now }
    {
        spots_rise(self.bytes.as_slice(), self.spots.as_slice())
    }

    /// The place of the key with these bytes, found by halves; `None` where there is none.
    pub fn find(&self, key: &[u8]) -> Option<usize>
        requires { IsStrictlySortedBy by_bytes self.now }
        ensures { MatchOption result (Contains self.now key.now → ⊥)
            (λ at. (at < length self.now) × (key_at self.now at ≡ key.now)) }
    {
        let mut low = 0;
        let mut high = self.len();
        while low < high {
            let middle = low + (high - low) / 2;
            match compare_bytes(self.get(middle), key) {
                Ordering::Less => low = middle + 1,
                Ordering::Greater => high = middle,
                Ordering::Equal => return Some(middle),
            }
        }
        None
    }

    /// The places of the keys in their order; `None` where a key comes twice.
    pub fn distinct_order(&self, alloc: Global) -> Result<Option<Vec<usize>>, Memory>
        ensures { IfOk result (λ found. MatchOption found (HasTwins self.now) (λ order. IsDistinctOrder self.now order.items)) }
    {
        distinct_lent(alloc, &self.lend())
    }

    /// The places of the keys, those of one key together and rising, in the order of the keys.
    pub fn group(&self, alloc: Global) -> Result<Groups, Memory>
        ensures { IfOk result (λ groups. IsGrouping self.now groups) }
    {
        group_lent(alloc, &self.lend())
    }

    /// The keys where they stand.
    fn lend(&self) -> LentKeys<'_>
        ensures { result ≡ self.now }
    {
        LentKeys::of_spots(self.bytes.as_slice(), self.spots.as_slice())
    }

    /// All keys, lent.
    pub fn slices(&self, alloc: Global) -> Result<Vec<&[u8]>, Memory>
        ensures { IfOk result (λ keys. keys_behind keys.items ≡ self.now) }
    {
        let mut keys = Vec::with_capacity(alloc, self.spots.len())?;
        for spot in &self.spots {
            let (start, end) = *spot;
            keys.push(&self.bytes.as_slice()[start..end])?;
        }
        Ok(keys)
    }
}
