//! Keys put together in one piece of memory.

ghost use Rattle.std.specs.Prelude.{◌≡◌, ◌++◌, ◌∷◌, [], length, IfOk, OnOk, OnErr};
ghost use Rattle.std.specs.List.{All};
ghost use Rattle.cs_order.specs.Spots.{IsSpotIn, keys_in};
ghost use Rattle.cs_normal.specs.keyed.Changes.{key_bytes};
ghost use Rattle.cs_normal.specs.keyed.NormalForm.{change_bytes, has_key, marked_fields};
ghost use Rattle.cs_normal.specs.keyed.Steps.Forms.{key_if_set};

use crate::keyed::key_of_change::{put_key, put_record_key};
use cs_change::Change;
use cs_order::Keys;
use cs_record::Record;
use cs_value::Memory;
use std::alloc::{AllocError, Global};
use std::marker::Model;

/// Keys to which more are put, each written where it comes to stand.
#[derive(Drop)]
pub struct KeysBuilder {
    bytes: Vec<u8>,
    spots: Vec<(usize, usize)>,
}

impl Model for KeysBuilder {
    ghost use Rattle.std.specs.Prelude.{List, ℕ, length};
    ghost use Rattle.std.specs.List.{All};
    ghost use Rattle.cs_order.specs.Spots.{IsSpotIn, keys_in};

    ghost Value = { List (List ℕ) };

    ghost view = { λ keys. keys_in keys.bytes.items keys.spots.items };

    ghost invariant = { λ keys. All (IsSpotIn (length keys.bytes.items)) keys.spots.items };
}

/// Appends the key of a change, if none of its values is NULL, and tells whether that is so. An `Err` leaves no key.
#[inline(always)]
fn put_of(
    bytes: &mut Vec<u8>,
    spots: &mut Vec<(usize, usize)>,
    marks: &[bool],
    change: &Change<'_>,
) -> Result<bool, Memory>
    requires { All (IsSpotIn (length bytes.old.items)) spots.old.items }
    ensures within { All (IsSpotIn (length bytes.new.items)) spots.new.items }
    ensures ok { OnOk result (keys_in bytes.new.items spots.new.items
        ≡ keys_in bytes.old.items spots.old.items ++ key_if_set marks.now change.now) }
    ensures whole { IfOk result (λ whole. whole ≡ has_key marks.now change.now) }
    ensures err { OnErr result (keys_in bytes.new.items spots.new.items ≡ []) }
{
    cs_order::laws::packed_keys();
    let start = bytes.len();
    let Ok(whole) = put_key(marks, change, bytes) else {
        spots.clear();
        return Err(AllocError);
    };
    if whole {
        let pushed = spots.push((start, bytes.len()));
        if pushed.is_err() {
            spots.clear();
            return Err(AllocError);
        }
    }
    Ok(whole)
}

/// Appends these bytes and behind them the key that a record holds, as one key. An `Err` leaves no key.
#[inline(always)]
fn put_behind(
    bytes: &mut Vec<u8>,
    spots: &mut Vec<(usize, usize)>,
    front: &[u8],
    marks: &[bool],
    fields: &Record<'_>,
) -> Result<(), Memory>
    requires { All (IsSpotIn (length bytes.old.items)) spots.old.items }
    ensures within { All (IsSpotIn (length bytes.new.items)) spots.new.items }
    ensures ok { OnOk result (keys_in bytes.new.items spots.new.items
        ≡ keys_in bytes.old.items spots.old.items
        ++ (front.now ++ key_bytes (marked_fields marks.now fields.now)) ∷ []) }
    ensures err { OnErr result (keys_in bytes.new.items spots.new.items ≡ []) }
{
    cs_order::laws::packed_keys();
    let start = bytes.len();
    let Ok(_) = bytes.extend_from_slice(front) else {
        spots.clear();
        return Err(AllocError);
    };
    let Ok(_) = put_record_key(marks, fields, bytes) else {
        spots.clear();
        return Err(AllocError);
    };
    let Ok(_) = spots.push((start, bytes.len())) else {
        spots.clear();
        return Err(AllocError);
    };
    Ok(())
}

/// Appends these bytes and behind them the key of a change, as one key, and tells whether none of the key's values is NULL.
/// An `Err` leaves no key.
#[inline(always)]
fn put_of_behind(
    bytes: &mut Vec<u8>,
    spots: &mut Vec<(usize, usize)>,
    front: &[u8],
    marks: &[bool],
    change: &Change<'_>,
) -> Result<bool, Memory>
    requires { All (IsSpotIn (length bytes.old.items)) spots.old.items }
    ensures within { All (IsSpotIn (length bytes.new.items)) spots.new.items }
    ensures ok { OnOk result (keys_in bytes.new.items spots.new.items
        ≡ keys_in bytes.old.items spots.old.items ++ (front.now ++ change_bytes marks.now change.now) ∷ []) }
    ensures whole { IfOk result (λ whole. whole ≡ has_key marks.now change.now) }
    ensures err { OnErr result (keys_in bytes.new.items spots.new.items ≡ []) }
{
    cs_order::laws::packed_keys();
    let start = bytes.len();
    let Ok(_) = bytes.extend_from_slice(front) else {
        spots.clear();
        return Err(AllocError);
    };
    let Ok(whole) = put_key(marks, change, bytes) else {
        spots.clear();
        return Err(AllocError);
    };
    let Ok(_) = spots.push((start, bytes.len())) else {
        spots.clear();
        return Err(AllocError);
    };
    Ok(whole)
}

impl KeysBuilder {
    ghost use Rattle.std.specs.Prelude.{◌≡◌, ◌++◌, ◌∷◌, [], length, IfOk, OnOk, OnErr};
    ghost use Rattle.cs_normal.specs.keyed.Changes.{key_bytes};
    ghost use Rattle.cs_normal.specs.keyed.NormalForm.{change_bytes, has_key, marked_fields};
    ghost use Rattle.cs_normal.specs.keyed.Steps.Forms.{key_if_set};

    /// No key, with room for so many keys in so many bytes.
    pub fn with_capacity(alloc: Global, keys: usize, bytes: usize) -> Result<KeysBuilder, Memory>
        ensures { IfOk result (λ made. made ≡ []) }
    {
        Ok(KeysBuilder {
            bytes: Vec::with_capacity(alloc, bytes)?,
            spots: Vec::with_capacity(alloc, keys)?,
        })
    }

    /// How many keys there are.
    pub fn len(&self) -> usize
        ensures { result ≡ length self.now }
    {
        self.spots.len()
    }

    /// The keys that were put. It takes no memory.
    pub fn finish(self) -> Keys
        ensures { result ≡ self }
    {
        Keys::from_parts(self.bytes, self.spots)
    }

    /// Appends the key of a change, if none of its values is NULL, and tells whether that is so. An `Err` leaves no key.
    #[inline(always)]
    pub(crate) fn push_of(&mut self, marks: &[bool], change: &Change<'_>) -> Result<bool, Memory>
        ensures ok { OnOk result (self.new ≡ self.old ++ key_if_set marks.now change.now) }
        ensures whole { IfOk result (λ whole. whole ≡ has_key marks.now change.now) }
        ensures err { OnErr result (self.new ≡ []) }
    {
        put_of(&mut self.bytes, &mut self.spots, marks, change)
    }

    /// Appends these bytes and behind them the bytes of the key that a record holds, as one key. An `Err` leaves no key.
    #[inline(always)]
    pub fn push_behind(
        &mut self,
        front: &[u8],
        marks: &[bool],
        fields: &Record<'_>,
    ) -> Result<(), Memory>
        ensures ok { OnOk result (self.new
            ≡ self.old ++ (front.now ++ key_bytes (marked_fields marks.now fields.now)) ∷ []) }
        ensures err { OnErr result (self.new ≡ []) }
    {
        put_behind(&mut self.bytes, &mut self.spots, front, marks, fields)
    }

    /// Appends these bytes and behind them the bytes of the key of a change, as one key. It tells whether none of the key's
    /// values is NULL. An `Err` leaves no key.
    #[inline(always)]
    pub fn push_of_behind(
        &mut self,
        front: &[u8],
        marks: &[bool],
        change: &Change<'_>,
    ) -> Result<bool, Memory>
        ensures ok { OnOk result (self.new ≡ self.old ++ (front.now ++ change_bytes marks.now change.now) ∷ []) }
        ensures whole { IfOk result (λ whole. whole ≡ has_key marks.now change.now) }
        ensures err { OnErr result (self.new ≡ []) }
    {
        put_of_behind(&mut self.bytes, &mut self.spots, front, marks, change)
    }
}
