//! The keys of a blob's entries, which stay in their records where they stand together at the front.

ghost use Rattle.std.specs.Prelude.{◌≡◌, ◌↔◌, map, IsTrue, IfOk, MatchOption};
ghost use Rattle.std.specs.List.Sorted.{IsStrictlySortedBy};
ghost use Rattle.cs_normal.specs.keyed.Changes.{key_bytes};
ghost use Rattle.cs_normal.specs.keyed.NormalForm.{marked_fields};
ghost use Rattle.cs_order.specs.Order.{by_bytes, keys_behind};
ghost use Rattle.cs_order.specs.Steps.Rising.{ascend};
ghost use Rattle.cs_rebaser.specs.Rebased.{entry_key};

use cs_blob::Entry;
use cs_normal::keyed::{KeysBuilder, lend_record_key, put_record_key};
use cs_order::{Keys, compare_bytes};
use cs_record::Record;
use cs_value::Memory;
use std::alloc::Global;
use std::cmp::Ordering;

/// How the key that a record holds stands to these bytes. The room is for a key that has to be put together.
#[inline(always)]
pub(crate) fn compare_key(
    marks: &[bool],
    fields: &Record<'_>,
    key: &[u8],
    room: &mut Vec<u8>,
) -> Result<Ordering, Memory>
    ensures { IfOk result (λ compared. compared ≡ by_bytes (key_bytes (marked_fields marks.now fields.now)) key.now) }
{
    if let Some(lent) = lend_record_key(marks, fields) {
        return Ok(compare_bytes(lent, key));
    }
    room.clear();
    put_record_key(marks, fields, room)?;
    Ok(compare_bytes(room.as_slice(), key))
}

/// The keys of entries, lent; `None` where one has to be put together.
pub(crate) fn lend_keys<'a>(
    alloc: Global,
    marks: &[bool],
    entries: &[Entry<'a>],
) -> Result<Option<Vec<&'a [u8]>>, Memory>
    ensures { IfOk result (λ found. MatchOption found (Unit {0})
        (λ keys. keys_behind keys.items ≡ map (entry_key marks.now) entries.now)) }
{
    let mut keys = Vec::with_capacity(alloc, entries.len())?;
    for entry in entries {
        let Some(key) = lend_record_key(marks, &entry.fields) else {
            return Ok(None);
        };
        keys.push(key)?;
    }
    Ok(Some(keys))
}

/// The keys of entries, put together.
pub(crate) fn copy_keys(
    alloc: Global,
    marks: &[bool],
    entries: &[Entry<'_>],
) -> Result<Keys, Memory>
    ensures { IfOk result (λ keys. keys ≡ map (entry_key marks.now) entries.now) }
{
    let mut keys = KeysBuilder::with_capacity(alloc, entries.len(), 0)?;
    for entry in entries {
        keys.push_behind(&[], marks, &entry.fields)?;
    }
    Ok(keys.finish())
}

/// Whether each key is below the next.
#[tactic(auto, unfolding(cs_order::specs::Steps::Rising::ascend, cs_order::specs::Steps::Rising::ascend_from))]
fn keys_ascend(keys: &[&[u8]]) -> bool
    ensures { result ≡ ascend (keys_behind keys.now) }
{
    let Some((first, rest)) = keys.split_first() else {
        return true;
    };
    let mut last: &[u8] = *first;
    let mut rest = rest;
    while let Some((next, more)) = rest.split_first() {
        if compare_bytes(last, *next) != Ordering::Less {
            return false;
        }
        last = *next;
        rest = more;
    }
    true
}

/// Whether each key is below the next, in the order of their bytes.
#[tactic(auto, using(cs_order::specs::Facts::ascend_tells))]
pub(crate) fn rise(keys: &[&[u8]]) -> bool
    ensures { IsTrue result ↔ IsStrictlySortedBy by_bytes (keys_behind keys.now) }
{
    keys_ascend(keys)
}
