//! Normal forms, asked, copied, lent and written; bytes in pieces; and keys of a record. What normal forms changesets have, and why some
//! have none, are rows of `bench/check_tools.sh`.

ghost use Rattle.cs_change.specs.Spelling.{FitsChangeset};

use crate::given::{catalog, table};
use cs_change::{Change, Changeset, Group};
use cs_changeset::read;
use cs_normal::keyed::{KeysBuilder, key_front};
use cs_normal::*;
use cs_normalising::*;
use cs_order::Keys;
use cs_record::{Record, read_record};
use cs_value::{Catalog, Items, Key, Memory, TableDef, Text, Value};
use std::alloc::Global;
use std::slice;

/// The header of `t1`.
const FIRST: &[u8] = b"\x54\x02\x01\0t1\0";

/// INSERTs with the text `v1`, of the keys 1 and 2 into `t1` and of the key 1 into `t2`. First in normal form, then so that each table's
/// stand out of order.
const INSERTS: &[u8] = b"\x54\x02\x01\0t1\0\
    \x12\0\x01\0\0\0\0\0\0\0\x01\x03\x02v1\
    \x12\0\x01\0\0\0\0\0\0\0\x02\x03\x02v1\
    \x54\x02\x01\0t2\0\
    \x12\0\x01\0\0\0\0\0\0\0\x01\x03\x02v1";

const UNORDERED: &[u8] = b"\x54\x02\x01\0t2\0\
    \x12\0\x01\0\0\0\0\0\0\0\x01\x03\x02v1\
    \x54\x02\x01\0t1\0\
    \x12\0\x01\0\0\0\0\0\0\0\x02\x03\x02v1\
    \x54\x02\x01\0t1\0\
    \x12\0\x01\0\0\0\0\0\0\0\x01\x03\x02v1";

/// The same but for the key in `t2`.
const OTHER_KEY: &[u8] = b"\x54\x02\x01\0t1\0\
    \x12\0\x01\0\0\0\0\0\0\0\x01\x03\x02v1\
    \x12\0\x01\0\0\0\0\0\0\0\x02\x03\x02v1\
    \x54\x02\x01\0t2\0\
    \x12\0\x01\0\0\0\0\0\0\0\x02\x03\x02v1";

/// The normal form of these bytes.
fn normal_of(alloc: Global, catalog: &Catalog, bytes: &[u8]) -> Option<Normal> {
    let changeset = read(alloc, bytes).ok()?;
    normalise(alloc, catalog, &changeset).ok()
}

/// Whether it is copied and written as these bytes.
fn is_copied(alloc: Global, normal: &Normal, bytes: &[u8]) -> Result<bool, Memory> {
    let copy = normal.copy(alloc)?;
    let mut out = Vec::new(alloc);
    copy.encode(&mut out)?;
    Ok(copy.same(normal) && out.as_slice() == bytes)
}

/// So many bytes that are 7.
fn sevens(alloc: Global, len: usize) -> Result<Vec<u8>, Memory> {
    Ok(vec![in alloc; 7; len]?)
}

fn are_sevens(bytes: &[u8]) -> bool {
    for byte in bytes {
        if *byte != 7 {
            return false;
        }
    }
    true
}

/// Whether the bytes are these in front, and two that are 7 behind them.
fn are_before_sevens(bytes: &[u8], front: &[u8]) -> bool {
    crate::given::is_joined(bytes, &[front, &[7, 7]])
}

/// Whether it is written to the front of a slice two bytes longer than these bytes, its spelling, and not into one a byte shorter.
fn is_put(alloc: Global, normal: &Normal, bytes: &[u8]) -> Result<bool, Memory> {
    let mut long = sevens(alloc, bytes.len().saturating_add(2))?;
    let mut short = sevens(alloc, bytes.len().saturating_sub(1))?;
    let told = normal.encode_to_slice(alloc, long.as_mut_slice())?;
    let lacking = normal.encode_to_slice(alloc, short.as_mut_slice())?;
    let are_told = told == bytes.len() && lacking == bytes.len();
    Ok(are_told && are_sevens(&short) && are_before_sevens(&long, bytes))
}

/// Whether the group has this name, one key column of two, and so many changes.
fn is_group(group: &Group<'_>, name: &str, changes: usize) -> bool {
    group.marks.as_slice() == &[1, 0][..]
        && group.name.as_str() == name
        && group.changes.as_slice().len() == changes
}

/// Whether the changeset's groups are those of the two tables.
fn are_two(lent: &Changeset<'_>) -> bool {
    match lent.as_slice() {
        [first, second] => is_group(first, "t1", 2) && is_group(second, "t2", 1),
        _ => false,
    }
}

/// Whether the changeset's normal form is this.
fn is_normal(alloc: Global, catalog: &Catalog, lent: &Changeset<'_>, normal: &Normal) -> bool
    requires { FitsChangeset lent.now }
{
    match normalise(alloc, catalog, lent) {
        Ok(again) => again.same(normal),
        Err(_) => false,
    }
}

/// Whether it is lent as two groups, whose normal form is the same.
fn is_lent(alloc: Global, catalog: &Catalog, normal: &Normal) -> bool {
    match normal.lend(alloc) {
        Ok(lent) => are_two(&lent) && is_normal(alloc, catalog, &lent, normal),
        Err(_) => false,
    }
}

/// Whether they stand in the catalog's order, and are copied, written and lent.
fn stands_in_order(alloc: Global) -> Option<bool> {
    let catalog = catalog(alloc)?;
    let normal = normal_of(alloc, &catalog, UNORDERED)?;
    Some(
        is_copied(alloc, &normal, INSERTS).unwrap_or(false)
            && is_put(alloc, &normal, INSERTS).unwrap_or(false)
            && is_lent(alloc, &catalog, &normal),
    )
}

/// The tables `t2` and `t1`.
fn turned_tables(alloc: Global) -> Result<Vec<TableDef>, Memory> {
    let mut tables = Vec::new(alloc);
    tables.push(table(alloc, "t2", false)?)?;
    tables.push(table(alloc, "t1", false)?)?;
    Ok(tables)
}

/// Whether it fits these.
fn fits_turned(alloc: Global, normal: &Normal) -> Option<bool> {
    let other = Catalog::new(turned_tables(alloc).ok()?).ok()?;
    Some(normal.fits(&other))
}

/// Whether it isn't the same as one with another key, and fits its catalog, and not those tables.
fn are_apart(alloc: Global) -> Option<bool> {
    let catalog = catalog(alloc)?;
    let one = normal_of(alloc, &catalog, INSERTS)?;
    let other = normal_of(alloc, &catalog, OTHER_KEY)?;
    Some(!one.same(&other) && one.fits(&catalog) && fits_turned(alloc, &one) == Some(false))
}

#[test]
fn normal_forms(rt: HostRuntime) {
    assert!(rt; stands_in_order(rt.alloc()) == Some(true));
    assert!(rt; are_apart(rt.alloc()) == Some(true));
}

fn key_of(alloc: Global, number: i64) -> Option<Key> {
    let mut key = Vec::new(alloc);
    key.push(Value::Int(number)).ok()?;
    Some(Items::from_vec(key))
}

/// Whether the key of this number has an INSERT in the table, or no change.
fn has_insert(alloc: Global, normal: &Normal, name: &str, number: i64) -> Option<bool> {
    let key = key_of(alloc, number)?;
    match normal.change(alloc, name, &key) {
        Ok(Some(Change::Insert { .. })) => Some(true),
        Ok(None) => Some(false),
        _ => None,
    }
}

/// INSERTs of the keys 5, 9, 1 and 2 into `t1` and of the key 1 into `t2`.
const FIVE: &[u8] = b"\x54\x02\x01\0t2\0\
    \x12\0\x01\0\0\0\0\0\0\0\x01\x03\x02v1\
    \x54\x02\x01\0t1\0\
    \x12\0\x01\0\0\0\0\0\0\0\x05\x03\x02v1\
    \x12\0\x01\0\0\0\0\0\0\0\x02\x03\x02v1\
    \x12\0\x01\0\0\0\0\0\0\0\x09\x03\x02v1\
    \x54\x02\x01\0t1\0\
    \x12\0\x01\0\0\0\0\0\0\0\x01\x03\x02v1";

/// Tables and the numbers of keys, and whether there is an INSERT.
const FOUND: [(&str, i64, bool); 8] = [
    ("t1", 1, true),
    ("t1", 5, true),
    ("t1", 9, true),
    ("t1", 3, false),
    ("t1", 10, false),
    ("t2", 1, true),
    ("t2", 2, false),
    ("t3", 1, false),
];

/// Whether five changes are counted, and those are found.
fn finds(alloc: Global) -> Option<bool> {
    let catalog = catalog(alloc)?;
    let normal = normal_of(alloc, &catalog, FIVE)?;
    let mut all = normal.len() == 5;
    for (name, number, there) in &FOUND {
        all = all && has_insert(alloc, &normal, name, *number) == Some(*there);
    }
    Some(all)
}

#[test]
fn changes_are_counted_and_found(rt: HostRuntime) {
    assert!(rt; finds(rt.alloc()) == Some(true));
}

/// Bytes in two pieces of memory and more, and one part that is longer than a piece.
const PIECES: [(u8, usize); 5] = [(1, 700_000), (2, 700_000), (3, 0), (4, 1_500_000), (5, 1)];

/// Puts them into pieces, and one behind another.
fn put_pieces(alloc: Global, pieces: &mut BytePieces, all: &mut Vec<u8>) -> Result<(), Memory> {
    for (byte, len) in &PIECES {
        let part: Vec<u8> = vec![in alloc; *byte; *len]?;
        pieces.push(part.as_slice())?;
        all.extend_from_slice(part.as_slice())?;
    }
    Ok(())
}

/// Whether they are put to the front of a slice that is two bytes longer, and not into one that is a byte shorter.
fn pieces_are_put(alloc: Global) -> Result<bool, Memory> {
    let mut pieces = BytePieces::new(alloc);
    let mut all = Vec::new(alloc);
    put_pieces(alloc, &mut pieces, &mut all)?;
    let mut long = sevens(alloc, all.len().saturating_add(2))?;
    let mut short = sevens(alloc, all.len().saturating_sub(1))?;
    let told = pieces.put_to_front(alloc, long.as_mut_slice())?;
    let lacking = pieces.put_to_front(alloc, short.as_mut_slice())?;
    let are_told = told == all.len() && lacking == all.len();
    Ok(are_told && are_sevens(&short) && are_before_sevens(&long, &all))
}

/// Whether no byte is put anywhere, and the header of a table is spelled as it stands in changesets.
fn header_is_spelled(alloc: Global) -> Result<bool, Memory> {
    let header = spell_header(alloc, &table(alloc, "t1", false)?)?;
    let mut none = sevens(alloc, 0)?;
    let told = BytePieces::new(alloc).put_to_front(alloc, none.as_mut_slice())?;
    Ok(header.as_slice() == FIRST && told == 0)
}

#[test]
fn bytes_in_pieces(rt: HostRuntime) {
    assert!(rt; pieces_are_put(rt.alloc()) == Ok(true));
    assert!(rt; header_is_spelled(rt.alloc()) == Ok(true));
}

/// A group without a key column, which no reader gives.
fn keyless<'a>(alloc: Global) -> Result<Changeset<'a>, Memory> {
    let group = Group {
        marks: Items::from_vec(vec![in alloc; 0, 0]?),
        name: Text::from_string(String::from_str(alloc, "t1")?),
        changes: Items::from_vec(Vec::new(alloc)),
    };
    let mut groups = Vec::new(alloc);
    groups.push(group)?;
    Ok(Items::from_vec(groups))
}

/// Whether there is no catalog of it.
fn is_no_catalog(alloc: Global) -> Result<bool, Memory> {
    let changeset = keyless(alloc)?;
    let told = catalog_of(alloc, slice::from_ref(&changeset)).err();
    Ok(told == Some(HeaderFault::BadCatalog))
}

#[test]
fn a_group_without_a_key_column(rt: HostRuntime) {
    assert!(rt; is_no_catalog(rt.alloc()) == Ok(true));
}

/// A byte, and keys behind it.
fn two_keys(alloc: Global) -> Result<Keys, Memory> {
    let mut expected = Keys::new(alloc);
    expected.push(&[7, 3, 1, 0x61])?;
    expected.push(&[7, 5, 3, 1, 0x62])?;
    Ok(expected)
}

/// The keys of the record's fields with these marks, behind the byte.
fn built_keys(alloc: Global, fields: &Record<'_>) -> Result<Keys, Memory> {
    let mut built = KeysBuilder::with_capacity(alloc, 2, 9)?;
    built.push_behind(&[7], &[false, true], fields)?;
    built.push_behind(&[7], &[true, false, true], fields)?;
    Ok(built.finish())
}

/// Whether the keys rise, and don't once another stands behind them.
fn rise_no_more(keys: &mut Keys) -> bool {
    let rose = keys.rise();
    rose && keys.push(&[7, 5]).is_ok() && !keys.rise()
}

/// Whether these are the keys, which rise, and don't once another stands behind them.
fn are_built(alloc: Global, fields: &Record<'_>) -> Result<bool, Memory> {
    let mut keys = built_keys(alloc, fields)?;
    let expected = two_keys(alloc)?;
    Ok(keys.same(&expected) && rise_no_more(&mut keys))
}

/// Whether those of the record (undefined, 'a', 'b') are.
fn builds_keys(alloc: Global) -> bool {
    match read_record(&[0, 3, 1, 0x61, 3, 1, 0x62], 3) {
        Ok((fields, _)) => are_built(alloc, &fields).unwrap_or(false),
        Err(_) => false,
    }
}

#[test]
fn keys_of_a_record(rt: HostRuntime) {
    assert!(rt; key_front(&[false, true, false]) == &[false, true][..]);
    assert!(rt; builds_keys(rt.alloc()));
}
