//! Changes, groups and changesets beside bytes that were written by hand.

use crate::given::is_joined;
use cs_change::*;
use cs_record::{Record, Row, read_record, read_row};
use cs_value::{Items, Memory, Text};
use std::alloc::Global;

/// The header of `t1(a key, b)`.
const FIRST: [u8; 7] = [0x54, 2, 1, 0, 0x74, 0x31, 0];

/// The header of `t2(a key, b, c, d)`.
const SECOND: [u8; 9] = [0x54, 4, 1, 0, 0, 0, 0x74, 0x32, 0];

/// The INSERT of (1, 'v1'), direct and indirect.
const INSERT: [u8; 15] = [0x12, 0, 1, 0, 0, 0, 0, 0, 0, 0, 1, 3, 2, 0x76, 0x31];

const INDIRECT_INSERT: [u8; 15] = [0x12, 1, 1, 0, 0, 0, 0, 0, 0, 0, 1, 3, 2, 0x76, 0x31];

/// The DELETE of (1, 'v1'), indirect.
const INDIRECT_DELETE: [u8; 15] = [9, 1, 1, 0, 0, 0, 0, 0, 0, 0, 1, 3, 2, 0x76, 0x31];

/// The UPDATE of (1, 'v1') to (1, 'v2').
const UPDATE: [u8; 20] = [
    0x17, 0, 1, 0, 0, 0, 0, 0, 0, 0, 1, 3, 2, 0x76, 0x31, 0, 3, 2, 0x76, 0x32,
];

/// The UPDATE of the row with key 1 in `t2`. It sets b from the empty text to the empty blob, c from NULL to the empty
/// text.
const WIDE_UPDATE: [u8; 21] = [
    0x17, 0, 1, 0, 0, 0, 0, 0, 0, 0, 1, 3, 0, 5, 0, 0, 4, 0, 3, 0, 0,
];

/// The change that these bytes spell, of a table with so many columns.
fn change_of(bytes: &[u8], columns: usize) -> Option<Change<'_>> {
    let flag = bytes.get(1)? == &1;
    let rest = bytes.get(2..)?;
    match bytes.first()? {
        18 => {
            let (new_row, _) = read_row(rest, columns)?;
            Some(Change::Insert { flag, new_row })
        }
        9 => {
            let (old_row, _) = read_row(rest, columns)?;
            Some(Change::Delete { flag, old_row })
        }
        _ => {
            let (old_fields, len) = read_record(rest, columns).ok()?;
            let (new_fields, _) = read_record(rest.get(len..)?, columns).ok()?;
            Some(Change::Update {
                flag,
                old_fields,
                new_fields,
            })
        }
    }
}

/// Whether the change is spelled as these bytes, and two of it are kept as these bytes twice.
fn is_kept_twice(alloc: Global, change: &Change<'_>, bytes: &[u8]) -> Result<bool, Memory> {
    let alone = spell_change(alloc, change)?;
    if alone.as_slice() != bytes {
        return Ok(false);
    }
    let mut kept = ChangesBuf::new(alloc);
    kept.push(change)?;
    kept.push(&change.again())?;
    Ok(kept.len() == 2 && is_joined(kept.spelling(), &[bytes, bytes]))
}

/// Whether the bytes spell a change with this flag, which is kept as these bytes.
fn is_change(alloc: Global, bytes: &[u8], columns: usize, indirect: bool) -> Option<bool> {
    let change = change_of(bytes, columns)?;
    let is_kept = is_kept_twice(alloc, &change, bytes).ok()?;
    Some(is_kept && change.is_indirect() == indirect)
}

/// Changes, the columns of their tables, and whether they are indirect.
const CHANGES: [(&[u8], usize, bool); 5] = [
    (&INSERT, 2, false),
    (&INDIRECT_INSERT, 2, true),
    (&INDIRECT_DELETE, 2, true),
    (&UPDATE, 2, false),
    (&WIDE_UPDATE, 4, false),
];

#[test]
fn one_change(rt: HostRuntime) {
    for (bytes, columns, indirect) in &CHANGES {
        assert!(rt; is_change(rt.alloc(), bytes, *columns, *indirect).unwrap_or(false));
    }
}

/// The INSERT and the DELETE of the row with these fields.
fn set_changes(alloc: Global, row: &Row<'_>, fields: &Record<'_>) -> Result<ChangesBuf, Memory> {
    let mut scratch = Scratch::new(alloc);
    let mut changes = ChangesBuf::new(alloc);
    scratch.push_set_insert(true, fields, row, &mut changes)?;
    scratch.push_set_delete(false, fields, row, &mut changes)?;
    Ok(changes)
}

/// The row (1, 'v1') with 'v2' in its second column, as both.
const SET: [&[u8]; 4] = [&[0x12, 1], &UPDATED, &[9, 0], &UPDATED];

/// Whether those made of the row are.
fn are_set(alloc: Global) -> Option<bool> {
    let (row, _) = read_row(&INSERT[2..], 2)?;
    let (fields, _) = read_record(&UPDATE[15..], 2).ok()?;
    match set_changes(alloc, &row, &fields) {
        Ok(made) => Some(is_joined(made.spelling(), &SET)),
        Err(_) => None,
    }
}

#[test]
fn changes_made_of_a_row(rt: HostRuntime) {
    assert!(rt; are_set(rt.alloc()).unwrap_or(false));
}

/// The INSERT and the UPDATE behind it.
fn both(alloc: Global) -> Result<ChangesBuf, Memory> {
    let mut all = ChangesBuf::with_capacity(alloc, 2, 35)?;
    if let Some(change) = change_of(&INSERT, 2) {
        all.push(&change)?;
    }
    if let Some(change) = change_of(&UPDATE, 2) {
        all.push(&change)?;
    }
    Ok(all)
}

/// Whether the second one alone is another list.
fn has_its_last(alloc: Global, all: &ChangesBuf) -> Result<bool, Memory> {
    let mut last = ChangesBuf::new(alloc);
    last.push_at(all, 1)?;
    last.push_at(all, 2)?;
    Ok(last.spelling() == &UPDATE[..] && last.get(1).is_none() && !last.same(all))
}

/// The changes as they are lent, kept again.
fn kept_again(alloc: Global, all: &ChangesBuf) -> Result<ChangesBuf, Memory> {
    let mut again = ChangesBuf::new(alloc);
    let mut lent = Vec::new(alloc);
    all.lend(&mut lent)?;
    for change in &lent {
        again.push(change)?;
    }
    Ok(again)
}

/// Whether they are the same, and none once they are cleared.
fn is_kept_again(alloc: Global, all: &ChangesBuf) -> Result<bool, Memory> {
    let mut again = kept_again(alloc, all)?;
    let is_same = again.spelling() == all.spelling();
    again.clear();
    Ok(is_same && again.len() == 0)
}

/// Whether the copy of them is the same.
fn is_copied(alloc: Global, all: &ChangesBuf) -> Result<bool, Memory> {
    Ok(all.copy(alloc)?.same(all))
}

/// Whether both are kept, copied and lent.
fn own_their_bytes(alloc: Global) -> Result<bool, Memory> {
    let all = both(alloc)?;
    Ok(has_its_last(alloc, &all)? && is_copied(alloc, &all)? && is_kept_again(alloc, &all)?)
}

#[test]
fn changes_that_own_their_bytes(rt: HostRuntime) {
    assert!(rt; own_their_bytes(rt.alloc()).unwrap_or(false));
}

/// Whether the change leaves the row with these bytes.
fn leaves(alloc: Global, change: &Change<'_>, row: Option<&Row<'_>>, bytes: &[u8]) -> bool {
    match outcome(alloc, change, row) {
        Ok(Some(Some(made))) => made.as_row().bytes() == bytes,
        _ => false,
    }
}

/// Whether the change leaves no row.
fn leaves_none(alloc: Global, change: &Change<'_>, row: Option<&Row<'_>>) -> bool {
    matches!(outcome(alloc, change, row), Ok(Some(None)))
}

/// Whether the change isn't defined there.
fn is_undefined(alloc: Global, change: &Change<'_>, row: Option<&Row<'_>>) -> bool {
    matches!(outcome(alloc, change, row), Ok(None))
}

/// The row (1, 'v2').
const UPDATED: [u8; 13] = [1, 0, 0, 0, 0, 0, 0, 0, 1, 3, 2, 0x76, 0x32];

/// Whether the UPDATE leaves it, and isn't defined on it, nor where there is no row.
fn update_leaves(alloc: Global) -> Option<bool> {
    let update = change_of(&UPDATE, 2)?;
    let (row, _) = read_row(&INSERT[2..], 2)?;
    let (updated, _) = read_row(&UPDATED, 2)?;
    Some(
        leaves(alloc, &update, Some(&row), &UPDATED)
            && is_undefined(alloc, &update, Some(&updated))
            && is_undefined(alloc, &update, None),
    )
}

/// Whether the INSERT leaves its row, and isn't defined where there is one.
fn insert_leaves(alloc: Global) -> Option<bool> {
    let insert = change_of(&INSERT, 2)?;
    let (row, _) = read_row(&INSERT[2..], 2)?;
    Some(leaves(alloc, &insert, None, &INSERT[2..]) && is_undefined(alloc, &insert, Some(&row)))
}

/// Whether the DELETE leaves no row, and isn't defined on another row, nor where there is none.
fn delete_leaves(alloc: Global) -> Option<bool> {
    let delete = change_of(&INDIRECT_DELETE, 2)?;
    let (row, _) = read_row(&INSERT[2..], 2)?;
    let (updated, _) = read_row(&UPDATED, 2)?;
    Some(
        leaves_none(alloc, &delete, Some(&row))
            && is_undefined(alloc, &delete, Some(&updated))
            && is_undefined(alloc, &delete, None),
    )
}

#[test]
fn what_a_change_leaves(rt: HostRuntime) {
    assert!(rt; update_leaves(rt.alloc()).unwrap_or(false));
    assert!(rt; insert_leaves(rt.alloc()).unwrap_or(false));
    assert!(rt; delete_leaves(rt.alloc()).unwrap_or(false));
}

/// A group: the marks, the name, and the bytes of each change.
type Spelled<'a> = (&'a [u8], &'a str, &'a [&'a [u8]]);

fn group<'a>(alloc: Global, spelled: &Spelled<'a>) -> Result<Group<'a>, Memory> {
    let mut changes = Vec::new(alloc);
    for bytes in spelled.2 {
        if let Some(change) = change_of(bytes, spelled.0.len()) {
            changes.push(change)?;
        }
    }
    Ok(Group {
        marks: Items::from_vec(Vec::from_slice(alloc, spelled.0)?),
        name: Text::from_string(String::from_str(alloc, spelled.1)?),
        changes: Items::from_vec(changes),
    })
}

/// These groups.
fn groups_of<'a>(alloc: Global, spelled: &[Spelled<'a>]) -> Result<Changeset<'a>, Memory> {
    let mut groups = Vec::new(alloc);
    for one in spelled {
        groups.push(group(alloc, one)?)?;
    }
    Ok(Items::from_vec(groups))
}

/// The bytes of these groups, behind those.
fn encoded(alloc: Global, front: &[u8], spelled: &[Spelled<'_>]) -> Result<Vec<u8>, Memory> {
    let groups = groups_of(alloc, spelled)?;
    let mut out = Vec::from_slice(alloc, front)?;
    encode(&groups, &mut out)?;
    Ok(out)
}

/// Whether they are these parts, one behind another.
fn becomes(alloc: Global, front: &[u8], spelled: &[Spelled<'_>], parts: &[&[u8]]) -> bool {
    match encoded(alloc, front, spelled) {
        Ok(bytes) => is_joined(&bytes, parts),
        Err(_) => false,
    }
}

/// One INSERT.
const ONE_GROUP: [Spelled<'static>; 1] = [(&[1, 0], "t1", &[&INSERT])];

/// Groups of two tables, of which the first comes again under another mark and without changes.
const GROUPS: [Spelled<'static>; 3] = [
    (&[1, 0], "t1", &[&UPDATE, &INDIRECT_DELETE]),
    (&[1, 0, 0, 0], "t2", &[&WIDE_UPDATE]),
    (&[2, 0], "t1", &[]),
];

/// A byte, and these.
const GROUPS_SPELLED: [&[u8]; 7] = [
    &[0xee],
    &FIRST,
    &UPDATE,
    &INDIRECT_DELETE,
    &SECOND,
    &WIDE_UPDATE,
    &[0x54, 2, 2, 0, 0x74, 0x31, 0],
];

// The bytes of the marks and groups without changes are kept.
#[test]
fn changesets(rt: HostRuntime) {
    assert!(rt; becomes(rt.alloc(), &[], &[], &[]));
    assert!(rt; becomes(rt.alloc(), &[], &ONE_GROUP, &[&FIRST, &INSERT]));
    assert!(rt; becomes(rt.alloc(), &[0xee], &GROUPS, &GROUPS_SPELLED));
}
