//! Changes of a table `t1` with a key column and another one. They are taken together by the calls that the program doesn't make, and
//! taken back. Net changes of rows stand here too. Sequences as `sync combine` takes them together stand in `bench/check_tools.sh`.

ghost use Rattle.std.specs.Prelude.{◌≡◌, true, false, ◌∷◌, [], IfOk, IfSome};
ghost use Rattle.std.specs.Option.{option_copied};
ghost use Rattle.cs_value.specs.declared.value.Field.TheVariants.{Is};
ghost use Rattle.cs_record.specs.Spelling.{Fits};
ghost use Rattle.std.specs.List.{AllByRecursion};
ghost use Rattle.cs_change.specs.Spelling.{FitsChangeset, FitsRow};
ghost use Rattle.cs_value.specs.Key.{FitsPlace, HasKey};
ghost use Rattle.cs_value.specs.declared.value.Value.TheVariants.{Int};
ghost use Rattle.cs_normal.specs.Normal.{FitsCatalog};

use cs_change::netting::net;
use cs_change::{Change, ChangesBuf, Changeset};
use cs_changeset::read;
use cs_group::*;
use cs_normal::{BytePieces, Normal};
use cs_normalising::{Unfit, normalise};
use cs_record::{Row, RowBuf};
use cs_value::{Catalog, Items, Memory, TableDef, Text, Value};
use std::alloc::Global;

/// The header of the table.
const HEADER: &[u8] = b"\x54\x02\x01\0t1\0";

/// Changesets of one change of the row with key 1, by its kind and its texts.
const INSERT_V1: &[u8] = b"\x54\x02\x01\0t1\0\x12\0\x01\0\0\0\0\0\0\0\x01\x03\x02v1";

const INSERT_V2: &[u8] = b"\x54\x02\x01\0t1\0\x12\0\x01\0\0\0\0\0\0\0\x01\x03\x02v2";

const DELETE_V1: &[u8] = b"\x54\x02\x01\0t1\0\x09\0\x01\0\0\0\0\0\0\0\x01\x03\x02v1";

const UPDATE_V1_V2: &[u8] = b"\x54\x02\x01\0t1\0\x17\0\x01\0\0\0\0\0\0\0\x01\x03\x02v1\0\x03\x02v2";

/// Indirect ones.
const INDIRECT_INSERT_V1: &[u8] = b"\x54\x02\x01\0t1\0\x12\x01\x01\0\0\0\0\0\0\0\x01\x03\x02v1";

const INDIRECT_INSERT_V2: &[u8] = b"\x54\x02\x01\0t1\0\x12\x01\x01\0\0\0\0\0\0\0\x01\x03\x02v2";

const INDIRECT_DELETE_V1: &[u8] = b"\x54\x02\x01\0t1\0\x09\x01\x01\0\0\0\0\0\0\0\x01\x03\x02v1";

const INDIRECT_UPDATE_V1_V2: &[u8] =
    b"\x54\x02\x01\0t1\0\x17\x01\x01\0\0\0\0\0\0\0\x01\x03\x02v1\0\x03\x02v2";

const INDIRECT_UPDATE_V2_V1: &[u8] =
    b"\x54\x02\x01\0t1\0\x17\x01\x01\0\0\0\0\0\0\0\x01\x03\x02v2\0\x03\x02v1";

/// What no change is spelled as.
const NOTHING: &[u8] = b"";

fn text_value(alloc: Global, text: &str) -> Result<Value, Memory>
    ensures { IfOk result (λ value. Fits (Is value)) }
{
    Ok(Value::Text(Text::from_string(String::from_str(alloc, text)?)))
}

/// The row with this key and text.
fn row(alloc: Global, key: i64, text: &str) -> Result<RowBuf, Memory>
    ensures fits { IfOk result (FitsRow 2) }
    ensures key { IfOk result (HasKey (true ∷ false ∷ []) (Int key ∷ [])) }
{
    let mut row = RowBuf::new(alloc);
    row.push_value(&Value::Int(key))?;
    row.push_value(&text_value(alloc, text)?)?;
    Ok(row)
}

/// The normal form of these bytes.
fn normal_of(alloc: Global, catalog: &Catalog, bytes: &[u8]) -> Option<Normal>
    ensures { IfSome result (FitsCatalog catalog.now) }
{
    let Ok(changeset) = read(alloc, bytes) else {
        return None;
    };
    match normalise(alloc, catalog, &changeset) {
        Ok(normal) => Some(normal),
        Err(_) => None,
    }
}

fn table(alloc: Global) -> Result<TableDef, Memory>
    ensures { IfOk result (λ table. table.key_marks ≡ true ∷ false ∷ []) }
{
    Ok(TableDef {
        name: Text::from_string(String::from_str(alloc, "t1")?),
        key_marks: Items::from_vec(vec![in alloc; true, false]?),
    })
}

/// Whether the changeset is spelled so.
fn is_spelled(alloc: Global, normal: &Normal, want: &[u8]) -> bool {
    let mut bytes = Vec::new(alloc);
    match normal.encode(&mut bytes) {
        Ok(()) => bytes.as_slice() == want,
        Err(_) => false,
    }
}

/// Two changes one after the other, and what they are as one.
type Pair = (&'static [u8], &'static [u8], &'static [u8]);

const PAIRS: [Pair; 3] = [
    (INSERT_V1, UPDATE_V1_V2, INSERT_V2),
    (
        INDIRECT_DELETE_V1,
        INDIRECT_INSERT_V2,
        INDIRECT_UPDATE_V1_V2,
    ),
    (INSERT_V1, DELETE_V1, NOTHING),
];

/// Whether they are that by `then`.
fn are_so_then(alloc: Global, pair: &Pair) -> Option<bool> {
    let catalog = cs_store_cases::catalog(alloc)?;
    let earlier = normal_of(alloc, &catalog, pair.0)?;
    let later = normal_of(alloc, &catalog, pair.1)?;
    match then(alloc, &catalog, &earlier, &later) {
        Ok(both) => Some(is_spelled(alloc, &both, pair.2)),
        Err(_) => None,
    }
}

/// Whether they are that by `join`.
fn are_so_joined(alloc: Global, pair: &Pair) -> Option<bool> {
    let catalog = cs_store_cases::catalog(alloc)?;
    let earlier = normal_of(alloc, &catalog, pair.0)?;
    let later = normal_of(alloc, &catalog, pair.1)?;
    match join(alloc, &catalog, &[earlier, later]) {
        Ok(both) => Some(is_spelled(alloc, &both, pair.2)),
        Err(_) => None,
    }
}

#[test]
fn pairs(rt: HostRuntime) {
    for pair in &PAIRS {
        assert!(rt; are_so_then(rt.alloc(), pair) == Some(true));
        assert!(rt; are_so_joined(rt.alloc(), pair) == Some(true));
    }
}

/// Whether the inverse of the changeset, by its own headers, is that.
fn is_inverse(alloc: Global, change: &[u8], want: &[u8]) -> Option<bool> {
    let Ok(changeset) = read(alloc, change) else {
        return None;
    };
    let Ok(normal) = normalise_alone(alloc, &changeset) else {
        return None;
    };
    match invert(alloc, normal) {
        Ok(inverse) => Some(is_spelled(alloc, &inverse, want)),
        Err(_) => None,
    }
}

/// Changes, and what takes them back.
const INVERSES: [(&[u8], &[u8]); 3] = [
    (INDIRECT_INSERT_V1, INDIRECT_DELETE_V1),
    (DELETE_V1, INSERT_V1),
    (INDIRECT_UPDATE_V1_V2, INDIRECT_UPDATE_V2_V1),
];

#[test]
fn taken_back(rt: HostRuntime) {
    for (change, want) in &INVERSES {
        assert!(rt; is_inverse(rt.alloc(), change, want) == Some(true));
    }
}

/// Whether the changes kept of this one, or of none, are spelled so.
fn is_kept(alloc: Global, change: Option<Change<'_>>, want: &[u8]) -> Result<bool, Memory> {
    let mut changes = ChangesBuf::new(alloc);
    if let Some(change) = change {
        changes.push(&change)?;
    }
    Ok(changes.spelling() == want)
}

/// Whether the net change of two rows of this key, or none, is spelled so; no byte where there is none.
fn net_is(
    alloc: Global,
    key: i64,
    before: Option<&Row<'_>>,
    after: Option<&Row<'_>>,
    want: &[u8],
) -> Result<bool, Memory>
    requires before { FitsPlace (true ∷ false ∷ []) (Int key ∷ []) (option_copied before) }
    requires after { FitsPlace (true ∷ false ∷ []) (Int key ∷ []) (option_copied after) }
{
    let first = table(alloc)?;
    let net = net(alloc, &first, before, after)?;
    is_kept(alloc, net.get(), want)
}

/// The same of a row, or none, and the row of this key with this text, or none.
fn net_to_is(
    alloc: Global,
    key: i64,
    before: Option<&Row<'_>>,
    after: Option<&str>,
    want: &[u8],
) -> Result<bool, Memory>
    requires before { FitsPlace (true ∷ false ∷ []) (Int key ∷ []) (option_copied before) }
{
    match after {
        Some(text) => {
            let after = row(alloc, key, text)?;
            net_is(alloc, key, before, Some(&after.as_row()), want)
        }
        None => net_is(alloc, key, before, None, want),
    }
}

/// The same of the rows of key 1 with these texts, or none.
fn net_of_is(
    alloc: Global,
    before: Option<&str>,
    after: Option<&str>,
    want: &[u8],
) -> Result<bool, Memory> {
    match before {
        Some(text) => {
            let before = row(alloc, 1, text)?;
            net_to_is(alloc, 1, Some(&before.as_row()), after, want)
        }
        None => net_to_is(alloc, 1, None, after, want),
    }
}

/// The texts of the rows, or none, and their net change. That is the INSERT of (1, 'v2'), the DELETE of (1, 'v1'), none, and the UPDATE
/// of this to that.
const NETS: [(Option<&str>, Option<&str>, &[u8]); 5] = [
    (None, Some("v2"), b"\x12\0\x01\0\0\0\0\0\0\0\x01\x03\x02v2"),
    (Some("v1"), None, b"\x09\0\x01\0\0\0\0\0\0\0\x01\x03\x02v1"),
    (None, None, NOTHING),
    (Some("v1"), Some("v1"), NOTHING),
    (
        Some("v1"),
        Some("v2"),
        b"\x17\0\x01\0\0\0\0\0\0\0\x01\x03\x02v1\0\x03\x02v2",
    ),
];

#[test]
fn net_of_rows_and_none(rt: HostRuntime) {
    for (before, after, want) in &NETS {
        assert!(rt; net_of_is(rt.alloc(), *before, *after, want) == Ok(true));
    }
}

/// Whether an INSERT and the DELETE of its row, taken together with it, are nothing.
fn adds_to_nothing(alloc: Global) -> Option<bool> {
    let table = table(alloc).ok()?;
    let catalog = Catalog::new(vec![in alloc; table].ok()?).ok()?;
    let changeset = normal_of(alloc, &catalog, INSERT_V1)?;
    let Ok(row) = row(alloc, 1, "v1") else {
        return None;
    };
    let change = Change::Delete {
        flag: false,
        old_row: row.as_row(),
    };
    match add_one(alloc, &catalog, &changeset, 0, &change) {
        Ok(both) => Some(both.len() == 0),
        Err(_) => None,
    }
}

#[test]
fn one_more(rt: HostRuntime) {
    assert!(rt; adds_to_nothing(rt.alloc()).unwrap_or(false));
}

/// Three changesets, as they are read.
fn three<'a>(
    alloc: Global,
    first: &'a [u8],
    second: &'a [u8],
    third: &'a [u8],
) -> Option<[Changeset<'a>; 3]>
    ensures { IfSome result (AllByRecursion FitsChangeset) }
{
    let Ok(first) = read(alloc, first) else {
        return None;
    };
    let Ok(second) = read(alloc, second) else {
        return None;
    };
    let Ok(third) = read(alloc, third) else {
        return None;
    };
    Some([first, second, third])
}

/// Whether these bytes are those, in front of one that stays.
fn are_put(alloc: Global, pieces: &BytePieces, want: &[u8]) -> bool {
    let Ok(mut out) = vec![in alloc; 7u8; want.len().saturating_add(1)] else {
        return false;
    };
    let Ok(len) = pieces.put_to_front(alloc, out.as_mut_slice()) else {
        return false;
    };
    match out.as_slice().split_last() {
        Some((last, front)) => len == want.len() && *last == 7 && front == want,
        None => false,
    }
}

/// Whether two changesets, with one without changes between them, are spelled so together.
fn are_spelled(alloc: Global, first: &[u8], third: &[u8], want: &[u8]) -> bool {
    let Some(changesets) = three(alloc, first, HEADER, third) else {
        return false;
    };
    match combine_spelled(alloc, &changesets) {
        Ok(spelled) => are_put(alloc, &spelled, want),
        Err(_) => false,
    }
}

/// Whether it is told of them that a key comes twice.
fn have_key_twice(alloc: Global, first: &[u8], third: &[u8]) -> bool {
    let Some(changesets) = three(alloc, first, HEADER, third) else {
        return false;
    };
    match combine_spelled(alloc, &changesets) {
        Ok(_) => false,
        Err(told) => told == CombineFault::Unfit(Unfit::KeyTwice),
    }
}

/// Two INSERTs of one key.
const INSERT_TWICE: &[u8] =
    b"\x54\x02\x01\0t1\0\x12\0\x01\0\0\0\0\0\0\0\x01\x03\x02v1\x12\0\x01\0\0\0\0\0\0\0\x01\x03\x02v2";

#[test]
fn spelled_together(rt: HostRuntime) {
    let alloc = rt.alloc();
    assert!(rt; are_spelled(alloc, INSERT_V1, UPDATE_V1_V2, INSERT_V2));
    // Nothing is left, so no header is.
    assert!(rt; are_spelled(alloc, INSERT_V1, DELETE_V1, NOTHING));
    assert!(rt; have_key_twice(alloc, INSERT_V1, INSERT_TWICE));
}

/// The last characters of the names of ten tables, in order and turned.
const TABLES: &[u8] = b"0123456789";

const TURNED: &[u8] = b"9876543210";

/// Changes of a table, without a header. They are an INSERT of the row with this key, an UPDATE of that with key 1, and both rows as
/// it leaves them.
const INSERT_1_V1: &[u8] = b"\x12\0\x01\0\0\0\0\0\0\0\x01\x03\x02v1";

const INSERT_2_V1: &[u8] = b"\x12\0\x01\0\0\0\0\0\0\0\x02\x03\x02v1";

const UPDATE_1_V1_V2: &[u8] = b"\x17\0\x01\0\0\0\0\0\0\0\x01\x03\x02v1\0\x03\x02v2";

const INSERTS_1_V2_2_V1: &[u8] =
    b"\x12\0\x01\0\0\0\0\0\0\0\x01\x03\x02v2\x12\0\x01\0\0\0\0\0\0\0\x02\x03\x02v1";

/// The tables, and the changes of each.
type Groups = (&'static [u8], &'static [u8]);

/// A group for each of the tables, with these changes, and behind them those of the next tables.
fn groups_in_turn(alloc: Global, all: &[Groups]) -> Result<Vec<u8>, Memory> {
    let mut bytes = Vec::new(alloc);
    for (tables, changes) in all {
        for table in *tables {
            bytes.extend_from_slice(b"\x54\x02\x01\0t")?;
            bytes.extend_from_slice(&[*table, 0])?;
            bytes.extend_from_slice(changes)?;
        }
    }
    Ok(bytes)
}

/// Whether groups of many tables in turn come to one group a table.
fn are_in_turn(alloc: Global) -> Result<bool, Memory> {
    let inserted = groups_in_turn(alloc, &[(TABLES, INSERT_1_V1), (TABLES, INSERT_2_V1)])?;
    let updated = groups_in_turn(alloc, &[(TURNED, UPDATE_1_V1_V2)])?;
    let want = groups_in_turn(alloc, &[(TABLES, INSERTS_1_V2_2_V1)])?;
    Ok(are_spelled(alloc, &inserted, &updated, &want))
}

/// Whether a key that comes twice is told, the second time in a later group of its table.
fn is_twice_told(alloc: Global) -> Result<bool, Memory> {
    let groups: [Groups; 3] = [
        (TABLES, INSERT_1_V1),
        (TABLES, INSERT_2_V1),
        (b"3", INSERT_2_V1),
    ];
    let inserted = groups_in_turn(alloc, &groups)?;
    Ok(have_key_twice(alloc, &inserted, HEADER))
}

#[test]
fn many_tables_in_turn(rt: HostRuntime) {
    assert!(rt; are_in_turn(rt.alloc()) == Ok(true));
    assert!(rt; is_twice_told(rt.alloc()) == Ok(true));
}

/// So many rows take more bytes than one piece of memory has.
const MANY: u32 = 80_000;

/// A changeset with a change of each of many rows: what stands before its key, and behind it.
fn of_many(alloc: Global, before: &[u8], behind: &[u8]) -> Result<Vec<u8>, Memory> {
    let mut bytes = Vec::from_slice(alloc, HEADER)?;
    for key in 0..MANY {
        bytes.extend_from_slice(before)?;
        bytes.extend_from_slice(&key.to_be_bytes())?;
        bytes.extend_from_slice(behind)?;
    }
    Ok(bytes)
}

/// Whether many rows that are inserted and updated are so many INSERTs.
fn are_many(alloc: Global) -> Result<bool, Memory> {
    let inserted = of_many(alloc, b"\x12\0\x01\0\0\0\0", b"\x03\x02v1")?;
    let updated = of_many(alloc, b"\x17\0\x01\0\0\0\0", b"\x03\x02v1\0\x03\x02v2")?;
    let want = of_many(alloc, b"\x12\0\x01\0\0\0\0", b"\x03\x02v2")?;
    Ok(are_spelled(alloc, &inserted, &updated, &want))
}

#[test]
fn many_rows(rt: HostRuntime) {
    assert!(rt; are_many(rt.alloc()) == Ok(true));
}
