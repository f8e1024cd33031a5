//! The keys of changes, lent by these.

ghost use Rattle.std.specs.Prelude.{◌≡◌, true, map, IfOk, IfSome};
ghost use Rattle.std.specs.List.{list_all};
ghost use Rattle.cs_value.specs.Catalog.{is_set};
ghost use Rattle.cs_order.specs.Order.{keys_behind};
ghost use Rattle.cs_normal.specs.keyed.NormalForm.{change_bytes, has_key, marked_fields};

use cs_change::Change;
use cs_normal::keyed::{key_front, lend_key};
use cs_record::{Cell, Record};
use cs_value::Memory;
use std::alloc::Global;
use std::marker::Model;

/// Whether a record has a value at each of these columns, and none of them is NULL.
#[inline(always)]
fn are_set(marks: &[bool], fields: &Record<'_>) -> bool
    ensures { result ≡ true → list_all is_set (marked_fields marks.now fields.now) ≡ true }
{
    let mut marks = marks;
    let mut rest = fields.again();
    while let Some((mark, more_marks)) = marks.split_first() {
        let Some((column, more)) = rest.split_first() else {
            break;
        };
        if *mark {
            match Cell::of_column(&column) {
                Some(cell) if cell.is_set() => {}
                _ => return false,
            }
        }
        marks = more_marks;
        rest = more;
    }
    true
}

/// Whether a change has its key, without NULL.
#[inline(always)]
fn is_keyed(marks: &[bool], change: &Change<'_>) -> bool
    ensures { result ≡ true → has_key marks.now change.now ≡ true }
{
    match change {
        Change::Insert { new_row, .. } => are_set(marks, &Record::of_row(new_row)),
        Change::Delete { old_row, .. } => are_set(marks, &Record::of_row(old_row)),
        Change::Update { old_fields, .. } => are_set(marks, old_fields),
    }
}

/// The keys of changes, lent by these. Contracts see their bytes.
#[derive(Drop)]
pub(crate) struct ChangeKeys<'a> {
    /// The marks up to the last key column.
    front: &'a [bool],
    changes: &'a [Change<'a>],
    keys: Vec<&'a [u8]>,
}

impl<'a> Model for ChangeKeys<'a> {
    ghost use Rattle.std.specs.Prelude.{◌≡◌, map};
    ghost use Rattle.cs_order.specs.Order.{Keys, keys_behind};
    ghost use Rattle.cs_normal.specs.keyed.NormalForm.{change_bytes};

    ghost Value = { Keys };

    ghost view = { λ lent. keys_behind lent.keys.items };

    ghost invariant = { λ lent. keys_behind lent.keys.items ≡ map (change_bytes lent.front.now) lent.changes.now };
}

impl<'a> ChangeKeys<'a> {
    ghost use Rattle.std.specs.Prelude.{◌≡◌, ◌<◌, length};
    ghost use Rattle.cs_order.specs.Order.{key_at, keys_behind};

    /// How many keys there are.
    #[inline(always)]
    pub(crate) fn len(&self) -> usize
        ensures { result ≡ length self.now }
    {
        self.keys.len()
    }

    /// The key there. Its change lends it once more, since who asks for keys out of order asks for their changes too. Where many
    /// stand, a list that is read beside these is one wait more for each.
    #[inline(always)]
    pub(crate) fn get(&self, at: usize) -> &[u8]
        requires { at < length self.now }
        ensures { result.now ≡ key_at self.now at }
    {
        if let Some(change) = self.changes.get(at) {
            if let Some(key) = lend_key(self.front, change) {
                return key;
            }
        }
        self.keys[at]
    }

    /// All keys.
    #[inline(always)]
    pub(crate) fn as_slice(&self) -> &[&'a [u8]]
        ensures { keys_behind result.now ≡ self.now }
    {
        self.keys.as_slice()
    }
}

/// The key of each change, lent by it; none, where a change has its key not in one piece, or has NULL there.
pub(crate) fn lend_keys<'a>(
    alloc: Global,
    marks: &'a [bool],
    changes: &'a [Change<'a>],
) -> Result<Option<ChangeKeys<'a>>, Memory>
    ensures keys { IfOk result (λ found. IfSome found (λ keys. keys ≡ map (change_bytes marks.now) changes.now)) }
    ensures keyed { IfOk result (λ found. IfSome found (λ keys. list_all (has_key marks.now) changes.now ≡ true)) }
{
    let front = key_front(marks);
    let mut keys = Vec::with_capacity(alloc, changes.len())?;
    for change in changes {
        if !is_keyed(front, change) {
            return Ok(None);
        }
        let Some(key) = lend_key(front, change) else {
            return Ok(None);
        };
        keys.push(key)?;
    }
    Ok(Some(ChangeKeys {
        front,
        changes,
        keys,
    }))
}
