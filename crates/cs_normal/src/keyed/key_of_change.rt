//! The bytes of the keys of changes that stay in their bytes.

ghost use Rattle.std.specs.Prelude.{◌≡◌, ◌++◌, Bool, IfOk, List};
ghost use Rattle.std.specs.List.{list_all};
ghost use Rattle.cs_value.specs.Catalog.{is_set};
ghost use Rattle.cs_record.specs.Spelling.{Extends};
ghost use Rattle.cs_normal.specs.keyed.Changes.{key_bytes};
ghost use Rattle.cs_normal.specs.keyed.NormalForm.{HaveSameKeys, change_bytes, change_key, has_key, marked_fields};

use cs_change::Change;
use cs_record::{Cell, NULL, Record};
use cs_value::Memory;

/// The marks up to the last key column: the columns behind it are in no key, and needn't be looked at.
#[tactic(auto, unfolding(crate::specs::keyed::NormalForm::marked_fields))]
pub fn key_front(marks: &[bool]) -> &[bool]
    ensures { HaveSameKeys result.now marks.now }
{
    let mut front = marks;
    while let Some((last, before)) = front.split_last() {
        if *last {
            return front;
        }
        front = before;
    }
    front
}

/// The record that holds a change's key: the only row of an INSERT or a DELETE, and the old fields of an UPDATE. So there is one
/// way through the columns for all three.
#[inline(always)]
#[tactic(auto, using(crate::proofs::KeyedLemmas::Lent::row_key))]
pub(crate) fn key_record<'a>(change: &Change<'a>) -> Record<'a>
    ensures { (marks : List Bool) → marked_fields marks result ≡ change_key marks change.now }
{
    match change {
        Change::Insert { new_row, .. } => Record::of_row(new_row),
        Change::Delete { old_row, .. } => Record::of_row(old_row),
        Change::Update { old_fields, .. } => old_fields.again(),
    }
}

/// Appends the bytes of the key that a record holds, and tells whether none of its values is NULL; an undefined field
/// counts as NULL. An `Err` may leave a part of it there.
#[inline(always)]
#[tactic(auto, unfolding(crate::specs::keyed::NormalForm::marked_fields))]
pub fn put_record_key(
    marks: &[bool],
    fields: &Record<'_>,
    out: &mut Vec<u8>,
) -> Result<bool, Memory>
    ensures ok { IfOk result (λ whole. (out.new.items ≡ out.old.items ++ key_bytes (marked_fields marks.now fields.now))
        × (whole ≡ list_all is_set (marked_fields marks.now fields.now))) }
    ensures kept { Extends out.old.items out.new.items }
{
    let mut whole = true;
    let mut marks = marks;
    let mut fields = fields.again();
    while let Some((mark, more_marks)) = marks.split_first() {
        let Some((column, more_fields)) = fields.split_first() else {
            break;
        };
        if *mark {
            match Cell::of_column(&column) {
                Some(cell) => {
                    cell.append(out)?;
                    whole = whole && cell.is_set();
                }
                None => {
                    out.push(NULL)?;
                    whole = false;
                }
            }
        }
        marks = more_marks;
        fields = more_fields;
    }
    Ok(whole)
}

/// Appends the bytes of a change's key, and tells whether none of its values is NULL. An `Err` may leave a part of it
/// there.
#[inline(always)]
pub fn put_key(marks: &[bool], change: &Change<'_>, out: &mut Vec<u8>) -> Result<bool, Memory>
    ensures ok { IfOk result (λ whole. (out.new.items ≡ out.old.items ++ change_bytes marks.now change.now)
        × (whole ≡ has_key marks.now change.now)) }
    ensures kept { Extends out.old.items out.new.items }
{
    put_record_key(marks, &key_record(change), out)
}
