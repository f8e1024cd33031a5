//! The bytes of a key where they stand in a change already.

ghost use Rattle.std.specs.Prelude.{◌≡◌, MatchOption};
ghost use Rattle.cs_normal.specs.keyed.Changes.{key_bytes};
ghost use Rattle.cs_normal.specs.keyed.NormalForm.{change_bytes, marked_fields};

use crate::keyed::key_of_change::key_record;
use cs_change::Change;
use cs_record::{Cell, Record};

/// The bytes of the key that a record holds, lent where its key columns are the first ones and are defined; `None` where the
/// key isn't in one piece: `put_record_key` puts it together then. Marks behind the last key column are to be left out
/// (`key_front`), since nothing is lent at a column that is in no key.
#[inline(always)]
#[tactic(auto, unfolding(crate::specs::keyed::NormalForm::marked_fields))]
pub fn lend_record_key<'a>(marks: &[bool], fields: &Record<'a>) -> Option<&'a [u8]>
    ensures { MatchOption result (Unit {0}) (λ key. key.now ≡ key_bytes (marked_fields marks.now fields.now)) }
{
    let mut marks = marks;
    let mut rest = fields.again();
    while let Some((mark, more_marks)) = marks.split_first() {
        let Some((column, more)) = rest.split_first() else {
            break;
        };
        if !*mark {
            return None;
        }
        let Some(_) = Cell::of_column(&column) else {
            return None;
        };
        marks = more_marks;
        rest = more;
    }
    let bytes = fields.bytes();
    let (key, _) = bytes.split_at(bytes.len() - rest.bytes().len());
    Some(key)
}

/// The bytes of a change's key, lent where its key columns are the first ones and are defined, which is nearly always. Else
/// `None`, and `put_key` puts them together. Marks behind the last key column are to be left out (`key_front`).
#[inline(always)]
pub fn lend_key<'a>(marks: &[bool], change: &Change<'a>) -> Option<&'a [u8]>
    ensures { MatchOption result (Unit {0}) (λ key. key.now ≡ change_bytes marks.now change.now) }
{
    lend_record_key(marks, &key_record(change))
}
