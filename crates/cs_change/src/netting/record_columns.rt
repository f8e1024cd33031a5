//! The columns of two records or rows taken together, one pass over both.

ghost use Rattle.std.specs.Prelude.{◌≡◌, ◌++◌, ◌∷◌, [], IfOk, OnOk, not};
ghost use Rattle.cs_change.specs.Columns.{is_blank, is_defined, overlay_field};
ghost use Rattle.cs_change.specs.Net.{old_record, new_record};
ghost use Rattle.cs_change.specs.Then.{is_idle, inverse_old, inverse_new, inverse_old_fields, inverse_new_fields, then_old_fields, then_new_fields};

use crate::Scratch;
use cs_record::{Cell, Column, Record, RecordBuf, Row};
use cs_value::Memory;

/// The second field where it is defined, else the first: what is left of a column where two records stand one over the
/// other. (SQLite's "Session Extension", changegroup.)
#[inline(always)]
pub fn overlaid<'b, 'a>(under: &'b Column<'a>, over: &'b Column<'a>) -> &'b Column<'a>
    ensures { result.now ≡ overlay_field under.now over.now }
{
    match Cell::of_column(over) {
        None => under,
        Some(_) => over,
    }
}

/// Whether a column's new value is its old one, so an UPDATE doesn't modify it. An undefined one is no value. (SQLite's
/// "Session Extension", changegroup.)
#[inline(always)]
#[tactic(auto, unfolding(crate::specs::Then::is_idle, crate::specs::Columns::holds))]
pub fn keeps_value(old: &Column<'_>, new: &Column<'_>) -> bool
    ensures { result ≡ is_idle old.now new.now }
{
    match (Cell::of_column(new), Cell::of_column(old)) {
        (None, _) => false,
        (Some(_), None) => false,
        (Some(value), Some(before)) => before.same(&value),
    }
}

/// Whether the field is defined: whether it holds a value, NULL among them. (SQLite's "changeset format", record.)
#[inline(always)]
pub fn defined(column: &Column<'_>) -> bool
    ensures { result ≡ is_defined column.now }
{
    Cell::of_column(column).is_some()
}

/// Appends the two records of two updates taken together, and tells whether a column is left that they modify.
#[tactic(auto, unfolding(crate::specs::Then::then_old_fields, crate::specs::Then::then_new_fields, crate::specs::Columns::is_blank))]
pub(crate) fn put_then_columns(
    old_earlier: &Record<'_>,
    new_earlier: &Record<'_>,
    old_later: &Record<'_>,
    new_later: &Record<'_>,
    olds: &mut RecordBuf,
    news: &mut RecordBuf,
) -> Result<bool, Memory>
    ensures olds { IfOk result (λ left. olds.new
        ≡ olds.old ++ then_old_fields old_earlier.now new_earlier.now old_later.now new_later.now) }
    ensures news { IfOk result (λ left. news.new
        ≡ news.old ++ then_new_fields old_earlier.now new_earlier.now old_later.now new_later.now) }
    ensures left { IfOk result (λ left. not left
        ≡ is_blank (then_new_fields old_earlier.now new_earlier.now old_later.now new_later.now)) }
{
    let mut left = false;
    let mut old_earlier = old_earlier.again();
    let mut new_earlier = new_earlier.again();
    let mut old_later = old_later.again();
    let mut new_later = new_later.again();
    while let (Some((o1, os1)), Some((n1, ns1)), Some((o2, os2)), Some((n2, ns2))) = (
        old_earlier.split_first(),
        new_earlier.split_first(),
        old_later.split_first(),
        new_later.split_first(),
    ) {
        let old = overlaid(&o2, &o1);
        let new = overlaid(&n1, &n2);
        if keeps_value(old, new) {
            olds.push_undefined()?;
            news.push_undefined()?;
        } else {
            olds.push(old)?;
            news.push(new)?;
            left = left || defined(new);
        }
        old_earlier = os1;
        new_earlier = ns1;
        old_later = os2;
        new_later = ns2;
    }
    Ok(left)
}

/// Appends the new record of the update from one row to another.
#[tactic(auto, unfolding(crate::specs::Net::new_record))]
fn put_new_columns(before: &Row<'_>, after: &Row<'_>, news: &mut RecordBuf) -> Result<(), Memory>
    ensures { OnOk result (news.new ≡ news.old ++ new_record before.now after.now) }
{
    let mut before = before.again();
    let mut after = after.again();
    while let (Some((old, more_before)), Some((new, more_after))) = (
        before.split_first(),
        after.split_first(),
    ) {
        if old.same(&new) {
            news.push_undefined()?;
        } else {
            news.push(&Column::of_cell(&new))?;
        }
        before = more_before;
        after = more_after;
    }
    Ok(())
}

/// Appends the two records of the update from one row to another.
#[tactic(auto, unfolding(crate::specs::Net::old_record, crate::specs::Net::new_record))]
pub(crate) fn put_net_columns(
    marks: &[bool],
    before: &Row<'_>,
    after: &Row<'_>,
    olds: &mut RecordBuf,
    news: &mut RecordBuf,
) -> Result<(), Memory>
    ensures olds { OnOk result (olds.new ≡ olds.old ++ old_record marks.now before.now after.now) }
    ensures news { OnOk result (news.new ≡ news.old ++ new_record before.now after.now) }
{
    let mut marks = marks;
    let mut before = before.again();
    let mut after = after.again();
    while let (Some((in_key, more_marks)), Some((old, more_before)), Some((new, more_after))) = (
        marks.split_first(),
        before.split_first(),
        after.split_first(),
    ) {
        let same = old.same(&new);
        if *in_key || !same {
            olds.push(&Column::of_cell(&old))?;
        } else {
            olds.push_undefined()?;
        }
        if same {
            news.push_undefined()?;
        } else {
            news.push(&Column::of_cell(&new))?;
        }
        marks = more_marks;
        before = more_before;
        after = more_after;
    }
    // Where the marks end before the rows.
    put_new_columns(&before, &after, news)
}

/// Appends a column of the inverse's old record.
#[inline(always)]
fn put_inverse_old(old: &Column<'_>, new: &Column<'_>, olds: &mut RecordBuf) -> Result<(), Memory>
    ensures { OnOk result (olds.new ≡ olds.old ++ inverse_old old.now new.now ∷ []) }
{
    match Cell::of_column(new) {
        None => olds.push(old),
        Some(_) => olds.push(new),
    }
}

/// Appends a column of the inverse's new record.
#[inline(always)]
fn put_inverse_new(old: &Column<'_>, new: &Column<'_>, news: &mut RecordBuf) -> Result<(), Memory>
    ensures { OnOk result (news.new ≡ news.old ++ inverse_new old.now new.now ∷ []) }
{
    match Cell::of_column(new) {
        None => news.push_undefined(),
        Some(_) => news.push(old),
    }
}

/// Appends the two records of the update that takes one back.
#[tactic(auto, unfolding(crate::specs::Then::inverse_old_fields, crate::specs::Then::inverse_new_fields))]
fn put_inverse_columns(
    old: &Record<'_>,
    new: &Record<'_>,
    olds: &mut RecordBuf,
    news: &mut RecordBuf,
) -> Result<(), Memory>
    ensures olds { OnOk result (olds.new ≡ olds.old ++ inverse_old_fields old.now new.now) }
    ensures news { OnOk result (news.new ≡ news.old ++ inverse_new_fields old.now new.now) }
{
    let mut old = old.again();
    let mut new = new.again();
    while let (Some((was, more_old)), Some((is, more_new))) = (
        old.split_first(),
        new.split_first(),
    ) {
        put_inverse_old(&was, &is, olds)?;
        put_inverse_new(&was, &is, news)?;
        old = more_old;
        new = more_new;
    }
    Ok(())
}

/// Makes the two records of the update that takes one back, in place of what is there. An `Err` may leave a part of them there.
/// (SQLite's "Session Extension", inversion of a changeset.)
pub fn make_inverse_columns(
    old: &Record<'_>,
    new: &Record<'_>,
    scratch: &mut Scratch,
) -> Result<(), Memory>
    ensures olds { OnOk result (scratch.new.old_fields ≡ inverse_old_fields old.now new.now) }
    ensures news { OnOk result (scratch.new.new_fields ≡ inverse_new_fields old.now new.now) }
{
    let olds = &mut scratch.old_fields;
    let news = &mut scratch.new_fields;
    olds.clear();
    news.clear();
    put_inverse_columns(old, new, olds, news)
}
