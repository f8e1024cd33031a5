//! The normal form of one change that stays in its bytes.

ghost use Rattle.std.specs.Prelude.{◌≡◌, ◌++◌, ◌∷◌, [], ◌&&◌, not, if◌then◌else◌, IfOk, IsTrue, OnOk, Some};
ghost use Rattle.cs_value.specs.declared.value.Field.TheVariants.{Undefined};
ghost use Rattle.cs_change.specs.Columns.{is_blank};
ghost use Rattle.cs_change.specs.Listed.{listed};
ghost use Rattle.cs_change.specs.declared.change.Change.TheVariants.{Update};
ghost use Rattle.cs_normal.specs.keyed.NormalForm.{changes_value, normal_form, normal_news, normal_olds};
ghost use Rattle.cs_normal.specs.keyed.Steps.Forms.{normal_columns, is_normal_column};
ghost use Rattle.cs_normal.specs.keyed.Prepared.{AreForms};

use cs_change::{Change, ChangesBuf, Scratch};
use cs_record::{Cell, Column, Record, RecordBuf};
use cs_value::Memory;

#[inline(always)]
#[tactic(auto, unfolding(cs_change::specs::Then::is_idle, cs_change::specs::Columns::holds))]
fn gets_value(in_key: bool, old: &Column<'_>, new: &Column<'_>) -> bool
    ensures { result ≡ changes_value in_key old.now new.now }
{
    if in_key {
        return false;
    }
    match (Cell::of_column(new), Cell::of_column(old)) {
        (None, _) => false,
        (Some(_), None) => true,
        (Some(value), Some(before)) => !before.same(&value),
    }
}

/// Appends the field, or an undefined one.
#[inline(always)]
fn put_if(wanted: bool, column: &Column<'_>, out: &mut RecordBuf) -> Result<(), Memory>
    ensures { OnOk result (out.new ≡ out.old ++ (if wanted then column.now else Undefined) ∷ []) }
{
    if wanted {
        out.push(column)
    } else {
        out.push_undefined()
    }
}

/// Appends the two records of the update in normal form, and tells whether a column is left.
#[tactic(auto, unfolding(crate::specs::keyed::NormalForm::normal_olds, crate::specs::keyed::NormalForm::normal_news, cs_change::specs::Columns::is_blank, cs_change::specs::Then::is_idle))]
fn put_normal_columns(
    marks: &[bool],
    old: &Record<'_>,
    new: &Record<'_>,
    olds: &mut RecordBuf,
    news: &mut RecordBuf,
) -> Result<bool, Memory>
    ensures olds { IfOk result (λ left. olds.new ≡ olds.old ++ normal_olds marks.now old.now new.now) }
    ensures news { IfOk result (λ left. news.new ≡ news.old ++ normal_news marks.now old.now new.now) }
    ensures left { IfOk result (λ left. not left ≡ is_blank (normal_news marks.now old.now new.now)) }
{
    let mut left = false;
    let mut marks = marks;
    let mut old = old.again();
    let mut new = new.again();
    while let (Some((mark, ms)), Some((o, os)), Some((n, ns))) = (
        marks.split_first(),
        old.split_first(),
        new.split_first(),
    ) {
        let gets = gets_value(*mark, &o, &n);
        put_if(*mark || gets, &o, olds)?;
        put_if(gets, &n, news)?;
        left = left || gets;
        marks = ms;
        old = os;
        new = ns;
    }
    Ok(left)
}

/// Appends the update in normal form, if a column is left.
#[tactic(auto, unfolding(crate::specs::keyed::NormalForm::normal_form))]
fn push_update(
    marks: &[bool],
    flag: bool,
    old: &Record<'_>,
    new: &Record<'_>,
    scratch: &mut Scratch,
    out: &mut ChangesBuf,
) -> Result<(), Memory>
    ensures { OnOk result (out.new ≡ out.old ++ listed (normal_form marks.now (Update flag old.now new.now))) }
{
    let olds = &mut scratch.old_fields;
    let news = &mut scratch.new_fields;
    olds.clear();
    news.clear();
    let left = put_normal_columns(marks, old, new, olds, news)?;
    if !left {
        return Ok(());
    }
    scratch.push_update(flag, out)
}

#[inline(always)]
#[tactic(auto, unfolding(cs_change::specs::Then::is_idle, cs_change::specs::Columns::holds))]
fn is_normal_column(in_key: bool, old: &Column<'_>, new: &Column<'_>) -> bool
    ensures { result ≡ is_normal_column in_key old.now new.now }
{
    match (Cell::of_column(new), Cell::of_column(old)) {
        (None, None) => true,
        (None, Some(_)) => in_key,
        (Some(_), None) => !in_key,
        (Some(value), Some(before)) => !in_key && !before.same(&value),
    }
}

/// Whether the columns are those of an update in normal form.
#[inline(never)]
#[tactic(auto, unfolding(crate::specs::keyed::Steps::Forms::normal_columns, cs_change::specs::Columns::is_blank))]
fn are_normal(marks: &[bool], old: &Record<'_>, new: &Record<'_>) -> bool
    ensures { result ≡ normal_columns marks.now old.now new.now && not (is_blank new.now) }
{
    let mut left = false;
    let mut marks = marks;
    let mut old = old.again();
    let mut new = new.again();
    while let (Some((mark, ms)), Some((o, os)), Some((n, ns))) = (
        marks.split_first(),
        old.split_first(),
        new.split_first(),
    ) {
        if !is_normal_column(*mark, &o, &n) {
            return false;
        }
        left = left || Cell::of_column(&n).is_some();
        marks = ms;
        old = os;
        new = ns;
    }
    match (marks.split_first(), old.split_first(), new.split_first()) {
        (None, None, None) => left,
        _ => false,
    }
}

/// Whether the change is found to be one that its normal form leaves as it is.
#[inline(always)]
#[tactic(auto, unfolding(crate::specs::keyed::NormalForm::normal_form))]
pub fn is_normal(marks: &[bool], change: &Change<'_>) -> bool
    ensures { IsTrue result → normal_form marks.now change.now ≡ Some change.now }
{
    match change {
        Change::Update {
            old_fields,
            new_fields,
            ..
        } => are_normal(marks, old_fields, new_fields),
        _ => true,
    }
}

/// Whether each change is one that its normal form leaves as it is.
pub fn all_normal(marks: &[bool], changes: &[Change<'_>]) -> bool
    ensures { IsTrue result → AreForms marks.now changes.now }
{
    for change in changes {
        if !is_normal(marks, change) {
            return false;
        }
    }
    true
}

/// Appends the normal form of the change, made anew, if one is left.
#[inline(always)]
#[tactic(auto, unfolding(crate::specs::keyed::NormalForm::normal_form))]
fn push_made(
    marks: &[bool],
    change: &Change<'_>,
    scratch: &mut Scratch,
    out: &mut ChangesBuf,
) -> Result<(), Memory>
    ensures { OnOk result (out.new ≡ out.old ++ listed (normal_form marks.now change.now)) }
{
    match change {
        Change::Update {
            flag,
            old_fields,
            new_fields,
        } => push_update(marks, *flag, old_fields, new_fields, scratch, out),
        other => out.push(other),
    }
}

/// Appends the change in normal form, if one is left. One that is in normal form already is copied as it stands.
#[inline(always)]
pub(crate) fn push_form(
    marks: &[bool],
    change: &Change<'_>,
    scratch: &mut Scratch,
    out: &mut ChangesBuf,
) -> Result<(), Memory>
    ensures { OnOk result (out.new ≡ out.old ++ listed (normal_form marks.now change.now)) }
{
    if is_normal(marks, change) {
        return out.push(change);
    }
    push_made(marks, change, scratch, out)
}

/// The normal form of a change, if one is left. It is the change itself, in the same bytes, where that is in normal form
/// already. Else it is made in the room, in place of what is there.
#[inline(always)]
pub fn lend_form<'a>(
    marks: &[bool],
    change: Change<'a>,
    scratch: &mut Scratch,
    room: &'a mut ChangesBuf,
) -> Result<Option<Change<'a>>, Memory>
    ensures { IfOk result (λ form. form ≡ normal_form marks.now change.entry) }
{
    if is_normal(marks, &change) {
        return Ok(Some(change));
    }
    room.clear();
    push_made(marks, &change, scratch, room)?;
    Ok(room.get(0))
}
