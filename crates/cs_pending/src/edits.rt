//! Edits by the name of a table, as an application asks for them.

ghost use Rattle.std.specs.Prelude.{◌≡◌, ◌⊎◌, ◌&&◌, ℕ, not, Err, IfOk, IfErr, OnOk};
ghost use Rattle.std.specs.FinMap.{len};
ghost use Rattle.std.specs.List.{AllByRecursion, list_all};
ghost use Rattle.cs_value.specs.Catalog.{is_set};
ghost use Rattle.cs_value.specs.declared.value.Field.TheVariants.{Is};
ghost use Rattle.cs_record.specs.Spelling.{Fits, row_bytes};
ghost use Rattle.cs_change.specs.Columns.{is_defined};
ghost use Rattle.cs_pending.specs.Calls.{ReadsStore, WritesStore};
ghost use Rattle.cs_pending.specs.Edits.{AskDelete, AskInsert, AskUpdate, IsChangedBy, IsOfStore, Leads, edit, key_width as width_of, keeps_key};
ghost use Rattle.cs_pending.specs.EditLists.{AreEdited, IsEditsFault, asked_of_edit, table_of_edit};
ghost use Rattle.cs_pending.specs.Seeking.{IsRefused, IsSought, asked_of};
ghost use Rattle.cs_pending.specs.Settling.{IsStaged, IsWithin, Settles, SettlesSome};
ghost use Rattle.cs_pending.specs.Shows.{ShowsRows, ShowsSome};
ghost use Rattle.cs_pending.specs.View.{View};
ghost use Rattle.cs_pending.specs.declared.fault.EditFault.TheVariants.{Device};
ghost use Rattle.cs_pending.specs.declared.fault.EditsFault.TheVariants as several;

use crate::editing::{stage_at, write};
use crate::fault::{EditFault, EditsFault};
use crate::places::{record_with_room, row_with_room};
use crate::placing::RowPlace;
use crate::settling::Settling;
use crate::wanted::Wanted;
use cs_record::{RecordBuf, RowBuf};
use cs_store::RowStore;
use cs_value::{Catalog, Edit, Field, Key, Memory, Row, TableDef, Value};
use std::alloc::Global;

/// At most how many bytes a value takes. It says how much room to take, and is no part of a result.
fn size_of_value(value: &Value) -> usize {
    match value {
        Value::Text(text) => text.as_str().len().saturating_add(10),
        Value::Blob(blob) => blob.as_slice().len().saturating_add(10),
        _ => 9,
    }
}

/// At most how many bytes values take.
fn size_of_values(values: &[Value]) -> usize {
    let mut size = 0usize;
    for value in values {
        size = size.saturating_add(size_of_value(value));
    }
    size
}

/// At most how many bytes fields take.
fn size_of_fields(fields: &[Field]) -> usize {
    let mut size = 0usize;
    for field in fields {
        size = size.saturating_add(match field {
            Field::Undefined => 1,
            Field::Is(value) => size_of_value(value),
        });
    }
    size
}

/// Values as a row that owns its bytes.
fn own_row(alloc: Global, values: &[Value]) -> Result<RowBuf, Memory>
    ensures row { IfOk result (λ row. row ≡ values.now) }
    ensures fits { IfOk result (λ row. AllByRecursion (λ v. Fits (Is v)) row) }
{
    let mut row = row_with_room(alloc, size_of_values(values))?;
    for value in values {
        row.push_value(value)?;
    }
    // What owns its bytes is in range.
    let _bytes = row.as_row().bytes();
    Ok(row)
}

/// Fields as a record that owns its bytes.
fn own_fields(alloc: Global, fields: &[Field]) -> Result<RecordBuf, Memory>
    ensures fields { IfOk result (λ made. made ≡ fields.now) }
    ensures fits { IfOk result (λ made. AllByRecursion Fits made) }
{
    let mut made = record_with_room(alloc, size_of_fields(fields))?;
    for field in fields {
        made.push_field(field)?;
    }
    // What owns its bytes is in range.
    let _bytes = made.as_record().bytes();
    Ok(made)
}

/// The bytes of values, one behind another.
fn values_body(alloc: Global, values: &[Value]) -> Result<Vec<u8>, Memory>
    ensures { IfOk result (λ bytes. bytes.items ≡ row_bytes values.now) }
{
    let row = own_row(alloc, values)?;
    Ok(row.into_vec())
}

/// How many of a table's columns are columns of its key.
#[tactic(auto, unfolding(crate::specs::Edits::key_width))]
fn key_width(marks: &[bool]) -> usize
    ensures { result ≡ width_of marks.now }
{
    let mut rest = marks;
    let mut width = 0;
    while let Some((mark, more)) = rest.split_first() {
        if *mark {
            width += 1;
        }
        rest = more;
    }
    width
}

/// Whether no value is NULL.
fn are_set(values: &[Value]) -> bool
    ensures { result ≡ list_all is_set values.now }
{
    let mut rest = values;
    while let Some((value, more)) = rest.split_first() {
        if let Value::Null = value {
            return false;
        }
        rest = more;
    }
    true
}

/// Whether a field may stand at a column with this mark.
fn keeps_column(mark: bool, field: &Field) -> bool
    ensures { result ≡ not (mark && is_defined field.now) }
{
    match field {
        Field::Undefined => true,
        Field::Is(_) => !mark,
    }
}

/// Whether no field at a key column is defined.
#[tactic(auto, unfolding(crate::specs::Edits::keeps_key))]
fn are_kept(marks: &[bool], fields: &[Field]) -> bool
    ensures { result ≡ keeps_key marks.now fields.now }
{
    let mut rest = marks;
    let mut behind = fields;
    while let (Some((mark, more)), Some((field, others))) = (
        rest.split_first(),
        behind.split_first(),
    ) {
        if !keeps_column(*mark, field) {
            return false;
        }
        rest = more;
        behind = others;
    }
    true
}

/// An edit of a row of a table, lent.
#[derive(Clone, Copy)]
pub enum RowEdit<'a> {
    /// Puts in a row whose key stands nowhere yet.
    Insert(&'a Row),
    /// Puts fields into the row with a key. A field that is undefined stays as it is.
    Update(&'a Key, &'a [Field]),
    /// Takes away the row with a key.
    Delete(&'a Key),
}

impl<'a> RowEdit<'a> {
    /// The name of an edit's table, and the edit, lent.
    pub fn of(edit: &'a Edit) -> (&'a str, RowEdit<'a>)
        ensures { (result.0.now ≡ table_of_edit edit.now) × (asked_of result.1 ≡ asked_of_edit edit.now) }
    {
        match edit {
            Edit::Insert { table, row } => (table.as_str(), RowEdit::Insert(row)),
            Edit::Update { table, key, fields } => (
                table.as_str(),
                RowEdit::Update(key, fields.as_slice()),
            ),
            Edit::Delete { table, key } => (table.as_str(), RowEdit::Delete(key)),
        }
    }
}

/// The key of an edit, in its bytes, and what is wanted there.
type Sought = (Vec<u8>, Wanted);

/// Where an insert is in a table, and what it wants there.
fn seek_insert(alloc: Global, table: &TableDef, row: &Row) -> Result<Sought, EditFault>
    ensures sought { IfOk result (IsSought table.now (AskInsert row.now)) }
    ensures refused { IfErr result (IsRefused table.now (AskInsert row.now)) }
{
    if row.as_slice().len() != table.key_marks.as_slice().len() {
        return Err(EditFault::Width);
    }
    let Some(key) = table.key_of(alloc, row)? else {
        return Err(EditFault::NullKey);
    };
    let key = values_body(alloc, key.as_slice())?;
    let row = own_row(alloc, row.as_slice())?;
    Ok((key, Wanted::Insert(row)))
}

/// The same of an update.
fn seek_update(
    alloc: Global,
    table: &TableDef,
    key: &Key,
    fields: &[Field],
) -> Result<Sought, EditFault>
    ensures sought { IfOk result (IsSought table.now (AskUpdate key.now fields.now)) }
    ensures refused { IfErr result (IsRefused table.now (AskUpdate key.now fields.now)) }
{
    let marks = table.key_marks.as_slice();
    if key.as_slice().len() != key_width(marks) || fields.len() != marks.len() {
        return Err(EditFault::Width);
    }
    if !are_set(key.as_slice()) {
        return Err(EditFault::NullKey);
    }
    if !are_kept(marks, fields) {
        return Err(EditFault::KeyColumn);
    }
    let key = values_body(alloc, key.as_slice())?;
    let fields = own_fields(alloc, fields)?;
    Ok((key, Wanted::Update(fields)))
}

/// The same of a delete.
fn seek_delete(alloc: Global, table: &TableDef, key: &Key) -> Result<Sought, EditFault>
    ensures sought { IfOk result (IsSought table.now (AskDelete key.now)) }
    ensures refused { IfErr result (IsRefused table.now (AskDelete key.now)) }
{
    if key.as_slice().len() != key_width(table.key_marks.as_slice()) {
        return Err(EditFault::Width);
    }
    if !are_set(key.as_slice()) {
        return Err(EditFault::NullKey);
    }
    let key = values_body(alloc, key.as_slice())?;
    Ok((key, Wanted::Delete))
}

/// Where an edit is in a table, and what it wants there.
fn seek(alloc: Global, table: &TableDef, edit: &RowEdit<'_>) -> Result<Sought, EditFault>
    ensures sought { IfOk result (IsSought table.now (asked_of edit.now)) }
    ensures refused { IfErr result (IsRefused table.now (asked_of edit.now)) }
{
    match edit {
        RowEdit::Insert(row) => seek_insert(alloc, table, row),
        RowEdit::Update(key, fields) => seek_update(alloc, table, key, fields),
        RowEdit::Delete(key) => seek_delete(alloc, table, key),
    }
}

/// Stages an edit in the table with a name, behind others. After an `Err` a part of it may be settled.
fn stage<S: RowStore>(
    alloc: Global,
    store: &mut S,
    catalog: &Catalog,
    settling: &mut Settling,
    name: &str,
    row_edit: &RowEdit<'_>,
) -> Result<(), EditFault>
    ensures reads { ReadsStore S.RowStore Device
        (SettlesSome catalog.now (S.contents store.old) settling.old) store.old store.new result }
    ensures within { IsWithin catalog.now settling.old → OnOk result (IsWithin catalog.now settling.new) }
    ensures staged { S.honest store.new → (begun : ℕ) (view : View) → Settles catalog.now (S.contents store.old) begun settling.old view
        → OnOk result (IsStaged catalog.now (S.contents store.old) begun (edit catalog.now name.now (asked_of row_edit.now)) view settling.new) }
    ensures refused { S.honest store.new → (begun : ℕ) (view : View) → Settles catalog.now (S.contents store.old) begun settling.old view
        → IfErr result (λ fault. IsOfStore fault ⊎ (edit catalog.now name.now (asked_of row_edit.now) view ≡ Err fault)) }
{
    cs_value::laws::catalogs();
    let Some(at) = catalog.find(name) else {
        return Err(EditFault::NoTable);
    };
    let table = &catalog.tables()[at];
    let (key, wanted) = match seek(alloc, table, row_edit) {
        Ok(sought) => sought,
        Err(fault) => return Err(fault),
    };
    let place = RowPlace {
        table,
        number: at as u32,
        key: key.as_slice(),
    };
    stage_at(alloc, store, catalog, settling, &place, &wanted)
}

/// Edits a row of the table with a name, where so many changes are pending. One row and one pending change are written, in one
/// commit. Returns how many changes are pending then. An edit that changes nothing writes nothing. (What a session would record, by
/// SQLite's "Session Extension".)
///
/// # Errors
///
/// The first fault that holds: `NoTable`, `Width` (of a row, a key or fields), `NullKey`, `KeyColumn`, `Exists`, `Missing`; `Memory` and `Device`.
pub fn edit_row<S: RowStore>(
    alloc: Global,
    store: &mut S,
    catalog: &Catalog,
    name: &str,
    row_edit: &RowEdit<'_>,
    pending: u64,
) -> Result<u64, EditFault>
    // The edit is made, in one commit; at `Err` nothing has changed.
    ensures writes { WritesStore S.RowStore Device
        (ShowsSome catalog.now (S.contents store.old))
        (IsChangedBy catalog.now (Leads (edit catalog.now name.now (asked_of row_edit.now))) (S.contents store.old)) store.old store.new result }

    // What is told is the fault of the edit, or one of the store.
    ensures refused { S.honest store.new → (view : View) → ShowsRows catalog.now (S.contents store.old) view
        → IfErr result (λ fault. IsOfStore fault ⊎ (edit catalog.now name.now (asked_of row_edit.now) view ≡ Err fault)) }

    // Where the count was right, it is right again.
    ensures counted { S.honest store.new → ShowsSome catalog.now (S.contents store.old)
        → pending ≡ len (S.contents store.old).pending → IfOk result (λ count. count ≡ len (S.contents store.new).pending) }
{
    let mut settling = Settling::new(alloc, pending);
    match stage(alloc, store, catalog, &mut settling, name, row_edit) {
        Ok(()) => {}
        Err(fault) => return Err(fault),
    }
    match write(alloc, store, catalog, settling) {
        Ok(count) => Ok(count),
        Err(fault) => Err(EditFault::from(fault)),
    }
}

/// Makes edits one behind another, all or none, where so many changes are pending: what they leave together is written in one commit.
/// Returns how many changes are pending then. Each edit is looked up among those before it, so a list of n takes time by n squared.
///
/// # Errors
///
/// `Refused` at the first edit that is refused behind those before it; `Memory` and `Device`. Nothing has changed then.
pub fn edit_rows<S: RowStore>(
    alloc: Global,
    store: &mut S,
    catalog: &Catalog,
    edits: &[Edit],
    pending: u64,
) -> Result<u64, EditsFault>
    // All are made, in one commit; at `Err` nothing has changed.
    ensures writes { WritesStore S.RowStore several.Device
        (ShowsSome catalog.now (S.contents store.old))
        (IsChangedBy catalog.now (AreEdited catalog.now edits.now) (S.contents store.old)) store.old store.new result }

    // What is told is the fault of the first that is refused, or one of the store.
    ensures refused { S.honest store.new → (view : View) → ShowsRows catalog.now (S.contents store.old) view
        → IfErr result (IsEditsFault catalog.now edits.now view) }

    // Where the count was right, it is right again.
    ensures counted { S.honest store.new → ShowsSome catalog.now (S.contents store.old)
        → pending ≡ len (S.contents store.old).pending → IfOk result (λ count. count ≡ len (S.contents store.new).pending) }
{
    let mut settling = Settling::new(alloc, pending);
    for at in 0..edits.len() {
        let (name, row_edit) = RowEdit::of(&edits[at]);
        match stage(alloc, store, catalog, &mut settling, name, &row_edit) {
            Ok(()) => {}
            Err(fault) => return Err(EditsFault::of_edit(at, fault)),
        }
    }
    match write(alloc, store, catalog, settling) {
        Ok(count) => Ok(count),
        Err(fault) => Err(EditsFault::from(fault)),
    }
}
