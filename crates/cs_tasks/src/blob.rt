//! The rebase blob that the answers to conflicts leave.

ghost use Rattle.std.specs.Prelude.{◌≡◌, ◌++◌, IfOk, OnOk};
ghost use Rattle.cs_record.specs.Spelling.{Extends};
ghost use Rattle.cs_change.specs.Action.{action};
ghost use Rattle.cs_change.specs.Spelling.{marks_of};
ghost use Rattle.cs_blob.specs.Spelling.{blob_entry_spelling};
ghost use Rattle.cs_tasks.specs.Blob.{entry_of, is_replace, keyed_new};

use cs_blob::{Entry, put_entry};
use cs_change::{Change, Group, put_header};
use cs_conflict::Resolution;
use cs_record::{Record, RecordBuf};
use cs_value::Memory;
use std::alloc::Global;
use std::marker::Model;

/// Appends the new record of an UPDATE, with the key filled in from the old one.
#[tactic(auto, unfolding(crate::specs::Blob::keyed_new))]
fn put_keyed_new(
    marks: &[u8],
    old: &Record<'_>,
    new: &Record<'_>,
    out: &mut RecordBuf,
) -> Result<(), Memory>
    ensures { OnOk result (out.new ≡ out.old ++ keyed_new (marks_of marks.now) old.now new.now) }
{
    let mut marks = marks;
    let mut old = old.again();
    let mut new = new.again();
    while let (Some((mark, more_marks)), Some((before, more_old)), Some((after, more_new))) = (
        marks.split_first(),
        old.split_first(),
        new.split_first(),
    ) {
        if *mark != 0 {
            out.push(&before)?;
        } else {
            out.push(&after)?;
        }
        marks = more_marks;
        old = more_old;
        new = more_new;
    }
    Ok(())
}

/// Whether the answer is REPLACE.
fn replaces(answer: Resolution) -> bool
    ensures { result ≡ is_replace answer }
{
    match answer {
        Resolution::Replace => true,
        _ => false,
    }
}

/// The entry of a change whose conflict was answered so. `made` is room for a record that is made.
fn entry_of<'a, 'c: 'a>(
    marks: &[u8],
    change: &Change<'c>,
    answer: Resolution,
    made: &'a mut RecordBuf,
) -> Result<Entry<'a>, Memory>
    ensures { IfOk result (λ entry. entry ≡ entry_of (marks_of marks.now) answer (action change.now)) }
{
    let replaced = replaces(answer);
    match change {
        Change::Insert { new_row, .. } => Ok(Entry {
            deleted: false,
            replaced,
            fields: Record::of_row(new_row),
        }),
        Change::Delete { old_row, .. } => Ok(Entry {
            deleted: true,
            replaced,
            fields: Record::of_row(old_row),
        }),
        Change::Update {
            old_fields,
            new_fields,
            ..
        } => {
            made.clear();
            put_keyed_new(marks, old_fields, new_fields, made)?;
            Ok(Entry {
                deleted: false,
                replaced,
                fields: made.as_record(),
            })
        }
    }
}

/// Appends the entry of a change whose conflict was answered so. `made` is room for a record that is made.
fn put_answered(
    marks: &[u8],
    change: &Change<'_>,
    answer: Resolution,
    made: &mut RecordBuf,
    out: &mut Vec<u8>,
) -> Result<(), Memory>
    ensures ok { OnOk result (out.new.items
        ≡ out.old.items ++ blob_entry_spelling (entry_of (marks_of marks.now) answer (action change.now))) }
    ensures kept { Extends out.old.items out.new.items }
{
    let entry = entry_of(marks, change, answer, made)?;
    put_entry(&entry, out)
}

/// The rebase blob of conflicts that are answered one after another, in the order of their changes. Contracts see its bytes, and
/// whether the header of the group at hand is among them. (SQLite's "Session Extension", rebasing.)
#[derive(Drop)]
pub struct BlobBuf {
    bytes: Vec<u8>,
    /// Whether the header of the group at hand is among the bytes.
    headed: bool,
    /// Room for the record of an UPDATE, whose memory is used again and again.
    made: RecordBuf,
}

impl Model for BlobBuf {
    ghost use Rattle.cs_tasks.specs.Blob.{BlobSoFar};

    ghost Value = { BlobSoFar };

    ghost view = { λ blob. record { bytes = blob.bytes.items; headed = blob.headed } };
}

impl BlobBuf {
    ghost use Rattle.std.specs.Prelude.{◌≡◌, ◌<◌, ◌++◌, ◌∷◌, [], true, false, List, ℕ, Option, Some, is_some, length, OnOk, OnErr};
    ghost use Rattle.std.specs.List.{list_any};
    ghost use Rattle.cs_conflict.specs.declared.conflict.Resolution.{Resolution as Answer};
    ghost use Rattle.cs_record.specs.Spelling.{Extends};
    ghost use Rattle.cs_tasks.specs.Blob.{answered_group};

    /// The blob where no conflict is answered. It takes no memory.
    pub fn new(alloc: Global) -> BlobBuf
        ensures bytes { result.bytes ≡ [] }
        ensures headed { result.headed ≡ false }
    {
        BlobBuf {
            bytes: Vec::new(alloc),
            headed: false,
            made: RecordBuf::new(alloc),
        }
    }

    /// The bytes.
    pub fn into_vec(self) -> Vec<u8>
        ensures { result.items ≡ self.bytes }
    {
        self.bytes
    }

    /// What follows is of another group, whose header comes before its first answer.
    pub fn begin_group(&mut self)
        ensures bytes { self.new.bytes ≡ self.old.bytes }
        ensures headed { self.new.headed ≡ false }
    {
        self.headed = false;
    }

    /// Appends the entry, and the group's header before it where that isn't there yet. An `Err` may leave a part of them there.
    fn put_parts(&mut self, group: &Group<'_>, at: usize, answer: Resolution) -> Result<(), Memory>
        requires { at < length group.now.changes }
        ensures ok { (front : List ℕ) → (given : List (Option Answer)) → length given ≡ at → list_any is_some given ≡ self.old.headed
            → self.old.bytes ≡ front ++ answered_group group.now given
            → OnOk result (self.new.bytes ≡ front ++ answered_group group.now (given ++ Some answer ∷ [])) }
        ensures kept { Extends self.old.bytes self.new.bytes }
        ensures headed { self.new.headed ≡ self.old.headed }
    {
        let marks = group.marks.as_slice();
        if !self.headed {
            put_header(marks, group.name.as_str(), &mut self.bytes)?;
        }
        let changes = group.changes.as_slice();
        put_answered(marks, &changes[at], answer, &mut self.made, &mut self.bytes)
    }

    /// Appends the entry of the change there of a group, whose conflict was answered so. Where no conflict of its changes was
    /// answered yet, the group's header comes before it. Its bytes are promised only where `begin_group` was called as the group
    /// began. An `Err` changes nothing.
    pub fn put(&mut self, group: &Group<'_>, at: usize, answer: Resolution) -> Result<(), Memory>
        requires { at < length group.now.changes }
        ensures ok { (front : List ℕ) → (given : List (Option Answer)) → length given ≡ at → list_any is_some given ≡ self.old.headed
            → self.old.bytes ≡ front ++ answered_group group.now given
            → OnOk result (self.new.bytes ≡ front ++ answered_group group.now (given ++ Some answer ∷ [])) }
        ensures headed { OnOk result (self.new.headed ≡ true) }
        ensures err { OnErr result (self.new ≡ self.old) }
    {
        let len = self.bytes.len();
        let put = self.put_parts(group, at, answer);
        if put.is_err() {
            self.bytes.truncate(len);
        } else {
            self.headed = true;
        }
        put
    }
}
