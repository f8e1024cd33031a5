//! Batches that are made of parts.

use cs_store::edits::{LentEdits, PlaceEdit, PlaceEdits};
use cs_store::{Batch, MetaEdit, MetaName, RowStore, StoreFault, StoredEntry};
use std::alloc::{AllocError, Global};

/// A table's number, a key, and the body that is set there, or none.
pub type Edit<'a> = (u32, &'a [u8], Option<&'a [u8]>);

/// A name, and the value that is set there, or none.
pub type Named<'a> = (MetaName, Option<&'a [u8]>);

/// An entry's origin, its number, and its body.
pub type Entry<'a> = (u32, u64, &'a [u8]);

/// What a batch writes: edits of rows, of pending changes and of values, and an entry or none.
pub type Spelled<'a> = (
    &'a [Edit<'a>],
    &'a [Edit<'a>],
    &'a [Named<'a>],
    Option<Entry<'a>>,
);

fn optional(alloc: Global, bytes: Option<&[u8]>) -> Result<Option<Vec<u8>>, AllocError> {
    match bytes {
        Some(bytes) => Ok(Some(Vec::from_slice(alloc, bytes)?)),
        None => Ok(None),
    }
}

/// Puts edits of rows or of pending changes behind those that are there.
pub fn put_edits(edits: &[Edit<'_>], made: &mut PlaceEdits) -> Result<(), AllocError> {
    for edit in edits {
        made.push(&PlaceEdit::new(edit.0, edit.1, edit.2))?;
    }
    Ok(())
}

fn is_edit(edit: &PlaceEdit<'_>, spelled: &Edit<'_>) -> bool {
    edit.table() == spelled.0 && edit.key() == spelled.1 && edit.body() == spelled.2
}

/// Whether these are the edits that are lent.
pub fn are_edits(lent: &LentEdits<'_>, spelled: &[Edit<'_>]) -> bool {
    if lent.len() != spelled.len() {
        return false;
    }
    for at in 0..spelled.len() {
        if !is_edit(&lent.get(at), &spelled[at]) {
            return false;
        }
    }
    true
}

/// Puts edits of values behind those that are there.
pub fn put_named(
    alloc: Global,
    named: &[Named<'_>],
    made: &mut Vec<MetaEdit>,
) -> Result<(), AllocError> {
    for edit in named {
        made.push(MetaEdit {
            name: edit.0,
            value: optional(alloc, edit.1)?,
        })?;
    }
    Ok(())
}

/// The entry of these parts, if there are some.
pub fn entry_of(
    alloc: Global,
    entry: Option<Entry<'_>>,
) -> Result<Option<StoredEntry>, AllocError> {
    let Some((origin, number, body)) = entry else {
        return Ok(None);
    };
    Ok(Some(StoredEntry {
        origin,
        number,
        body: Vec::from_slice(alloc, body)?,
    }))
}

/// A batch that writes nothing.
pub fn nothing(alloc: Global) -> Batch {
    Batch {
        rows: PlaceEdits::new(alloc),
        pending: PlaceEdits::new(alloc),
        meta: Vec::new(alloc),
        log: None,
    }
}

fn put_batch(alloc: Global, spelled: &Spelled<'_>, made: &mut Batch) -> Result<(), AllocError> {
    put_edits(spelled.0, &mut made.rows)?;
    put_edits(spelled.1, &mut made.pending)?;
    put_named(alloc, spelled.2, &mut made.meta)?;
    made.log = entry_of(alloc, spelled.3)?;
    Ok(())
}

/// The batch of these parts.
pub fn batch(alloc: Global, spelled: &Spelled<'_>) -> Result<Batch, AllocError> {
    let mut made = nothing(alloc);
    put_batch(alloc, spelled, &mut made)?;
    Ok(made)
}

/// Commits the batch of these parts.
pub fn commit_of<S: RowStore>(
    alloc: Global,
    store: &mut S,
    spelled: &Spelled<'_>,
) -> Result<(), StoreFault> {
    let batch = batch(alloc, spelled)?;
    store.commit(&batch)
}
