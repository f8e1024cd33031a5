//! What one commit writes.

use crate::MetaName;
use crate::edits::PlaceEdits;

/// A value that is set, or with no value removed.
#[derive(Debug, Drop)]
pub struct MetaEdit {
    /// Which value.
    pub name: MetaName,
    /// Its bytes. None removes the value, if there is one.
    pub value: Option<Vec<u8>>,
}

/// An entry of the log, in the parts that a file has as columns.
#[derive(Debug, Drop)]
pub struct StoredEntry {
    /// The id of the replica whose push it is.
    pub origin: u32,
    /// The number of that push.
    pub number: u64,
    /// The bytes of the entry's body.
    pub body: Vec<u8>,
}

/// What one commit writes. A place or a name that stands in several edits gets what the last of them says.
#[derive(Debug, Drop)]
pub struct Batch {
    /// Edits of rows, in order. Each body is a row.
    pub rows: PlaceEdits,
    /// Edits of pending changes, in order. Each body is a change of the row at its place.
    pub pending: PlaceEdits,
    /// Edits of values, in order.
    pub meta: Vec<MetaEdit>,
    /// A new entry of the log, if there is one. Its version is how many entries there were.
    pub log: Option<StoredEntry>,
}
