//! The first bytes of groups and of changes. (SQLite's "changeset format".)

/// The byte that begins a group.
pub const TABLE: u8 = b'T';

/// The byte that begins a group of a patchset.
pub const PATCHSET: u8 = b'P';

/// The byte of an INSERT.
pub const INSERT: u8 = 18;

/// The byte of a DELETE.
pub const DELETE: u8 = 9;

/// The byte of an UPDATE.
pub const UPDATE: u8 = 23;
