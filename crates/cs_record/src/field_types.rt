//! The first byte of a field, which tells its type. (SQLite's "changeset format", record format.)

/// An undefined field.
pub(crate) const UNDEFINED: u8 = 0;

/// An integer.
pub(crate) const INTEGER: u8 = 1;

/// A floating-point number, which this project's profile refuses.
pub(crate) const REAL: u8 = 2;

/// A text.
pub(crate) const TEXT: u8 = 3;

/// A blob.
pub(crate) const BLOB: u8 = 4;

/// NULL.
pub const NULL: u8 = 5;
