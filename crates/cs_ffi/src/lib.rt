//! Changesets for other languages: a static library of C functions over bytes, declared in `cs_ffi.h`. It stands on
//! the codec (`cs_changeset`), on consolidation (`cs_group`), on rebasing (`cs_rebaser`) and on SQLite's column bytes
//! (`cs_column_bytes`), whose faults it tells by number. `cs_ffi_decode` reads a changeset and counts its changes. The
//! others write into the caller's memory. `cs_ffi_reencode` writes the spelling of what was read, and `cs_ffi_normalise`
//! its normal form by the tables that other headers declare. `cs_ffi_for_sqlite` writes that with the column bytes of
//! those headers, for SQLite's own `apply`. `cs_ffi_combine` writes several changesets as one, `cs_ffi_invert` the
//! inverse of one, and `cs_ffi_rebase` a local changeset over a rebase blob. Each tells the first fault, where it is one
//! of the bytes its offset too, and reads nothing but the bytes that it is handed.
//! Its tests are calls from C (`bench/check_ffi.sh`), also beside SQLite's own library (`bench/check_sqlite.sh`).
//! What names no section of SQLite's documentation is profile of this project.
#![tactic(auto)]

mod answer;
mod combined;
mod export;
pub mod laws;
mod normal;
mod reading;
mod rebased;
mod sqlite;

pub use answer::Answer;
pub use export::{
    cs_ffi_combine, cs_ffi_decode, cs_ffi_for_sqlite, cs_ffi_invert, cs_ffi_normalise,
    cs_ffi_rebase, cs_ffi_reencode,
};
