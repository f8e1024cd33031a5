//! Changesets for SQLite's own `apply`. SQLite writes each key column's place in the PRIMARY KEY as its column byte, and
//! passes over a group whose bytes differ from the table's. The normal form writes 1. This crate spells a changeset in normal
//! form (`cs_normal`) with the column bytes of the headers that came in. Those are of changesets (`cs_change`) and of rebase
//! blobs (`cs_blob`). `encode` is exact; `laws` says that nothing but the column bytes changes, and that the reader takes it.
//! Its tests stand in `cs_changes_tests`.
#![tactic(auto)]

mod headers;
pub mod laws;
mod spelling;

pub use headers::{Headed, Header, has_one_order, put_headers};
pub use spelling::encode;
