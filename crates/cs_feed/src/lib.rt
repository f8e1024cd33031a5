//! Changesets that come in pieces. A `Feed` takes the bytes of a changeset in pieces of any length, and tells a fault as soon as the bytes
//! have it. At `finish` it gives a `ChangesetBuf`, a changeset that owns its bytes, or tells what `cs_changeset::read` tells of all bytes
//! together. It is written so that what was read is not read again, and memory is taken for bytes that came alone. No clause speaks of
//! that. `read_pieces` carries the theorem of a whole run; `read_from` does the same over a reader, whose own buffer is what is pushed.
//! The crate stands on the readers of headers, flags and columns of `cs_changeset`. Its tests stand in `cs_changes_tests`.
//! What names no section of SQLite's documentation is profile of this project.
#![tactic(auto)]

mod changeset_buf;
mod columns;
mod feed;
mod pieces;
mod scanning;
mod stage;
mod stream;

pub use changeset_buf::ChangesetBuf;
pub use feed::Feed;
pub use pieces::read_pieces;
pub use stream::{PieceInput, StreamFault, read_from};
