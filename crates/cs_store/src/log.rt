//! The log that a hub keeps and a replica follows: its entries, and the tables at each version. An entry is the push of a
//! replica, with the changeset that it made, or widens a table. `specs/log/Log.antt` says what a log is
//! and which tables and catalog it has at a version; whoever stands above speaks of them by those names. `put_body` appends
//! what an entry does as it is stored, and `read_body` reads exactly that. `laws` says that a longer log has the same tables at
//! the versions that it had, and that there is one state a version. It says too that the entries between two versions lead from
//! the one's tables to the other's. The module stands on changesets (`cs_changeset`), their normal forms (`cs_normal`,
//! `cs_normalising`) and the order of keys (`cs_order`), and on no store.
//! Its tests stand in `cs_changes_tests`.

mod body;
mod entry;
mod fault;
mod stored;

pub use body::{Body, put_body, read_body, read_changes};
pub use entry::{LogEntry, MAX_CHANGESET, MAX_ENTRIES};
pub use fault::BodyFault;
pub(crate) use stored::is_plainly_stored;

pub mod laws;
