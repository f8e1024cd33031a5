//! What is pending, as the changeset of a push: `gather` lists the pending changes of a store table by table, and gives them as
//! one changeset in normal form. Else it tells that nothing is pending, or that the changeset has more bytes than a push may
//! have. The module stands on edits and pending changes (`cs_pending`), and on what an entry of the log is stored as
//! (`cs_store::log`). `laws` says that there is one changeset of what is pending.
//! Its tests stand in `cs_stores_tests`.

mod gathering;
pub mod laws;
mod putting;

pub use gathering::{Outgoing, gather};
