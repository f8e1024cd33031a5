//! Appending an entry to a hub's log over its store. `try_entry` tries the entry's changeset on the rows, as SQLite applies one with a
//! handler that always aborts. An entry that widens a table gives each of its rows NULL in the new columns (`cs_padding`). It returns the
//! batch of the entry and of what it makes of the rows. `append_tried` commits that, and `append` does both. Where a change conflicts,
//! nothing is written, and the first one that does is told with the row that it met. `laws` says that there is one such conflict, and
//! none where the entry can be appended. It stands on what stores show of a hub (`log_store`) and on applying (`cs_apply`). Its tests
//! stand in `cs_world_tests`.

mod appending;
mod fault;
pub mod laws;

pub use appending::{append, append_tried, try_entry};
pub use fault::AppendFault;
