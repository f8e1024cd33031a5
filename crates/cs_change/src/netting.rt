//! Two changes of one key taken together, and the net change of two rows, in the bytes that spell them (SQLite's "Session Extension",
//! changegroup). It stands on changes (`cs_change`) and records (`cs_record`), and knows nothing of changesets, whose consolidation
//! (`cs_group`) and rebase (`cs_rebaser`) stand on it. `then_into` takes two changes together by SQLite's rules for a changegroup; `net`,
//! `net_change`, `net_into` and `push_net` are the one change from a row or none to another; `defined`, `keeps_value`, `overlaid` and
//! `make_inverse_columns` are about the columns of two records. What each result is, is a function of `cs_change`'s definitions, and of
//! its own of the flag (`with_flag`, `then_change` of its `specs/netting/Combine.antt`).
//! Its tests stand in `cs_operations_tests`.

mod record_columns;
mod two_changes;
mod two_rows;

pub use record_columns::{defined, keeps_value, make_inverse_columns, overlaid};
pub use two_changes::{push_net, then_into};
pub use two_rows::{NetChange, net, net_change, net_into};
