//! Opening a hub over a store. `open_log` opens any store. One that holds nothing is laid out, in one commit, and any other is only
//! read. Such a store is opened exactly where it is a hub's with these tables. That is, all that it holds is what its places say,
//! and its values are a hub's. Nothing is pending, and an entry stands at each version below their count. Where it isn't opened,
//! the fault says whether the store is another's or damaged. What it answers are the tables that the log has at each version. It
//! stands on what stores show of a hub (`log_store`) and on what opening a replica looks at (`cs_opening`). `laws` says that what a
//! store held has one opening or one fault, and that a store that shows a log is opened.
//! Its tests stand in `cs_world_tests`.

mod fresh;
mod judging;
pub mod laws;
mod opening;
mod owning;
mod widens;

pub use opening::open_log;
