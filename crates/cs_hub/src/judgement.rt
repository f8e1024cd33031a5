//! What a hub makes of a push, over its store: `judge_at` gives exactly the definition's answer (`specs/judgement/Pushes.antt`) by the
//! log that the store shows. The first case that fits holds: no change, a base above the newest version, or one below it. Below, it is
//! the same push again or another one. The next cases are a full log, and a change that isn't defined on the tables. Else the push is to
//! be appended, by a batch that comes with it. The store is only read. `judge_widen` judges a table's new columns so
//! (`specs/judgement/Widens.antt`). `laws` says that there is one answer to each. It stands on appending (`appending`) and on reading the
//! log (`log_reading`). Its tests stand in `cs_world_tests`.

mod fault;
mod judging;
pub mod laws;
mod push;
mod widen;

pub use fault::HubFault;
pub use judging::judge_at;
pub use push::{Judgement, Pushed};
pub use widen::{WIDEN_ORIGIN, judge_widen};
