//! The hub over any store: an append-only log of accepted pushes, the rows that the log makes, and the answers to requests. `Hub::open`
//! opens a store as a hub's. `Hub::push` gives exactly the definition's answer to a push by the log that the store shows. `Hub::serve`
//! gives the answer to the bytes of a request (`specs/Serves.antt`). Both judge, and append where that is to be. A failed device is told
//! by a code of its own, want of memory changes nothing. `laws` says that there is one answer to each request, and that there is one at
//! all. It says that lines answered over a store in memory are those of the log alone. `judgement` judges a push, or new columns of a
//! table, and `appending` appends the entry. `catching` takes entries together for a replica that was away. `log_store` says what a store
//! shows of a hub, `log_opening` and `log_reading` open and read that. The crate stands on consolidation (`cs_group`), on tables that get
//! more columns (`cs_widening`, `cs_padding`) and on requests and answers as bytes (`cs_wire`). Its tests stand in `cs_world_tests`.
//! What names no section of SQLite's documentation is profile of this project.
#![tactic(auto)]

pub mod appending;
pub mod catching;
mod fitting;
mod follow_fault;
mod hub;
mod judged;
pub mod judgement;
mod judging;
pub mod laws;
pub mod log_opening;
pub mod log_reading;
pub mod log_store;
mod refusal;
mod serve;
mod serving;

pub use follow_fault::FollowFault;
pub use hub::Hub;
pub use judged::Judged;
