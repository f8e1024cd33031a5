//! Requests and answers as bytes, for both sides of the wire: what a replica asks of a hub, and what the hub tells it.
//! `Request::decode` and `Answer::decode` read exactly what is spelled and tell each fault exactly where the bytes have it,
//! in no memory. A changeset and entries stay in the bytes that came, and `Entries::split_first` walks them. `Request::encode`,
//! `ShortAnswer::put`, `entries_head`, `put_entry` and `merged_head` write exactly the spelling. `laws` says that bytes are one
//! message or have one fault, and that there is one or the other. It says too that a front of a message is Truncated, and that
//! entries of a log are read as they were told. The crate stands on the log's entries (`cs_store::log`); its tests stand in
//! `cs_bytes_tests`.
//! What names no section of SQLite's documentation is profile of this project.
#![tactic(auto)]

mod answer;
mod changeset_bytes;
mod entries;
mod entry;
mod fault;
mod numbers;
mod push_head;
mod request;
mod short_answer;
mod writing;

pub use answer::Answer;
pub use changeset_bytes::ChangesetBytes;
pub use entries::Entries;
pub use entry::WireEntry;
pub use fault::WireFault;
pub use numbers::{split_u32, split_u64};
pub use push_head::PushHead;
pub use request::{Request, RequestBuf};
pub use short_answer::{SHORT, ShortAnswer};
pub use writing::{entries_head, merged_head, put_entry};

pub mod laws;
