//! A replica and a hub for programs in other languages: a static library of two C functions over the bytes of a file, declared in
//! `cs_embed.h`. The bytes come in and go out, so the library opens nothing itself. They are the file of `sync node FILE` and of
//! `sync hub --file FILE`, a database that any SQLite tool opens. `cs_embed_node` does what lines ask of the replica in the file,
//! and `cs_embed_hub` answers requests by the hub in it. Either all is done and handed over, or nothing is and it is told why.
//! The crate stands on `cs_node_lines` for the lines, on `cs_sql` for the store, and on the files in memory of `sqlite_disk`.
//! Its tests are calls from C and from Python (`bench/check_embed.sh`).
//! What names no section of SQLite's documentation is profile of this project.
#![tactic(auto)]

mod answer;
mod export;
mod file;
mod handing;
mod hub;
mod node;
mod tables;
mod watched;

pub use answer::Answer;
pub use export::{cs_embed_hub, cs_embed_node};
