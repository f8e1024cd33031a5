//! Requests as lines of hex, answered line by line, over any reader, writer and server.
//!
//! It stands on `hex` and on std's readers and writers, and knows nothing of what a request means.
//! `serve_lines` promises that each line of the input gets its answer, in order, as one line of lower case hex. Where
//! the run stops early, it says which lines were answered and which side failed. `read_line` takes exactly one line off
//! a reader, also where memory runs out in the middle of it, and `read_ended_line` one that a line feed ends.
//! `write_hex_line` writes bytes as one line without taking memory, and holds nothing of it back, and `write_text` a text.
//! `LineInput` and `LineOutput` say what a reader and a writer owe for that.
//! Its tests stand in `cs_bytes_tests`.
//! What names no section of SQLite's documentation is profile of this project.
#![tactic(auto)]

pub mod laws;
mod line;
mod reply;
mod serve;
mod streams;

pub use line::{LineRead, read_ended_line, read_line};
pub use reply::write_hex_line;
pub use serve::{ASKS, Serve, Stop, serve_lines};
use std::alloc::AllocError;
pub use streams::{LineInput, LineOutput, Skip, write_text, write_whole};

/// Memory was refused.
pub type Memory = AllocError;
