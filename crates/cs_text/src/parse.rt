//! What words of a line spell: numbers, texts, values, fields, wishes and edits, as `cs_text` writes them. `Words` are the words of a line,
//! with one space between two. Each reader answers what its word spells, by a definition that computes it (`specs/`). So there is one
//! answer, or nothing where the word spells none. Want of memory alone is an error. `laws` says that what is written of a value is read as
//! that value. It stands on `cs_value`, `cs_conflict` and `cs_text`; its tests are those of `cs_world_tests`.

mod edits;
pub mod laws;
mod numbers;
mod texts;
mod values;
mod wishes;
mod words;

pub use edits::read_edit;
pub use numbers::{signed, small, unsigned};
pub use texts::{read_bytes, read_text, unescape};
pub use values::{read_field, read_value, read_values};
pub use wishes::read_wishes;
pub use words::{Words, is_word};
