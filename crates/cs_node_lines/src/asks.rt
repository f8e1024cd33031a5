//! The lines by which a replica is worked, and what they ask. Edits, `push`, `resend`, `pull LIMIT`, `catch LIMIT` and
//! `answer HEX WISHES` work it. `dump`, `place`, `tables`, `rows T`, `row T KEYVALUES` and `pending` only look. It
//! stands on `cs_lines` for the lines of an input and on `cs_text::parse` for their words, and knows nothing of a replica. `read_ask` and
//! `read_look` promise what one line asks, by definitions that compute it (`specs/asks/Asked.antt`, `specs/asks/Looked.antt`). So there
//! is one answer. `read_asks` reads an input whole, or tells the first line that can't be read by its number.
//! Its tests stand in `cs_replica_tests`.

mod ask;
mod fault;
mod input;
mod look;
mod several;

pub use ask::{Ask, read_ask};
pub use fault::ReadFault;
pub use input::read_asks;
pub use look::{Look, read_look};
pub(crate) use several::read_several;
