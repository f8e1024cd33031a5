//! A hub over any store, served over lines: `serve_on` opens it, answers each line of an input by a line of lower case hex, and
//! gives the store back. It stands on `cs_hub` for the answers and on `cs_lines` for the lines, and adds what is to be said of
//! both together (`specs/hub/Endings.antt`). Whatever ended it, that is which lines were answered, by which hub, what is written,
//! and what the store holds then.
//! The program's tests are its own: `bench/check_sessions.sh` and `bench/check_files.sh`.

mod fault;
mod serving;

pub use fault::ServingFault;
pub use serving::serve_on;
