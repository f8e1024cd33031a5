//! Books: hubs that follow one row of cells (`cs_spine`), each owned by a thread with the pass by which it knows the entries. Books share
//! no lock: each has a store of its own. `Book::serve` answers the bytes of a request as the hub does (`cs_hub`), read on what the pass
//! knows as the call ends. So it is whatever other threads do between. A push is appended by setting a cell. `laws` says that there is
//! one answer to a request on one list of entries. It stands on the hub and on the row of cells. Its tests stand in `cs_spine_tests`.

mod book;
pub mod laws;
mod refusing;

pub use book::Book;
