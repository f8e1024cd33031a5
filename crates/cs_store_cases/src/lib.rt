//! What tests of stores share. `batch` makes batches of parts, and `image` is all that a store shows, as text. `shows_commits` and
//! `is_found` are cases of both, written by hand, with what is shown. It stands on `cs_store` alone, so that any store can be asked;
//! tests higher up take the catalog of its one table. No call promises more than to return: it is for tests alone, which see what comes
//! of it.
#![tactic(auto)]

mod commits;
mod held;
mod images;
mod parts;
mod table;

pub use commits::{
    FIRST_BATCH, FIRST_META, FIRST_PENDING, FIRST_SHOWN, LAST, NEXT_BATCH, NEXT_ROWS, NEXT_SHOWN,
    NOTHING_SHOWN, shows_commits,
};
pub use held::{HELD, Held, is_found, is_whole};
pub use images::{image, image_of, shows};
pub use parts::{
    Edit, Entry, Named, Spelled, are_edits, batch, commit_of, entry_of, nothing, put_edits,
    put_named,
};
pub use table::catalog;
