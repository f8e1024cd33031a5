//! Edits of places: at a table's number and the bytes of a key a body that is set, or none. `PlaceEdits` holds many of them in
//! pieces of memory, so that an edit takes none of its own; `LentEdits` lends some of them that follow one another, and `PlaceEdit`
//! one. Contracts see each as the list, or the one, of what is edited (`BodyEdit`). It stands on std alone.
//! Its tests stand in `cs_stores_tests`.

mod lent_edits;
mod pieces;
mod place_edit;
mod place_edits;

pub use lent_edits::LentEdits;
pub use place_edit::PlaceEdit;
pub use place_edits::PlaceEdits;
