//! What is printed of a replica. `ToldText` and `FaultText` say what became of an answer of the hub. `edit_fault_name` and its like say why
//! an edit, a push or a reading of its store was refused. `PlaceText` and `ReplicaText` say where it stands, `RowText` and `RowsText` its rows,
//! `ClashText` a clash that is shown. The definitions of `Told`, `Dump` and `Clash` state each text exactly. Each type here promises its own:
//! what `{}` writes of it is that text and nothing else. The names of tables
//! and the values are those of `cs_text`; the text is a format of this project, described in docs/FORMATS.md. Its tests are those of
//! `cs_world_tests`.

mod clash;
mod faults;
mod rows;
mod told;

pub use clash::ClashText;
pub use faults::{FaultText, edit_fault_name, open_fault_name, push_fault_name};
pub use rows::{PlaceText, ReplicaText, RowText, RowsText};
pub use told::ToldText;
