//! The tools of the program `sync`: changesets and rebase blobs as lines of hex, taken together, rebased or shown.
//!
//! It stands on `cs_lines` for the lines and `hex` for their bytes, on `cs_group` for changesets as one and on `cs_rebaser` for rebased
//! ones. `cs_column_bytes` keeps the column bytes that came in, and `cs_text` has what is shown. `run_tool` promises for each tool which
//! text is written (`specs/Endings.antt`, `Owes`). Where none is, it promises which fault of the lines is the reason (`Refuses`): the first
//! that is judged. `laws` say that an input has one text or one such fault. `show_file` and `combine_files` promise the same of files,
//! which hold changesets (`cs_feed`) and blobs as their bytes (`specs/Files.antt`). Its tests stand in `cs_operations_tests`. What names no
//! section of SQLite's documentation is profile of this project.
#![tactic(auto)]

mod combine;
mod fault;
mod files;
mod input;
mod input_files;
pub mod laws;
mod output;
mod rebase;
mod show;
mod tool;
mod written;

pub use combine::combine_files;
pub use fault::ToolFault;
pub use input_files::InputFiles;
pub use show::{Shown, show_file};
pub use tool::{Form, Tool, run_tool};
