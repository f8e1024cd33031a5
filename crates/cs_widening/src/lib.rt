//! Tables that get more columns, behind those that they have, none of them in the key. Rows have NULL there. So have INSERTs and
//! DELETEs that were made before, and UPDATEs don't define them. It stands on changes (`cs_change`), their normal forms and states
//! (`cs_normal`), records (`cs_record`) and catalogs (`cs_value`). `widen` makes the catalog exactly where there can be one. `laws`
//! says that what was defined on a state is so with the new columns, and leaves the same with them. Its tests stand in
//! `cs_changes_tests`. All of it is profile of this project.
#![tactic(auto)]

pub mod laws;
mod widening;

pub use widening::widen;
