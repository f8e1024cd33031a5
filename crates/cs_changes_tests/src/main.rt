//! Tests of changes, by public calls: as values (`cs_change`), the readers of changesets and blobs (`cs_changeset`, `cs_blob`), and
//! changesets in pieces (`cs_feed`). They test normal forms too (`cs_normal::keyed`, `cs_normal`, `cs_normalising`), their columns beside
//! SQLite's (`cs_column_bytes`), tables that get more columns (`cs_widening`), and entries of a log (`cs_store::log`). What is read of
//! bytes and each of their faults, and what a normal form is, are rows of `bench/check_tools.sh`.
#![tactic(auto)]

#[cfg(test)]
mod change;
#[cfg(test)]
mod column_bytes;
#[cfg(test)]
mod feeding;
#[cfg(test)]
mod given;
#[cfg(test)]
mod log;
#[cfg(test)]
mod normal;
#[cfg(test)]
mod reading;
#[cfg(test)]
mod widening;

fn main() {}
