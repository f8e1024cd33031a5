//! Tests of stores, by public calls: batches and the store in memory (`cs_store::edits`, `cs_store`, `cs_leaf`, `cs_map_store`), and rows with
//! pending changes in it (`cs_pending`, `cs_pending::outgoing`), also where a table gets more columns (`cs_padding`).
#![tactic(auto)]

#[cfg(test)]
mod padding;
#[cfg(test)]
mod pending;
#[cfg(test)]
mod store;

fn main() {}
