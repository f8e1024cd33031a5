//! Tests of what is done with changes, by public calls. They are of conflicts and who answers them (`cs_conflict`), consolidation
//! (`cs_change::netting`, `cs_group`), applying (`cs_tasks`, `cs_apply`), rebasing (`cs_rebaser`), and the tools of the program
//! (`cs_tools`). `choosing`, `trying` and `lawful` use the laws about closures with closures as programs write them.
#![tactic(auto)]

#[cfg(test)]
mod apply;
pub mod choosing;
#[cfg(test)]
mod conflict;
#[cfg(test)]
mod group;
pub mod lawful;
#[cfg(test)]
mod rebaser;
#[cfg(test)]
mod tools;
pub mod trying;

fn main() {}
