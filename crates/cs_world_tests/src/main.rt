//! Tests of a hub's log (`cs_hub::log_opening`, `cs_hub::log_reading`, `cs_hub::appending`, `cs_hub::judgement`) and of hubs (`cs_hub`). Tests
//! of worlds of a hub and its replicas (`cs_world`) and of their scripts (`cs_script`). They run over stores in memory, by public calls, and
//! show what only a call shows. Sessions, scripts and stores that are found are rows of `bench/check_sessions.sh`, `bench/check_worlds.sh` and
//! `bench/check_files.sh`.
#![tactic(auto)]

#[cfg(test)]
mod given;
#[cfg(test)]
mod hub;
#[cfg(test)]
mod log;
#[cfg(test)]
mod script;
#[cfg(test)]
mod world;

fn main() {}
