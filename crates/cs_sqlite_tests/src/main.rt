//! Tests of stores in SQLite (`cs_sql`, with `cs_sql::statements` and `cs_sql::schema`), and of hubs, replicas and worlds over them, by public
//! calls. They look at what these show, and at files that stop at each call in turn (`disks`, `stops`). They stand in one crate since a program
//! over SQLite's engine is dear to build. Sessions of a hub over a file, and files that a hub finds, are rows of `bench/check_sessions.sh` and
//! `bench/check_files.sh`.
#![tactic(auto)]

#[cfg(test)]
mod disks;
#[cfg(test)]
mod hubs;
#[cfg(test)]
mod messages;
#[cfg(test)]
mod replicas;
#[cfg(test)]
mod sql;
#[cfg(test)]
mod stops;
#[cfg(test)]
mod worlds;

fn main() {}
