//! Runs drawn cases for the scripts of `bench/`, which run the same ones by SQLite and compare. The words `apply`, `rebase` and
//! `replica` say which. A number behind the first two says that the case is timed so many times, else each case is checked. Each file
//! says what its cases are made of. What the crates below do is proved where they stand. This program only calls them and prints.
#![tactic(auto)]

mod applying;
mod drawn;
mod rebasing;
mod replicas;

use drawn::Wrong;
use std::io::{BufRead, BufReader, BufWriter, Read, Write};
use std::{env, io};

/// How many times each case is timed; none where each is checked.
fn rounds_in(words: &[String]) -> Option<u64> {
    match words {
        [_, _, rounds] => rounds.as_str().parse::<u64>().ok(),
        _ => None,
    }
}

/// What is done with the cases.
#[derive(Clone, Copy)]
enum Work {
    Apply,
    Rebase,
    Replica,
}

fn work_in(words: &[String]) -> Work {
    let word = match words {
        [_, word, ..] => word.as_str(),
        _ => "apply",
    };
    match word {
        "rebase" => Work::Rebase,
        "replica" => Work::Replica,
        _ => Work::Apply,
    }
}

fn main(rt: HostRuntime) -> io::Result<()> {
    let alloc = rt.alloc();
    let words: Vec<String> = env::args(&rt)?.collect(alloc)?;
    let rounds = rounds_in(words.as_slice());
    let mut bytes = Vec::new(alloc);
    BufReader::new(alloc, rt.reader())?.read_to_end(&mut bytes)?;
    let mut out = Vec::new(alloc);
    let ended = match work_in(words.as_slice()) {
        Work::Apply => applying::run_cases(&rt, alloc, bytes.as_slice(), rounds, &mut out),
        Work::Rebase => rebasing::run_cases(&rt, alloc, bytes.as_slice(), rounds, &mut out),
        Work::Replica => replicas::run_cases(alloc, bytes.as_slice(), &mut out),
    };
    let mut writer = io::writer(&rt);
    writer.write_all(out.as_slice())?;
    match ended {
        Ok(()) => Ok(()),
        Err(Wrong::Case) => writer.write_all(b"WRONG case\n"),
        Err(Wrong::Memory) => writer.write_all(b"WRONG memory\n"),
    }
}
