//! The program `sync`: a hub over memory or a file and a replica over a file, each worked by lines, or both over files that
//! exchange what they have. It has also worlds that run scripts, and tools for changesets.
//!
//! It only wires `cs_command` for the command line, `cs_node_lines`, `cs_meeting`, `cs_script` and `cs_tools` for what is asked
//! for, and `cs_map_store` and `cs_sql` for the stores. `run` carries the promise, end by end (`specs/Endings.antt`,
//! `specs/OverFiles.antt`): what the words ask for was done, over the tables that they spell, or why not. The words that are
//! refused are those that name no catalog or that the command line doesn't take. `tell_end` turns each end into its status.
//!
//! `run`'s clauses stand over a reader and a writer whose bytes are known, as those of slices and vectors are. Standard input and
//! output are none such in the toolchain, and `main`, which hands `run` the words and the streams, has no clause. What the built
//! program reads and writes on files and pipes is shown by runs instead. These are the stored run (`stdin`, `stdout`),
//! `bench/check_program.sh`, `bench/check_sessions.sh` and `bench/check_files.sh`. What names no section of SQLite's
//! documentation is profile of this project.
#![tactic(auto)]

mod exchange;
mod fault;
mod hub;
mod node;
mod opener;
mod run;
mod status;
mod world;

use crate::fault::RunFault;
use crate::opener::Paths;
use crate::status::tell_end;
use std::io::{BufReader, BufWriter, ErrorKind};
use std::process::ExitCode;
use std::{env, io};

/// The bytes of the output's buffer. It is taken before the first request, and flushed behind each answer.
const OUTPUT_BUFFER: usize = 65_536;

fn main(rt: HostRuntime) -> ExitCode {
    let status = match start(&rt) {
        Ok(status) => status,
        Err(error) => tell_end(&Err(refused_start(&error)), &mut rt.stderr()),
    };
    ExitCode::from(status)
}

fn start(rt: &HostRuntime) -> io::Result<u8> {
    let alloc = rt.alloc();
    let words: Vec<String> = env::args(rt)?.collect(alloc)?;
    let mut reader = BufReader::new(alloc, rt.reader())?;
    let mut writer = BufWriter::with_capacity(alloc, OUTPUT_BUFFER, io::writer(rt))?;
    let mut paths = Paths::new(rt);
    let ended = run::run(
        alloc,
        &mut paths,
        words.as_slice(),
        &mut reader,
        &mut writer,
    );
    Ok(tell_end(&ended, &mut rt.stderr()))
}

// A word that is no text is refused; else there was no memory to begin with.
fn refused_start<'w>(error: &io::Error) -> RunFault<'w> {
    match error.kind() {
        ErrorKind::InvalidData => RunFault::CommandLine,
        _ => RunFault::Memory,
    }
}
