//! Four threads, each with a replica and a book of its own, on one row of cells. Requests are lost on the way to a book or come twice.

use crate::books::begun;
use crate::lossy_replicas::pushes_over;
use crate::threads::see_all;
use cs_map_store::MapStore;
use cs_spine::{Pass, Spine};
use std::alloc::Global;
use std::thread::{self, Threads};

const THREADS: usize = 4;

/// The cells of the row.
const CELLS: usize = 64;

/// How many entries the log has then: ten of each thread.
const ENTRIES: usize = 40;

/// What a thread does: its replica and its book are opened, used and let go here.
fn runs(spine: &Spine, alloc: Global, id: u32) -> bool {
    if id == u32::MAX {
        return false;
    }
    match begun(alloc, spine) {
        Some(book) => pushes_over(alloc, MapStore::new(alloc), book, id),
        None => false,
    }
}

/// How many entries that a pass knows have the origin and the number of this one.
fn alike(spine: &Spine, pass: &Pass<'_>, origin: u32, number: u64) -> usize {
    let mut count = 0usize;
    for n in 0..pass.len() {
        let entry = spine.entry(pass, n);
        if entry.origin == origin && entry.number == number {
            count = count.saturating_add(1);
        }
    }
    count
}

/// Whether no two have one origin and one number.
fn each_once(spine: &Spine, pass: &Pass<'_>) -> bool {
    for n in 0..pass.len() {
        let entry = spine.entry(pass, n);
        if alike(spine, pass, entry.origin, entry.number) != 1 {
            return false;
        }
    }
    true
}

/// All run at once; after they have joined, a pass that knew nothing sees what they have pushed.
fn run_four<R: Threads + Sync>(rt: &R, alloc: Global) -> Option<bool> {
    let spine = Spine::new(alloc, CELLS).ok()?;
    let told = thread::map_indices(rt, alloc, THREADS, &|i| runs(&spine, alloc, i as u32)).ok()?;
    let all = told.iter().all(|done| *done);
    let mut pass = spine.pass().ok()?;
    let seen = see_all(&spine, &mut pass);
    Some(all && seen == ENTRIES && each_once(&spine, &pass))
}

#[test]
fn lossy_books(rt: HostRuntime) {
    assert!(rt; run_four(&rt, rt.alloc()) == Some(true));
}
