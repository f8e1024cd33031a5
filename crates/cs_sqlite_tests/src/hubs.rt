//! A hub that takes two pushes over any store, and what a store shows in memory after each commit.

use crate::messages::{FIRST_PUSH, SECOND_PUSH};
use cs_hub::Hub;
use cs_map_store::MapStore;
use cs_store::RowStore;
use cs_store_cases::image;
use cs_value::Catalog;
use std::alloc::Global;

const PUSHES: [&[u8]; 2] = [FIRST_PUSH, SECOND_PUSH];

/// Whether the hub takes a push.
fn takes<S: RowStore>(hub: &mut Hub<S>, push: &[u8]) -> bool {
    match hub.serve(push) {
        Ok(answer) => answer.as_slice().first() == Some(&0x11),
        Err(_) => false,
    }
}

/// How many of so many pushes the hub takes one after another.
fn pushes_taken<S: RowStore>(hub: &mut Hub<S>, pushes: &[&[u8]]) -> usize {
    let mut taken = 0usize;
    for push in pushes {
        if !takes(hub, push) {
            return taken;
        }
        taken = taken.saturating_add(1);
    }
    taken
}

/// How many commits are made over a store that holds nothing, and the store then: the first lays it out, and each push is one.
pub(crate) fn made_over<S: RowStore>(alloc: Global, store: S, catalog: &Catalog) -> (usize, S) {
    match Hub::open(alloc, store, catalog) {
        Ok(mut hub) => {
            let taken = pushes_taken(&mut hub, &PUSHES);
            (taken.saturating_add(1), hub.close())
        }
        Err((store, _)) => (0, store),
    }
}

/// Whether both pushes, that come twice now, are told to be taken, each as one entry; and the store then.
pub(crate) fn takes_once<S: RowStore>(alloc: Global, store: S, catalog: &Catalog) -> (bool, S) {
    match Hub::open(alloc, store, catalog) {
        Ok(mut hub) => {
            let first = pushes_taken(&mut hub, &PUSHES);
            let again = pushes_taken(&mut hub, &PUSHES);
            let once = first == 2 && again == 2 && hub.newest() == 2;
            (once, hub.close())
        }
        Err((store, _)) => (false, store),
    }
}

/// What a store in memory shows after so many commits.
pub(crate) fn shown_after(alloc: Global, catalog: &Catalog, commits: usize) -> Option<Vec<u8>> {
    let mut store = MapStore::new(alloc);
    if commits == 0 {
        return image(alloc, &mut store).ok();
    }
    let Ok(mut hub) = Hub::open(alloc, store, catalog) else {
        return None;
    };
    let pushes = PUSHES.get(..commits - 1)?;
    if pushes_taken(&mut hub, pushes) != pushes.len() {
        return None;
    }
    image(alloc, &mut hub.close()).ok()
}
