//! A stop at each call of the files in which a store lies. Its commits are those of a test, of a hub or of a replica. After the stop it
//! opens as it was before the call or after it. So a store in memory shows it that made as many commits.

use crate::disks::{Calls, Disk, files_behind, open_again, open_new, shown_again};
use crate::{hubs, replicas};
use cs_store::RowStore;
use cs_store_cases::{
    FIRST_BATCH, FIRST_SHOWN, NEXT_BATCH, NEXT_SHOWN, NOTHING_SHOWN, catalog, commit_of,
};
use cs_value::Catalog;
use sqlite::Files;
use std::alloc::Global;

/// Whose calls they are.
#[derive(Clone, Copy)]
enum Whose {
    Store,
    Hub,
    Replica,
}

/// How many calls of each there are, opening among them but for the store alone.
fn calls_of(whose: Whose) -> usize {
    match whose {
        Whose::Store => 2,
        Whose::Hub => 3,
        Whose::Replica => 6,
    }
}

/// How many of two commits succeed.
fn commits_made<S: RowStore>(alloc: Global, store: &mut S) -> usize {
    for (done, spelled) in [FIRST_BATCH, NEXT_BATCH].iter().enumerate() {
        if commit_of(alloc, store, spelled).is_err() {
            return done;
        }
    }
    2
}

/// How many calls succeed one after another over a store that holds nothing, and the store then.
fn made_over<S: RowStore>(alloc: Global, store: S, catalog: &Catalog, whose: Whose) -> (usize, S) {
    match whose {
        Whose::Store => {
            let mut store = store;
            let made = commits_made(alloc, &mut store);
            (made, store)
        }
        Whose::Hub => hubs::made_over(alloc, store, catalog),
        Whose::Replica => replicas::made_over(alloc, store, catalog),
    }
}

/// How many calls succeed in new files that stop, and the files then. What handles a store in files is dear to prove, so this does nothing else.
fn stopped(alloc: Global, catalog: &Catalog, whose: Whose, calls: Calls) -> (usize, Files<Disk>) {
    match open_new(alloc, calls) {
        Ok(store) => {
            let (made, store) = made_over(alloc, store, catalog, whose);
            (made, files_behind(store))
        }
        Err(files) => (0, files),
    }
}

/// Whether a store shows this after no commit of a test, one and two.
fn is_after(shown: &[u8], commits: usize) -> bool {
    match commits {
        0 => shown == NOTHING_SHOWN,
        1 => shown == FIRST_SHOWN,
        _ => shown == NEXT_SHOWN,
    }
}

/// Whether a store shows this after so many commits.
fn is_shown(alloc: Global, catalog: &Catalog, whose: Whose, shown: &[u8], commits: usize) -> bool {
    let image = match whose {
        Whose::Store => return is_after(shown, commits),
        Whose::Hub => hubs::shown_after(alloc, catalog, commits),
        Whose::Replica => replicas::shown_after(alloc, catalog, commits),
    };
    match image {
        Some(image) => image.as_slice() == shown,
        None => false,
    }
}

/// How many commits there were before and behind the call that comes after so many.
fn commits_around(whose: Whose, made: usize) -> (usize, usize) {
    match whose {
        Whose::Replica => replicas::commits_around(made),
        _ => (made, made.saturating_add(1)),
    }
}

/// How many calls succeeded before a stop behind so many calls of a file, if the store then shows what it may.
fn survives(alloc: Global, catalog: &Catalog, whose: Whose, calls: Calls) -> Option<usize> {
    let (made, files) = stopped(alloc, catalog, whose, calls);
    let shown = shown_again(alloc, files)?;
    let (first, last) = commits_around(whose, made);
    for commits in first..last.saturating_add(1) {
        if is_shown(alloc, catalog, whose, shown.as_slice(), commits) {
            return Some(made);
        }
    }
    None
}

/// Which file stops.
#[derive(Clone, Copy)]
enum Stops {
    Log,
    Database,
}

fn calls_before(stops: Stops, calls: u64) -> Calls {
    match stops {
        Stops::Log => Calls {
            log: calls,
            db: u64::MAX,
        },
        Stops::Database => Calls {
            log: u64::MAX,
            db: calls,
        },
    }
}

/// Behind how many calls of a file none comes that stops what is made; none where a stop isn't survived before.
fn survive_all(alloc: Global, whose: Whose, stops: Stops) -> Option<u64> {
    let catalog = catalog(alloc)?;
    for calls in 0..2000 {
        if survives(alloc, &catalog, whose, calls_before(stops, calls))? == calls_of(whose) {
            return Some(calls);
        }
    }
    None
}

/// How many calls succeeded before a stop, if the pushes, whose answers are lost, count once when they come again.
fn counts_once(alloc: Global, catalog: &Catalog, calls: Calls) -> Option<usize> {
    let (made, files) = stopped(alloc, catalog, Whose::Hub, calls);
    let Ok(store) = open_again(alloc, files) else {
        return None;
    };
    let (once, store) = hubs::takes_once(alloc, store, catalog);
    let _ = files_behind(store);
    if once { Some(made) } else { None }
}

/// Behind how many calls of the log's file none comes that stops the pushes; none where they don't count once behind a stop before.
fn count_once(alloc: Global) -> Option<u64> {
    let catalog = catalog(alloc)?;
    for calls in 0..2000 {
        if counts_once(alloc, &catalog, calls_before(Stops::Log, calls))? == calls_of(Whose::Hub) {
            return Some(calls);
        }
    }
    None
}

/// Whether each stop of either file is survived, of which there are some.
fn survive_both(alloc: Global, whose: Whose) -> Option<bool> {
    let log = survive_all(alloc, whose, Stops::Log)?;
    let database = survive_all(alloc, whose, Stops::Database)?;
    Some(log > 10 && database > 1)
}

#[test]
fn a_stop_at_any_call_leaves_a_commit_whole_or_none_of_it(rt: HostRuntime) {
    assert!(rt; survive_both(rt.alloc(), Whose::Store) == Some(true));
}

#[test]
fn a_stop_in_a_push_leaves_it_taken_or_not(rt: HostRuntime) {
    assert!(rt; survive_both(rt.alloc(), Whose::Hub) == Some(true));
}

#[test]
fn a_stop_in_a_call_of_a_replica_leaves_it_made_or_not(rt: HostRuntime) {
    assert!(rt; survive_both(rt.alloc(), Whose::Replica) == Some(true));
}

#[test]
fn a_push_whose_answer_is_lost_counts_once(rt: HostRuntime) {
    assert!(rt; matches!(count_once(rt.alloc()), Some(calls) if calls > 10));
}
