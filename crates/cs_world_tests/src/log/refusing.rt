//! Calls that the device refuses, one after another: each is told, leaves everything, and is made when it comes again.

use crate::given::{
    ROW_1, ROW_2, Store, Told, UPDATE, appends, bare, filled, has, opens, refusing,
};
use cs_hub::log_store::Catalogs;
use cs_opening::OpenFault;
use cs_store::{MetaName, RowStore};
use cs_store_cases::catalog;
use cs_value::Catalog;
use std::alloc::Global;

/// The tables of a hub, and its store, which has the entry of (1, 'v1') and refuses the call behind so many.
fn filled_for(alloc: Global, passes: u64) -> Option<(Catalogs, Store)> {
    let (catalogs, store) = filled(alloc)?;
    Some((catalogs, refusing(store, passes)))
}

/// Whether an append is refused where so many calls pass, changes nothing, and is made then.
fn is_appended_again(alloc: Global, passes: u64) -> Option<bool> {
    let (mut catalogs, mut store) = filled_for(alloc, passes)?;
    let before = store.written();
    let told = appends(alloc, &mut store, &mut catalogs, (2, UPDATE))?;
    let kept = store.failures() == 1
        && store.written() == before
        && has(&mut store, 1, Some(ROW_1)) == Ok(true);
    let again = appends(alloc, &mut store, &mut catalogs, (2, UPDATE))?;
    Some(
        told == Told::Device
            && kept
            && again == Told::Done
            && has(&mut store, 2, Some(ROW_2)) == Ok(true),
    )
}

/// Whether no call of an append is refused where so many pass.
fn is_appended_at_once(alloc: Global, passes: u64) -> Option<bool> {
    let (mut catalogs, mut store) = filled_for(alloc, passes)?;
    let told = appends(alloc, &mut store, &mut catalogs, (2, UPDATE))?;
    Some(told == Told::Done && store.failures() == 0)
}

/// A store is asked twice: for the row, and for the commit.
#[test]
fn an_append_that_the_device_refuses_changes_nothing(rt: HostRuntime) {
    let alloc = rt.alloc();
    for passes in 0..2u64 {
        assert!(rt; is_appended_again(alloc, passes) == Some(true));
    }
    assert!(rt; is_appended_at_once(alloc, 2) == Some(true));
}

/// Whether an opening is refused, writes nothing, and the same opening then gives this count.
fn is_opened_again(alloc: Global, catalog: &Catalog, store: &mut Store, count: u32) -> bool {
    let before = store.written();
    opens(alloc, store, catalog) == Err(OpenFault::Device)
        && store.failures() == 1
        && store.written() == before
        && opens(alloc, store, catalog) == Ok(count)
}

/// Whether a store that holds nothing is refused where so many calls pass, holds nothing still, and is laid out then.
fn is_laid_out_again(alloc: Global, passes: u64) -> Option<bool> {
    let catalog = catalog(alloc)?;
    let mut store = bare(alloc, passes);
    let told = opens(alloc, &mut store, &catalog);
    let none = store.meta(MetaName::Catalog).ok()?.is_none();
    Some(
        told == Err(OpenFault::Device)
            && none
            && store.failures() == 1
            && opens(alloc, &mut store, &catalog) == Ok(0),
    )
}

/// Whether the store with one entry is refused so, and is as it was.
fn is_read_again(alloc: Global, passes: u64) -> Option<bool> {
    let (catalogs, mut store) = filled_for(alloc, passes)?;
    Some(
        is_opened_again(alloc, catalogs.opening(), &mut store, 1)
            && has(&mut store, 1, Some(ROW_1)) == Ok(true),
    )
}

/// Whether no call is refused where so many pass: of a store that holds nothing, and of one with one entry.
fn are_opened_at_once(alloc: Global, bare_passes: u64, passes: u64) -> Option<bool> {
    let (catalogs, mut store) = filled_for(alloc, passes)?;
    let mut first = bare(alloc, bare_passes);
    Some(
        opens(alloc, &mut first, catalogs.opening()) == Ok(0)
            && first.failures() == 0
            && opens(alloc, &mut store, catalogs.opening()) == Ok(1)
            && store.failures() == 0,
    )
}

/// A store that holds nothing is asked nine times: for three signs of that, of which the first is six values, and for the commit. One
/// with an entry is asked twelve times: for a sign, two values, four values, four signs of damage, and whether the entry widens a table.
#[test]
fn what_the_device_refuses_is_not_opened(rt: HostRuntime) {
    let alloc = rt.alloc();
    for passes in 0..9u64 {
        assert!(rt; is_laid_out_again(alloc, passes) == Some(true));
    }
    for passes in 0..12u64 {
        assert!(rt; is_read_again(alloc, passes) == Some(true));
    }
    assert!(rt; are_opened_at_once(alloc, 9, 12) == Some(true));
}
