//! What one thread is told of a spine.

ghost use Rattle.std.specs.Prelude.{◌≡◌};

use crate::entries::insert;
use cs_spine::{OfferFault, Offered, Pass, Spine, SpineFault};
use cs_store::log::{LogEntry, MAX_ENTRIES};
use std::alloc::Global;

/// Whether the next cell holds this entry, as the pass sees it.
pub(crate) fn sees<'s>(spine: &'s Spine, pass: &mut Pass<'s>, wanted: &LogEntry) -> bool
    requires { pass.old.spine ≡ spine.now }
    ensures { pass.new.spine ≡ pass.old.spine }
{
    match spine.see(pass) {
        Some(entry) => entry.same(wanted),
        None => false,
    }
}

/// Whether an offer is answered so.
pub(crate) fn offers<'s>(
    spine: &'s Spine,
    pass: &mut Pass<'s>,
    entry: &LogEntry,
    told: Result<Offered, OfferFault>,
) -> bool
    requires { pass.old.spine ≡ spine.now }
    ensures { pass.new.spine ≡ pass.old.spine }
{
    spine.offer(pass, entry) == told
}

/// Whether so many offers of one entry are `Mine`.
fn offers_all<'s>(spine: &'s Spine, pass: &mut Pass<'s>, entry: &LogEntry, count: usize) -> bool
    requires { pass.old.spine ≡ spine.now }
    ensures { pass.new.spine ≡ pass.old.spine }
{
    let mut all = true;
    for _ in 0..count {
        all = all & (spine.offer(pass, entry) == Ok(Offered::Mine));
    }
    all
}

/// Whether a pass knows so many entries, of which this is the last.
fn knows(spine: &Spine, pass: &Pass<'_>, count: usize, last: &LogEntry) -> bool {
    pass.len() == count && count > 0 && spine.entry(pass, count - 1).same(last)
}

/// Whether a pass knows this entry of a cell.
fn holds(spine: &Spine, pass: &Pass<'_>, n: usize, entry: &LogEntry) -> bool {
    n < pass.len() && spine.entry(pass, n).same(entry)
}

/// Offers on a spine of one cell: the first is `Mine`, and the next through that pass finds it full. Another pass sees the first
/// entry, and an unequal offer of a third is `Other`.
fn decides_once(spine: &Spine, first: &LogEntry, second: &LogEntry) -> Option<bool> {
    let mut pass = spine.pass().ok()?;
    let mut reading = spine.pass().ok()?;
    let mut late = spine.pass().ok()?;
    let lone = offers(spine, &mut pass, first, Ok(Offered::Mine));
    let full = offers(spine, &mut pass, second, Err(OfferFault::Full));
    let seen = sees(spine, &mut reading, first);
    let other = offers(spine, &mut late, second, Ok(Offered::Other));
    Some(lone & full & seen & other & knows(spine, &late, 1, first))
}

/// Two passes offer on two cells, and three meet.
fn meets(spine: &Spine, first: &LogEntry, second: &LogEntry) -> Option<bool> {
    let mut one = spine.pass().ok()?;
    let mut other = spine.pass().ok()?;
    let idle = spine.pass().ok()?;
    let mine = offers(spine, &mut one, first, Ok(Offered::Mine));
    let taken = offers(spine, &mut other, second, Ok(Offered::Other));
    let next = offers(spine, &mut other, second, Ok(Offered::Mine));
    let apart = spine.meet(&one, &other) == 1;
    let seen = sees(spine, &mut one, second);
    let met = spine.meet(&one, &other) == 2;
    let full = offers(spine, &mut other, second, Err(OfferFault::Full));
    Some(mine & taken & next & apart & seen & met & full & (spine.meet(&one, &idle) == 0))
}

/// An entry that equals the one that the cell holds is `Mine`, whoever offered it first; another isn't. A shared pass knows the
/// same, and goes on by itself.
fn goes_on(spine: &Spine, entry: &LogEntry, same: &LogEntry, later: &LogEntry) -> Option<bool> {
    let mut one = spine.pass().ok()?;
    let mut other = spine.pass().ok()?;
    let mine = offers(spine, &mut one, entry, Ok(Offered::Mine));
    let also = offers(spine, &mut other, same, Ok(Offered::Mine));
    let mut shared = spine.share(&one).ok()?;
    let knew = knows(spine, &shared, 1, entry);
    let unset = spine.see(&mut shared).is_none();
    let next = offers(spine, &mut other, later, Ok(Offered::Mine));
    let taken = offers(spine, &mut shared, entry, Ok(Offered::Other));
    Some(
        mine & also
            & knew
            & unset
            & next
            & taken
            & knows(spine, &shared, 2, later)
            & (one.len() == 1),
    )
}

/// A spine of so many cells, and the entries number 1 of the origins 1 and 2.
fn with_entries(alloc: Global, cap: usize) -> Option<(Spine, LogEntry, LogEntry)> {
    Some((
        Spine::new(alloc, cap).ok()?,
        insert(alloc, 1, 1)?,
        insert(alloc, 2, 1)?,
    ))
}

fn one_cell(alloc: Global) -> Option<bool> {
    let (spine, first, second) = with_entries(alloc, 1)?;
    decides_once(&spine, &first, &second)
}

fn two_cells(alloc: Global) -> Option<bool> {
    let (spine, first, second) = with_entries(alloc, 2)?;
    meets(&spine, &first, &second)
}

fn three_cells(alloc: Global) -> Option<bool> {
    let (spine, first, later) = with_entries(alloc, 3)?;
    let same = insert(alloc, 1, 1)?;
    goes_on(&spine, &first, &same, &later)
}

#[test]
fn a_cell_is_decided_once(rt: HostRuntime) {
    assert!(rt; one_cell(rt.alloc()) == Some(true));
}

#[test]
fn passes_meet(rt: HostRuntime) {
    assert!(rt; two_cells(rt.alloc()) == Some(true));
}

#[test]
fn equal_entries_are_mine(rt: HostRuntime) {
    assert!(rt; three_cells(rt.alloc()) == Some(true));
}

/// How many cells a spine has that was asked for so many.
fn cells(alloc: Global, cap: usize) -> Result<usize, SpineFault> {
    let spine = Spine::new(alloc, cap)?;
    Ok(spine.cap())
}

/// Whether an offer finds a spine of no cell full.
fn none_is_full(alloc: Global) -> Option<bool> {
    let spine = Spine::new(alloc, 0).ok()?;
    let entry = insert(alloc, 1, 1)?;
    let mut pass = spine.pass().ok()?;
    let full = offers(&spine, &mut pass, &entry, Err(OfferFault::Full));
    let unset = spine.see(&mut pass).is_none();
    Some(full & unset & (pass.len() == 0))
}

#[test]
fn a_spine_has_so_many_cells(rt: HostRuntime) {
    let alloc = rt.alloc();
    assert!(rt; MAX_ENTRIES == 1_048_576 && cells(alloc, 1_048_576) == Ok(1_048_576));
    assert!(rt; cells(alloc, 1_048_577) == Err(SpineFault::TooMany));
    assert!(rt; none_is_full(alloc) == Some(true));
}

/// Whether so many offers of one entry through one pass are `Mine`, and the next finds the spine full.
fn fills(spine: &Spine, entry: &LogEntry, count: usize) -> bool {
    let Ok(mut pass) = spine.pass() else {
        return false;
    };
    offers_all(spine, &mut pass, entry, count)
        && offers(spine, &mut pass, entry, Err(OfferFault::Full))
}

/// How many entries a pass that knows nothing sees, of which each is this one.
fn sights_of(spine: &Spine, entry: &LogEntry, most: usize) -> usize {
    let Ok(mut pass) = spine.pass() else {
        return 0;
    };
    let mut count = 0usize;
    for _ in 0..most {
        if !sees(spine, &mut pass, entry) {
            break;
        }
        count = count.saturating_add(1);
    }
    count
}

/// All cells of a spine of two segments, the second of which has one cell, are set, and then it is full. Before that a pass that
/// knows nothing sees as many as were set.
fn two_segments(alloc: Global) -> Option<bool> {
    let spine = Spine::new(alloc, 4097).ok()?;
    let entry = insert(alloc, 1, 1)?;
    let none = sights_of(&spine, &entry, 5000) == 0;
    let filled = fills(&spine, &entry, 4097);
    let seen = sights_of(&spine, &entry, 5000) == 4097;
    Some(none & filled & seen)
}

#[test]
fn each_cell_of_two_segments_is_set(rt: HostRuntime) {
    assert!(rt; two_segments(rt.alloc()) == Some(true));
}

/// Whether an entry comes through an offer behind the first segment. A pass that was shared before sees the entry then, and no pass
/// sees it before. A pass that stands at the end of the first segment looks at a link that leads nowhere yet.
fn goes_over(spine: &Spine, entry: &LogEntry, last: &LogEntry) -> Option<bool> {
    let mut one = spine.pass().ok()?;
    let filled = offers_all(spine, &mut one, entry, 4096);
    let mut other = spine.share(&one).ok()?;
    let unset = spine.see(&mut other).is_none();
    let next = offers(spine, &mut one, last, Ok(Offered::Mine));
    let seen = sees(spine, &mut other, last);
    let known = knows(spine, &other, 4097, last) && holds(spine, &other, 4095, entry);
    Some(filled & unset & next & seen & known & (spine.meet(&one, &other) == 4097))
}

fn between_segments(alloc: Global) -> Option<bool> {
    let (spine, entry, last) = with_entries(alloc, 8192)?;
    goes_over(&spine, &entry, &last)
}

#[test]
fn a_second_segment_is_made(rt: HostRuntime) {
    assert!(rt; between_segments(rt.alloc()) == Some(true));
}
