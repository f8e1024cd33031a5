//! Bodies that follow one another, over one list of bytes, and an edit of them in place.

ghost use Rattle.std.specs.Prelude.{◌≡◌, ◌⊎◌, ◌≤◌, ◌+◌, ◌*◌, ◌^◌, ◌++◌, ◌∷◌, ◌<◌, ◌-◌, ℕ, List, [], length, map, slice_range, option_map, IfOk, IfSome, OnOk, OnErr};
ghost use Rattle.std.specs.List.{All};
ghost use Rattle.cs_leaf.specs.Entries.{HasRoomFor, IsFrontOf, IsPacked, IsRun, IsSpotIn, IsSpotEditAt, IsSpotEditFor, bytes_of, entries_at, entry_at, shifted, size_of, spots_after, written};

use crate::heads::{compare_keys, head};
use cs_store::edits::PlaceEdit;
use std::alloc::{AllocError, Global};
use std::cmp::Ordering;
use std::marker::Model;

/// A place that is looked for or written, with the head of its key, so that most comparisons are of numbers. Contracts see the
/// place alone.
#[derive(Drop)]
pub struct Place<'a> {
    table: u32,
    key: &'a [u8],
    head: u128,
}

impl<'a> Model for Place<'a> {
    ghost use Rattle.std.specs.Prelude.{pos};
    ghost use Rattle.cs_store.specs.Contents.{StorePlace};
    ghost use Rattle.cs_leaf.specs.Entries.{IsHeadOf};

    ghost Value = { StorePlace };

    ghost view = { λ place. (pos place.table, place.key.now) };

    ghost invariant = { λ place. IsHeadOf place.head place.key.now };
}

impl<'a> Place<'a> {
    ghost use Rattle.std.specs.Prelude.{◌≡◌, pos};
    ghost use Rattle.cs_store.specs.Contents.{place_cmp};
    ghost use Rattle.cs_store.specs.Written.{store_place};

    /// The place of a table's number and the bytes of a key.
    #[inline(always)]
    pub fn new(table: u32, key: &'a [u8]) -> Place<'a>
        ensures { result ≡ (pos table, key.now) }
    {
        Place {
            table,
            key,
            head: head(key),
        }
    }

    /// The place of an edit.
    #[inline(always)]
    pub fn of_edit(edit: &PlaceEdit<'a>) -> Place<'a>
        ensures { result ≡ store_place edit.now }
    {
        Place::new(edit.table(), edit.key())
    }

    /// Compares two places.
    #[inline(always)]
    pub fn compare(&self, other: &Place) -> Ordering
        ensures { result ≡ place_cmp self.now other.now }
    {
        match self.table.cmp(&other.table) {
            Ordering::Equal => compare_keys(self.head, self.key, other.head, other.key),
            apart => apart,
        }
    }
}

/// Where a row stands in its leaf's bytes: its key up to `row`, and behind it the row up to `end`. The head is the key's.
#[derive(Clone, Copy)]
struct Spot {
    head: u128,
    table: u32,
    key: usize,
    row: usize,
    end: usize,
}

/// The table and the head of a leaf's first place, or zeros for none.
#[derive(Clone, Copy)]
struct Front {
    head: u128,
    table: u32,
}

/// Bodies behind their places. Contracts see them as a list. Rows stand in the bytes in any order, and beside them bytes of
/// rows that are gone. `used` is how many bytes those take that are there, which is always at least half (`IsTight`). Where a
/// leaf begins stands in itself, so that to look for one of many reads none of their lists.
#[derive(Drop)]
pub struct Leaf {
    front: Front,
    bytes: Vec<u8>,
    spots: Vec<Spot>,
    used: usize,
}

impl Model for Leaf {
    ghost use Rattle.std.specs.Prelude.{List};
    ghost use Rattle.cs_leaf.specs.Entries.{Entry, IsPacked, entries_at};

    ghost Value = { List Entry };

    ghost view = { λ leaf. entries_at leaf.bytes.items leaf.spots.items };

    ghost invariant = { λ leaf. IsPacked leaf.front leaf.bytes.items leaf.spots.items leaf.used };
}

/// Where the first of some rows stands.
#[inline(always)]
fn front_of(spots: &[Spot]) -> Front
    ensures { IsFrontOf result spots.now }
{
    match spots {
        [first, ..] => Front {
            head: first.head,
            table: first.table,
        },
        [] => Front { head: 0, table: 0 },
    }
}

/// One more than the largest number of 64 bits.
const WORD: u128 = 0x1_0000_0000_0000_0000;

/// One more than the largest number of 32 bits.
const HALF: u128 = 0x1_0000_0000;

/// How many of `count` that are spread evenly over `all` fall into `part`, nearly.
#[inline(always)]
fn share_of_words(count: usize, part: usize, all: usize) -> usize {
    part / (all / count.max(1)).max(1)
}

/// How many of `count` that are spread evenly over `all` fall into `part`, nearly. Their first bits are enough, and numbers of 64
/// bits are divided much faster.
#[inline(always)]
fn share(count: usize, part: u128, all: u128) -> usize {
    let part = part.min(all);
    if all < WORD {
        share_of_words(count, part as usize, all as usize)
    } else if all < WORD * HALF {
        share_of_words(count, (part / HALF) as usize, (all / HALF) as usize)
    } else {
        share_of_words(count, (part / WORD) as usize, (all / WORD) as usize)
    }
}

/// Notes where the first of some rows stands after an edit of them at a position, where before it stood there. Behind the first it
/// stays, and is not read.
#[inline(always)]
fn note_front(front: &mut Front, spots: &[Spot], at: usize)
    requires { (at ≡ 0) ⊎ IsFrontOf front.old spots.now }
    ensures { IsFrontOf front.new spots.now }
{
    if at == 0 {
        *front = front_of(spots);
    }
}

/// Appends the bytes of a row, and answers where they stand. At `Err` nothing has changed.
#[inline(always)]
fn add_row(bytes: &mut Vec<u8>, place: &Place, row: &[u8]) -> Result<Spot, AllocError>
    ensures behind { (more : List ℕ) × (bytes.new.items ≡ bytes.old.items ++ more) }
    ensures spot { IfOk result (λ spot. IsSpotIn bytes.new.items spot) }
    ensures entry { IfOk result (λ spot. entry_at bytes.new.items spot ≡ (place.now, row.now)) }
    ensures len { OnOk result (length bytes.new.items ≡ length bytes.old.items + size_of (place.now, row.now)) }
    ensures err { OnErr result (bytes.new.items ≡ bytes.old.items) }
{
    let start = bytes.len();
    bytes.extend_from_slice(place.key)?;
    let middle = bytes.len();
    if let Err(e) = bytes.extend_from_slice(row) {
        bytes.truncate(start);
        return Err(e);
    }
    Ok(Spot {
        head: place.head,
        table: place.table,
        key: start,
        row: middle,
        end: bytes.len(),
    })
}

/// Appends a row. At `Err` nothing has changed.
#[inline(always)]
fn put(
    bytes: &mut Vec<u8>,
    spots: &mut Vec<Spot>,
    place: &Place,
    row: &[u8],
) -> Result<(), AllocError>
    requires { All (IsSpotIn bytes.old.items) spots.old.items }
    ensures within { All (IsSpotIn bytes.new.items) spots.new.items }
    ensures behind { OnOk result ((more : List Spot) × (spots.new.items ≡ spots.old.items ++ more)) }
    ensures ok { OnOk result (entries_at bytes.new.items spots.new.items
        ≡ entries_at bytes.old.items spots.old.items ++ (place.now, row.now) ∷ []) }
    ensures len { OnOk result (length bytes.new.items ≡ length bytes.old.items + size_of (place.now, row.now)) }
    ensures same_bytes { OnErr result (bytes.new.items ≡ bytes.old.items) }
    ensures same_spots { OnErr result (spots.new.items ≡ spots.old.items) }
{
    spots.reserve(1)?;
    let spot = add_row(bytes, place, row)?;
    spots.push_reserved(spot);
    Ok(())
}

/// Rows that stand one behind another in a leaf's bytes, from `start` up to `end`. The first that doesn't belong to them stands at
/// `to` in its spots.
#[derive(Clone, Copy)]
struct Run {
    to: usize,
    start: usize,
    end: usize,
}

/// The rows from one position on that stand one behind another in the bytes, of those before another position.
#[inline(always)]
fn run_from(spots: &[Spot], from: usize, to: usize) -> Run
    requires { (from < to) × (to ≤ length spots.now) }
    ensures bound { (from < result.to) × (result.to ≤ to) }
    ensures run { IsRun result.start (slice_range spots.now from result.to) result.end }
{
    let first = spots[from];
    let mut end = first.end;
    let mut next = from + 1;
    while next < to && spots[next].key == end {
        end = spots[next].end;
        next += 1;
    }
    Run {
        to: next,
        start: first.key,
        end,
    }
}

/// Where a row stands of whose bytes those from `start` on stand behind `held` others now.
#[inline(always)]
fn shifted(spot: Spot, start: usize, held: usize) -> Spot
    requires order { (start ≤ spot.key) × (spot.key ≤ spot.row) × (spot.row ≤ spot.end) }
    requires bound { held + (spot.end - start) < 2 ^ 64 }
    ensures { result ≡ shifted spot start held }
{
    Spot {
        head: spot.head,
        table: spot.table,
        key: held + (spot.key - start),
        row: held + (spot.row - start),
        end: held + (spot.end - start),
    }
}

/// Appends rows that stand one behind another in other bytes, from `start` up to `end`. Their bytes are copied in one piece. At
/// `Err` nothing has changed.
#[inline(always)]
fn put_run(
    bytes: &mut Vec<u8>,
    spots: &mut Vec<Spot>,
    source: &[u8],
    run: &[Spot],
    start: usize,
    end: usize,
) -> Result<(), AllocError>
    requires held { All (IsSpotIn bytes.old.items) spots.old.items }
    requires there { All (IsSpotIn source.now) run.now }
    requires run { IsRun start run.now end }
    requires bound { (start ≤ end) × (end ≤ length source.now) }
    ensures within { All (IsSpotIn bytes.new.items) spots.new.items }
    ensures behind { OnOk result ((more : List Spot) × (spots.new.items ≡ spots.old.items ++ more)) }
    ensures ok { OnOk result (entries_at bytes.new.items spots.new.items
        ≡ entries_at bytes.old.items spots.old.items ++ entries_at source.now run.now) }
    ensures len { OnOk result (length bytes.new.items ≡ length bytes.old.items + bytes_of (entries_at source.now run.now)) }
    ensures same_bytes { OnErr result (bytes.new.items ≡ bytes.old.items) }
    ensures same_spots { OnErr result (spots.new.items ≡ spots.old.items) }
{
    spots.reserve(run.len())?;
    let held = bytes.len();
    bytes.extend_from_slice(&source[start..end])?;
    for at in 0..run.len() {
        spots.push_reserved(shifted(run[at], start, held));
    }
    Ok(())
}

impl Leaf {
    ghost use Rattle.std.specs.Prelude.{◌≡◌, ◌<◌, ◌≤◌, ◌++◌, ◌∷◌, true, false, [], T, pos, length, slice_range, if◌then◌else◌, option_map, IfOk, IfErr, OnOk};
    ghost use Rattle.std.specs.FinMap.{find, is_sorted};
    ghost use Rattle.std.specs.Ordering.{is_lt};
    ghost use Rattle.cs_store.specs.Contents.{place_cmp};
    ghost use Rattle.cs_leaf.specs.Entries.{IsPlaceFor, IsPlaceBetween, bytes_of, nth, size_of};
    ghost use Rattle.cs_leaf.specs.Edits.{IsBehind, edited, store_place};

    /// No row.
    #[inline(always)]
    pub fn new(alloc: Global) -> Leaf
        ensures { result ≡ [] }
    {
        Leaf {
            front: front_of(&[]),
            bytes: Vec::new(alloc),
            spots: Vec::new(alloc),
            used: 0,
        }
    }

    /// No row, with room for so many that are like those of another leaf.
    pub fn with_room(alloc: Global, like: &Leaf, rows: usize) -> Result<Leaf, AllocError>
        ensures { IfOk result (λ leaf. leaf ≡ []) }
    {
        let each = (like.used / like.spots.len().max(1)).saturating_add(1);
        Ok(Leaf {
            front: front_of(&[]),
            bytes: Vec::with_capacity(alloc, rows.saturating_mul(each))?,
            spots: Vec::with_capacity(alloc, rows)?,
            used: 0,
        })
    }

    /// Takes out all rows. The memory for them is kept.
    pub(crate) fn clear(&mut self)
        ensures { self.new ≡ [] }
    {
        self.front = front_of(&[]);
        self.bytes.clear();
        self.spots.clear();
        self.used = 0;
    }

    /// The same rows in memory of their own, which is no more than they take.
    pub fn copied(&self, alloc: Global) -> Result<Leaf, AllocError>
        ensures { IfOk result (λ leaf. leaf ≡ self.now) }
    {
        Ok(Leaf {
            front: self.front,
            bytes: Vec::from_slice(alloc, self.bytes.as_slice())?,
            spots: Vec::from_slice(alloc, self.spots.as_slice())?,
            used: self.used,
        })
    }

    /// How many rows there are.
    #[inline(always)]
    pub fn len(&self) -> usize
        ensures { result ≡ length self.now }
    {
        self.spots.len()
    }

    /// The number of the table of the row there.
    #[inline(always)]
    pub fn table(&self, at: usize) -> u32
        requires { at < length self.now }
        ensures { pos result ≡ (nth self.now at).0.0 }
    {
        self.spots[at].table
    }

    /// The key there.
    #[inline(always)]
    pub fn key(&self, at: usize) -> &[u8]
        requires { at < length self.now }
        ensures { result.now ≡ (nth self.now at).0.1 }
    {
        let spot = self.spots[at];
        &self.bytes.as_slice()[spot.key..spot.row]
    }

    /// The row there.
    #[inline(always)]
    pub fn row(&self, at: usize) -> &[u8]
        requires { at < length self.now }
        ensures { result.now ≡ (nth self.now at).1 }
    {
        let spot = self.spots[at];
        &self.bytes.as_slice()[spot.row..spot.end]
    }

    /// Compares the place there with another.
    #[inline(always)]
    pub fn compare(&self, at: usize, place: &Place) -> Ordering
        requires { at < length self.now }
        ensures { result ≡ place_cmp (nth self.now at).0 place.now }
    {
        let spot = self.spots[at];
        let here = Place {
            table: spot.table,
            key: self.key(at),
            head: spot.head,
        };
        here.compare(place)
    }

    /// The key of the first row, or none.
    fn first_key(&self) -> &[u8]
        ensures { result.now ≡ (nth self.now 0).0.1 }
    {
        if self.spots.is_empty() {
            &[]
        } else {
            self.key(0)
        }
    }

    /// Compares the first place with another; where there is none, an empty key of table 0. It reads no list unless the heads
    /// are equal.
    #[inline(always)]
    pub fn compare_first(&self, place: &Place) -> Ordering
        ensures { result ≡ place_cmp (nth self.now 0).0 place.now }
    {
        match self.front.table.cmp(&place.table) {
            Ordering::Equal => match self.front.head.cmp(&place.head) {
                Ordering::Equal => {
                    compare_keys(self.front.head, self.first_key(), place.head, place.key)
                }
                apart => apart,
            },
            apart => apart,
        }
    }

    /// Between which two positions a place stands or would stand, not before `from`, in steps that double.
    #[inline(always)]
    fn reach(&self, from: usize, place: &Place) -> (usize, usize)
        requires { from ≤ length self.now }
        ensures order { (from ≤ result.0) × (result.0 ≤ result.1) × (result.1 ≤ length self.now) }
        ensures between { IsPlaceBetween self.now from result.0 result.1 place.now }
    {
        let mut low = from;
        let mut high = from;
        while high < self.len() && self.compare(high, place).is_lt() {
            low = high + 1;
            high = low.saturating_add(high - from).min(self.len());
        }
        (low, high)
    }

    /// Between which two positions a place stands or would stand, not behind `to`, in steps that double.
    #[inline(always)]
    fn reach_back(&self, to: usize, place: &Place) -> (usize, usize)
        requires to { to < length self.now }
        requires behind { is_lt (place_cmp (nth self.now to).0 place.now) ≡ false }
        ensures order { (result.0 ≤ result.1) × (result.1 ≤ length self.now) }
        ensures between { IsPlaceBetween self.now 0 result.0 result.1 place.now }
    {
        let mut high = to;
        let mut step = 1;
        while step <= high {
            let low = high - step;
            if self.compare(low, place).is_lt() {
                return (low + 1, high);
            }
            high = low;
            step = step.saturating_mul(2);
        }
        (0, high)
    }

    /// Where a place stands or would stand of which this is known, in halves.
    #[inline(always)]
    fn settle(&self, from: usize, reached: (usize, usize), place: &Place) -> usize
        requires order { (from ≤ reached.0) × (reached.0 ≤ reached.1) × (reached.1 ≤ length self.now) }
        requires between { IsPlaceBetween self.now from reached.0 reached.1 place.now }
        ensures bound { (from ≤ result) × (result ≤ length self.now) }
        ensures found { IsPlaceFor self.now from result place.now }
    {
        let (mut low, mut high) = reached;
        while low < high {
            let middle = low + (high - low) / 2;
            if self.compare(middle, place).is_lt() {
                low = middle + 1;
            } else {
                high = middle;
            }
        }
        low
    }

    /// Where a place stands or would stand, not before `from`. It takes the logarithm of the way from there.
    fn search(&self, from: usize, place: &Place) -> usize
        requires { from ≤ length self.now }
        ensures bound { (from ≤ result) × (result ≤ length self.now) }
        ensures found { IsPlaceFor self.now from result place.now }
    {
        let reached = self.reach(from, place);
        self.settle(from, reached, place)
    }

    /// Where a place stands or would stand, not before `from`, and where the leaf goes on behind it.
    #[inline(always)]
    pub(crate) fn pass(&self, from: usize, place: &Place) -> (usize, usize)
        requires { from ≤ length self.now }
        ensures bound { (from ≤ result.0) × (result.0 ≤ length self.now) }
        ensures found { IsPlaceFor self.now from result.0 place.now }
        ensures behind { IsBehind self.now result.0 place.now result.1 }
    {
        if from == self.len() {
            return (from, from);
        }
        match self.compare(from, place) {
            Ordering::Less => {
                let at = self.search(from + 1, place);
                (at, self.behind(at, place))
            }
            Ordering::Equal => (from, from + 1),
            Ordering::Greater => (from, from),
        }
    }

    /// Where a place stands or would stand. It is looked for from `near` on first.
    #[inline(always)]
    fn search_near(&self, near: usize, place: &Place) -> usize
        requires { T (is_sorted place_cmp self.now) }
        ensures bound { result ≤ length self.now }
        ensures found { IsPlaceFor self.now 0 result place.now }
    {
        if near == 0 || self.len() < near {
            return self.settle(0, (0, self.len()), place);
        }
        match self.compare(near - 1, place) {
            Ordering::Less => self.search(near, place),
            Ordering::Equal => near - 1,
            Ordering::Greater => {
                let reached = self.reach_back(near - 1, place);
                self.settle(0, reached, place)
            }
        }
    }

    /// Where the leaf goes on behind a place, which stands or would stand at `at`.
    #[inline(always)]
    fn behind(&self, at: usize, place: &Place) -> usize
        requires { at ≤ length self.now }
        ensures { IsBehind self.now at place.now result }
    {
        if at < self.len() && self.compare(at, place) == Ordering::Equal {
            at + 1
        } else {
            at
        }
    }

    /// The row at a place, if there is one, and where a look-up of a place behind it may begin. It is looked for from `near` on
    /// first.
    #[inline(always)]
    pub fn look_up(&self, near: usize, place: &Place) -> (Option<&[u8]>, usize)
        requires { T (is_sorted place_cmp self.now) }
        ensures { option_map (λ row. row.now) result.0 ≡ find place_cmp place.now self.now }
    {
        let at = self.search_near(near, place);
        if at < self.len() && self.compare(at, place).is_eq() {
            (Some(self.row(at)), at + 1)
        } else {
            (None, at)
        }
    }

    /// Nearly how many of `count` are before a place, if they are spread evenly between the first place here and that of another
    /// leaf. It is `None` where these are not of its table. It says where to begin to look, and is no part of a result.
    #[inline(always)]
    pub fn share_before(&self, other: &Leaf, count: usize, place: &Place) -> Option<usize> {
        if self.front.table != place.table || other.front.table != place.table {
            return None;
        }
        let all = other.front.head.saturating_sub(self.front.head);
        let part = place.head.saturating_sub(self.front.head);
        Some(share(count, part, all))
    }

    /// Appends a row. At `Err` nothing has changed.
    #[inline(always)]
    pub(crate) fn push(&mut self, place: &Place, row: &[u8]) -> Result<(), AllocError>
        ensures { OnOk result (self.new ≡ self.old ++ (place.now, row.now) ∷ []) }
    {
        let held = self.bytes.len();
        let rows = self.spots.len();
        put(&mut self.bytes, &mut self.spots, place, row)?;
        note_front(&mut self.front, self.spots.as_slice(), rows);
        self.used += self.bytes.len() - held;
        Ok(())
    }

    /// Appends rows of a leaf from one place on, up to another: those that stand one behind another in its bytes. It answers where
    /// the leaf goes on. At `Err` nothing has changed.
    fn push_run(&mut self, leaf: &Leaf, from: usize, to: usize) -> Result<usize, AllocError>
        requires { (from < to) × (to ≤ length leaf.now) }
        ensures bound { IfOk result (λ next. (from < next) × (next ≤ to)) }
        ensures pushed { IfOk result (λ next. self.new ≡ self.old ++ slice_range leaf.now from next) }
    {
        let held = self.bytes.len();
        let rows = self.spots.len();
        let run = run_from(leaf.spots.as_slice(), from, to);
        put_run(
            &mut self.bytes,
            &mut self.spots,
            leaf.bytes.as_slice(),
            &leaf.spots.as_slice()[from..run.to],
            run.start,
            run.end,
        )?;
        note_front(&mut self.front, self.spots.as_slice(), rows);
        self.used += self.bytes.len() - held;
        Ok(run.to)
    }

    /// Appends the rows of a leaf from one place up to another.
    #[inline(always)]
    pub fn push_rows(&mut self, leaf: &Leaf, from: usize, to: usize) -> Result<(), AllocError>
        requires { (from ≤ to) × (to ≤ length leaf.now) }
        ensures { OnOk result (self.new ≡ self.old ++ slice_range leaf.now from to) }
    {
        let mut at = from;
        while at < to {
            at = self.push_run(leaf, at, to)?;
        }
        Ok(())
    }

    /// How many bytes the row there takes with its key, where there is one.
    #[inline(always)]
    fn size_if(&self, is_there: bool, at: usize) -> usize
        requires { is_there ≡ true → at < length self.now }
        ensures value { result ≡ (if is_there then size_of (nth self.now at) else 0) }
        ensures bound { result ≤ bytes_of self.now }
    {
        if is_there {
            self.key(at).len() + self.row(at).len()
        } else {
            0
        }
    }

    /// Prepares an edit of this leaf in place, whose place is looked for from `near` on first. It takes all the memory that the
    /// edit needs. Where that is refused, or rows that are gone would come to take more than half of the bytes, the leaf comes
    /// back.
    #[inline(always)]
    pub(crate) fn amend(
        self,
        near: usize,
        place: &Place,
        edit: &PlaceEdit<'_>,
    ) -> Result<Amendment, Unamended>
        requires sorted { T (is_sorted place_cmp self) }
        requires place { place.now ≡ store_place edit.now }
        ensures before { IfOk result (λ amendment. amendment.0 ≡ self) }
        ensures after { IfOk result (λ amendment. amendment.1 ≡ edited self edit.now) }
        ensures err { IfErr result (λ unamended. unamended.leaf ≡ self) }
    {
        let at = self.search_near(near, place);
        let is_there = self.behind(at, place) > at;
        let gone = self.size_if(is_there, at);
        let Leaf {
            front,
            bytes,
            spots,
            used,
        } = self;
        let mut bytes = bytes;
        let mut spots = spots;
        let held = bytes.len();
        let spot_edit = spot_edit_of(&mut bytes, &mut spots, place, is_there, edit.body());
        let Ok(spot_edit) = spot_edit else {
            return Err(given_back(front, bytes, spots, used, Why::NoMemory));
        };
        let Some(used_after) = used_if_tight(used, gone, held, bytes.len()) else {
            bytes.truncate(held);
            return Err(given_back(front, bytes, spots, used, Why::TooLoose));
        };
        Ok(Amendment {
            front,
            bytes,
            spots,
            used,
            held,
            used_after,
            at,
            spot_edit,
        })
    }
}

/// Why an edit isn't made in place: memory was refused, or rows that are gone would come to take more than half of the bytes.
#[derive(Clone, Copy)]
pub enum Why {
    NoMemory,
    TooLoose,
}

/// A leaf as it was before an edit of it that wasn't prepared.
#[derive(Drop)]
pub struct Unamended {
    pub leaf: Leaf,
    pub why: Why,
}

/// How many bytes rows take once so many of `used` are gone and those behind `held` have come. It is `None` where that is
/// less than half of all that there are then.
#[inline(always)]
fn used_if_tight(used: usize, gone: usize, held: usize, len: usize) -> Option<usize>
    requires { (gone ≤ used) × (used ≤ held) × (held ≤ len) }
    ensures counted { IfSome result (λ after. after + gone + held ≡ used + len) }
    ensures tight { IfSome result (λ after. (after ≤ len) × (len ≤ 2 * after)) }
{
    let after = used - gone + (len - held);
    if len - after > after {
        None
    } else {
        Some(after)
    }
}

/// The leaf of these parts, and why no edit of it was prepared.
fn given_back(front: Front, bytes: Vec<u8>, spots: Vec<Spot>, used: usize, why: Why) -> Unamended
    requires { IsPacked front bytes.items spots.items used }
    ensures { result.leaf ≡ entries_at bytes.items spots.items }
{
    Unamended {
        leaf: Leaf {
            front,
            bytes,
            spots,
            used,
        },
        why,
    }
}

/// What an edit does to the spots: it sets the row at its place, adds one, removes the one there, or finds none to remove.
#[derive(Clone, Copy)]
enum SpotEdit {
    Set(Spot),
    Add(Spot),
    Remove,
    Stay,
}

/// Takes the memory that an edit needs, appends the bytes of its row, and answers what is to be done at its place. At `Err`
/// nothing has changed.
#[inline(always)]
fn spot_edit_of(
    bytes: &mut Vec<u8>,
    spots: &mut Vec<Spot>,
    place: &Place,
    is_there: bool,
    body: Option<&[u8]>,
) -> Result<SpotEdit, AllocError>
    ensures behind { (more : List ℕ) × (bytes.new.items ≡ bytes.old.items ++ more) }
    ensures same { spots.new.items ≡ spots.old.items }
    ensures spot_edit { IfOk result (λ spot_edit. IsSpotEditFor place.now (option_map (λ row. row.now) body.entry) is_there bytes.new.items spot_edit) }
    ensures room { IfOk result (λ spot_edit. HasRoomFor spots.new spot_edit) }
    ensures len { OnOk result (length bytes.new.items ≡ length bytes.old.items + bytes_of (written place.now (option_map (λ row. row.now) body.entry))) }
    ensures err { OnErr result (bytes.new.items ≡ bytes.old.items) }
{
    match body {
        None if is_there => Ok(SpotEdit::Remove),
        None => Ok(SpotEdit::Stay),
        Some(row) => {
            if is_there {
                return Ok(SpotEdit::Set(add_row(bytes, place, row)?));
            }
            spots.reserve(1)?;
            Ok(SpotEdit::Add(add_row(bytes, place, row)?))
        }
    }
}

/// A leaf and an edit of it that is prepared: neither to make it nor to leave it takes memory. Contracts see the rows before it
/// and after it. `held` is how many bytes the leaf had before, and `used_after` how many of them are used after.
#[derive(Drop)]
pub struct Amendment {
    front: Front,
    bytes: Vec<u8>,
    spots: Vec<Spot>,
    used: usize,
    held: usize,
    used_after: usize,
    at: usize,
    spot_edit: SpotEdit,
}

impl Model for Amendment {
    ghost use Rattle.std.specs.Prelude.{List, length, take};
    ghost use Rattle.cs_leaf.specs.Entries.{Entry, IsSpotEditAt, IsSpotEditIn, IsPacked, IsTight, HasRoomFor, entries_at, spots_after};

    ghost Value = { List Entry × List Entry };

    ghost view = { λ a. (entries_at (take a.held a.bytes.items) a.spots.items, entries_at a.bytes.items (spots_after a.spots.items a.at a.spot_edit)) };

    // Before it as after it rows take at least half of the bytes.
    ghost invariant = { λ a. IsPacked a.front (take a.held a.bytes.items) a.spots.items a.used × IsSpotEditIn a.bytes.items a.spot_edit × IsSpotEditAt (length a.spots.items) a.at a.spot_edit × HasRoomFor a.spots a.spot_edit × IsTight a.used_after (length a.bytes.items) (entries_at a.bytes.items (spots_after a.spots.items a.at a.spot_edit)) };
}

impl Amendment {
    /// The leaf without the edit.
    #[inline(always)]
    pub fn leave(self) -> Leaf
        ensures { result ≡ self.0 }
    {
        let Amendment {
            front,
            bytes,
            spots,
            used,
            held,
            ..
        } = self;
        let mut bytes = bytes;
        bytes.truncate(held);
        Leaf {
            front,
            bytes,
            spots,
            used,
        }
    }

    /// The leaf with the edit.
    #[inline(always)]
    pub fn make(self) -> Leaf
        ensures { result ≡ self.1 }
    {
        let Amendment {
            front,
            bytes,
            spots,
            used_after,
            at,
            spot_edit,
            ..
        } = self;
        let mut front = front;
        let mut spots = spots;
        edit_spots(&mut spots, at, spot_edit);
        note_front(&mut front, spots.as_slice(), at);
        Leaf {
            front,
            bytes,
            spots,
            used: used_after,
        }
    }
}

/// Makes an edit of spots.
#[inline(always)]
fn edit_spots(spots: &mut Vec<Spot>, at: usize, spot_edit: SpotEdit)
    requires at { IsSpotEditAt (length spots.old.items) at spot_edit }
    requires room { HasRoomFor spots.old spot_edit }
    ensures { spots.new.items ≡ spots_after spots.old.items at spot_edit }
{
    match spot_edit {
        SpotEdit::Set(spot) => {
            spots[at] = spot;
        }
        SpotEdit::Add(spot) => {
            let _ = spots.insert(at, spot);
        }
        SpotEdit::Remove => {
            let _ = spots.remove(at);
        }
        SpotEdit::Stay => {}
    }
}
