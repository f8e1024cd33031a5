//! Edits of rows and of pending changes in the making.

ghost use Rattle.std.specs.Prelude.{◌≡◌, ◌↔◌, ◌<◌, ◌||◌, not, true, ℕ, List, [], Some, is_some, length, slice_get, option_map, IfOk, IsTrue, OnOk};
ghost use Rattle.std.specs.Option.{option_copied};
ghost use Rattle.cs_value.specs.Catalog.{AreTables};
ghost use Rattle.cs_value.specs.declared.catalog.TableDef.{TableDef as Table};
ghost use Rattle.cs_value.specs.Same.{same_place};
ghost use Rattle.cs_record.specs.Spelling.{row_bytes};
ghost use Rattle.cs_change.specs.Spelling.{change_spelling};
ghost use Rattle.cs_normal.specs.State.{MayStandAt};
ghost use Rattle.cs_store.specs.Contents.{Contents};
ghost use Rattle.cs_pending.specs.Placing.{StandsIn, standing_of};
ghost use Rattle.cs_pending.specs.Settling.{IsPushed, IsWithin, Settles, recount};
ghost use Rattle.cs_pending.specs.View.{View, direct_net, settled};

use crate::places::{are_same, lent, lent_body, net_body, row_body};
use crate::placing::{RowPlace, Standing};
use cs_record::Row;
use cs_store::edits::{PlaceEdit, PlaceEdits};
use cs_value::Memory;
use std::alloc::{AllocError, Global};

/// Edits of rows and of pending changes in the making, place by place, for one commit; and how many changes are pending after
/// them.
#[derive(Drop)]
pub struct Settling {
    /// Edits of rows, in order.
    pub rows: PlaceEdits,
    /// Edits of pending changes, in order.
    pub pending: PlaceEdits,
    /// How many changes are pending after them.
    pub count: u64,
}

/// Appends an edit of a place.
fn push_edit(
    edits: &mut PlaceEdits,
    place: &RowPlace<'_>,
    body: Option<&[u8]>,
) -> Result<(), Memory>
    ensures { OnOk result (IsPushed true place.now.number place.now.key.now (option_map (λ set. set.now) body.entry) edits.old edits.new) }
{
    edits.push(&PlaceEdit::new(place.number, place.key, body))
}

/// Appends the edit of a row, where another row or none stood.
fn push_row(
    edits: &mut PlaceEdits,
    place: &RowPlace<'_>,
    stood: Option<&Row<'_>>,
    mine: Option<&Row<'_>>,
) -> Result<(), Memory>
    ensures { OnOk result (IsPushed (not (same_place (option_copied stood.entry) (option_copied mine.entry)))
        place.now.number place.now.key.now (option_map row_bytes (option_copied mine.entry)) edits.old edits.new) }
{
    if are_same(stood, mine) {
        return Ok(());
    }
    push_edit(edits, place, row_body(mine))
}

/// Appends the edit of a pending change, where one was pending or is. It answers whether one is.
fn push_pending(
    edits: &mut PlaceEdits,
    alloc: Global,
    place: &RowPlace<'_>,
    was: bool,
    base: Option<&Row<'_>>,
    mine: Option<&Row<'_>>,
) -> Result<bool, Memory>
    ensures is { IfOk result (λ is. is ≡ is_some (direct_net place.now.table.now (option_copied base.entry) (option_copied mine.entry))) }
    ensures pushed { IfOk result (λ is. IsPushed (was || is) place.now.number place.now.key.now
        (option_map change_spelling (direct_net place.now.table.now (option_copied base.entry) (option_copied mine.entry))) edits.old edits.new) }
{
    let body = net_body(alloc, place.table, base, mine)?;
    let is = body.is_some();
    if !was && !is {
        return Ok(false);
    }
    match push_edit(edits, place, lent_body(&body)) {
        Ok(()) => Ok(is),
        Err(fault) => Err(fault),
    }
}

/// A count, less one where a change was pending, and one more where one is.
fn counted(count: u64, was: bool, is: bool) -> Result<u64, Memory>
    ensures { IfOk result (λ left. left ≡ recount count was is) }
{
    let less = if was { count.saturating_sub(1) } else { count };
    if !is {
        return Ok(less);
    }
    match less.checked_add(1) {
        Some(more) => Ok(more),
        None => Err(AllocError),
    }
}

impl Settling {
    /// No edits, where so many changes are pending. It takes no memory.
    pub fn new(alloc: Global, count: u64) -> Settling
        ensures rows { result.rows ≡ [] }
        ensures pending { result.pending ≡ [] }
        ensures count { result.count ≡ count }
    {
        Settling {
            rows: PlaceEdits::new(alloc),
            pending: PlaceEdits::new(alloc),
            count,
        }
    }

    /// Whether there is no edit.
    pub(crate) fn is_empty(&self) -> bool
        ensures { IsTrue result ↔ ((self.now.rows ≡ []) × (self.now.pending ≡ [])) }
    {
        self.rows.len() == 0 && self.pending.len() == 0
    }

    /// A place settled: there stands `mine`, and what is pending is the net change from `base` to it. What stood there before this
    /// is `before`. A row or a pending change that stays as it is has no edit. An `Err` may leave a part of it there.
    pub fn settle(
        &mut self,
        alloc: Global,
        place: &RowPlace<'_>,
        before: &Standing,
        base: Option<&Row<'_>>,
        mine: Option<&Row<'_>>,
    ) -> Result<(), Memory>
        ensures within { (tables : List Table) → place.now.number < length tables → IsWithin tables self.old → OnOk result (IsWithin tables self.new) }
        ensures settled { (tables : List Table) (contents : Contents) (begun : ℕ) (view : View)
            → AreTables tables
            → slice_get tables place.now.number ≡ Some place.now.table.now
            → MayStandAt tables place.now.table.now.name place.now.key.now (option_copied base.entry)
            → MayStandAt tables place.now.table.now.name place.now.key.now (option_copied mine.entry)
            → StandsIn view place.now.table.now place.now.key.now before.now
            → Settles tables contents begun self.old view
            → OnOk result (Settles tables contents begun self.new
            (settled place.now.table.now place.now.key.now (option_copied base.entry) (option_copied mine.entry) view)) }
    {
        let stood = lent(&before.mine);
        let stood_base = lent(&before.base);
        self.settle_at(
            alloc,
            place,
            stood.as_ref(),
            stood_base.as_ref(),
            base,
            mine,
        )
    }

    /// As `settle`, where the rows that stood there before this are lent apart.
    pub(crate) fn settle_at(
        &mut self,
        alloc: Global,
        place: &RowPlace<'_>,
        stood: Option<&Row<'_>>,
        stood_base: Option<&Row<'_>>,
        base: Option<&Row<'_>>,
        mine: Option<&Row<'_>>,
    ) -> Result<(), Memory>
        ensures within { (tables : List Table) → place.now.number < length tables → IsWithin tables self.old → OnOk result (IsWithin tables self.new) }
        ensures settled { (tables : List Table) (contents : Contents) (begun : ℕ) (view : View)
            → AreTables tables
            → slice_get tables place.now.number ≡ Some place.now.table.now
            → MayStandAt tables place.now.table.now.name place.now.key.now (option_copied base.entry)
            → MayStandAt tables place.now.table.now.name place.now.key.now (option_copied mine.entry)
            → StandsIn view place.now.table.now place.now.key.now (standing_of (option_copied stood.entry) (option_copied stood_base.entry))
            → Settles tables contents begun self.old view
            → OnOk result (Settles tables contents begun self.new
            (settled place.now.table.now place.now.key.now (option_copied base.entry) (option_copied mine.entry) view)) }
    {
        cs_value::laws::catalogs();
        cs_normal::laws::one_key_stands();
        cs_change::laws::net_takes();
        cs_store::laws::commits();
        let was = !are_same(stood_base, stood);
        push_row(&mut self.rows, place, stood, mine)?;
        let is = push_pending(&mut self.pending, alloc, place, was, base, mine)?;
        self.count = counted(self.count, was, is)?;
        Ok(())
    }
}
