//! A table's changes in normal form that stay in the bytes where they were read.

ghost use Rattle.std.specs.Prelude.{◌≡◌, ◌≢◌, ◌<◌, [], IfOk, MatchBool, MatchOption, Some, length, map, slice_index};
ghost use Rattle.std.specs.List.{All};
ghost use Rattle.std.specs.Map.{keys_of};
ghost use Rattle.cs_order.specs.Order.{key_at};
ghost use Rattle.cs_normal.specs.keyed.Keyed.{beside};
ghost use Rattle.cs_normal.specs.keyed.NormalForm.{normal_form};
ghost use Rattle.cs_normal.specs.keyed.Prepared.{kept};
ghost use Rattle.cs_normalising.specs.Steps.Lent.{entries_at, entries_of, ordered_entries, AreBeside, IsOrderedBy};
ghost use Rattle.cs_normalising.specs.Lent.{nth_entry};

use crate::key_order::KeyOrder;
use crate::lent_list::LentList;
use crate::written_forms::write_forms;
use cs_change::{Change, ChangesBuf, Scratch};
use cs_normal::TableChanges;
use cs_normal::keyed::{KeyedChanges, is_normal, lend_form};
use cs_order::{Keys, PickedKeys};
use cs_value::{Marks, Memory, Text};
use std::alloc::Global;
use std::marker::Model;

/// A table's changes as read, the key of each, and the order of the keys.
#[derive(Drop)]
pub(crate) struct Ordered<'b, 'a> {
    pub changes: LentList<'b, 'a>,
    pub keys: Keys,
    pub order: KeyOrder,
}

/// A table's changes in normal form, which stay in the bytes where they were read. Each is brought into its normal form
/// where it is asked for. Contracts see the normal forms behind their keys, in the order of these.
#[derive(Drop)]
pub struct LentTable<'b, 'a> {
    name: Text,
    marks: Marks,
    lent: Ordered<'b, 'a>,
}

impl<'b, 'a> Model for LentTable<'b, 'a> {
    ghost use Rattle.cs_normalising.specs.Lent.{LentForm};
    ghost use Rattle.cs_normalising.specs.Steps.Lent.{ordered_entries, IsOrderedBy};

    ghost Value = { LentForm };

    ghost view = { λ table. record { name = table.name; marks = table.marks; entries = ordered_entries table.marks table.lent } };

    ghost invariant = { λ table. IsOrderedBy table.marks table.lent };
}

/// The change there in the order of the keys, as it was read.
#[inline(always)]
fn change_at<'b, 'a>(marks: &[bool], lent: &'b Ordered<'_, 'a>, at: usize) -> &'b Change<'a>
    requires lent { IsOrderedBy marks.now lent.now }
    requires there { at < length lent.now.order }
    ensures { (nth_entry (ordered_entries marks.now lent.now) at).1 ≡ normal_form marks.now result.now }
{
    &lent.changes.as_slice()[lent.order.place(at)]
}

/// The normal form of the change there in the order of the keys, if one is left.
#[inline(always)]
fn form_at<'b>(
    marks: &[bool],
    lent: &'b Ordered<'_, '_>,
    at: usize,
    scratch: &mut Scratch,
    room: &'b mut ChangesBuf,
) -> Result<Option<Change<'b>>, Memory>
    requires lent { IsOrderedBy marks.now lent.now }
    requires there { at < length lent.now.order }
    ensures { IfOk result (λ form. form ≡ (nth_entry (ordered_entries marks.now lent.now) at).1) }
{
    lend_form(marks, change_at(marks, lent, at).again(), scratch, room)
}

/// The change there in the order of the keys, where it is found to be its own normal form.
#[inline(always)]
fn normal_at<'b, 'a>(marks: &[bool], lent: &'b Ordered<'_, 'a>, at: usize) -> Option<&'b Change<'a>>
    requires lent { IsOrderedBy marks.now lent.now }
    requires there { at < length lent.now.order }
    ensures { MatchOption result (Unit {0})
        (λ change. (nth_entry (ordered_entries marks.now lent.now) at).1 ≡ Some change.now) }
{
    let change = change_at(marks, lent, at);
    if is_normal(marks, change) {
        return Some(change);
    }
    None
}

/// Whether a change is left in its normal form.
pub(crate) fn is_left(alloc: Global, marks: &[bool], lent: &Ordered<'_, '_>) -> Result<bool, Memory>
    requires { IsOrderedBy marks.now lent.now }
    ensures { IfOk result (λ left. MatchBool left (kept (ordered_entries marks.now lent.now) ≢ [])
        (kept (ordered_entries marks.now lent.now) ≡ [])) }
{
    let mut scratch = Scratch::new(alloc);
    let mut room = ChangesBuf::new(alloc);
    for at in 0..lent.order.len() {
        if form_at(marks, lent, at, &mut scratch, &mut room)?.is_some() {
            return Ok(true);
        }
    }
    Ok(false)
}

/// The keys at these places in the order of the keys, in the bytes where all were gathered.
fn pick_keys(alloc: Global, keys: Keys, order: &KeyOrder, places: &[usize]) -> Result<Keys, Memory>
    requires { All (λ at. at < length order.now) places.now }
    ensures { IfOk result (λ picked. picked ≡ map (λ at. key_at keys (slice_index order.now at)) places.now) }
{
    let mut picked = PickedKeys::of_keys(alloc, keys, places.len())?;
    for at in places {
        picked.push(order.place(*at))?;
    }
    Ok(picked.finish())
}

impl<'b, 'a> LentTable<'b, 'a> {
    ghost use Rattle.std.specs.Prelude.{◌≡◌, ◌<◌, IfOk, MatchOption, Some, length, map, slice_index_or};
    ghost use Rattle.std.specs.List.{All};
    ghost use Rattle.std.specs.Map.{keys_of};
    ghost use Rattle.cs_order.specs.Order.{key_at};
    ghost use Rattle.cs_normal.specs.keyed.Keyed.{beside};
    ghost use Rattle.cs_normal.specs.keyed.NormalForm.{normal_form};
    ghost use Rattle.cs_normalising.specs.Lent.{nth_entry, table_of};
    ghost use Rattle.cs_normalising.specs.Steps.Lent.{ordered_entries, IsOrderedBy};

    /// The table with this name and these key columns.
    pub(crate) fn of_parts(name: Text, marks: Marks, lent: Ordered<'b, 'a>) -> LentTable<'b, 'a>
        requires { IsOrderedBy marks lent }
        ensures { result ≡ record { name = name; marks = marks; entries = ordered_entries marks lent.entry } }
    {
        LentTable { name, marks, lent }
    }

    /// The table's name.
    pub fn name(&self) -> &str
        ensures { result.now ≡ self.now.name }
    {
        self.name.as_str()
    }

    /// The key columns.
    pub fn marks(&self) -> &[bool]
        ensures { result.now ≡ self.now.marks }
    {
        self.marks.as_slice()
    }

    /// How many keys there are. It takes no memory.
    pub fn len(&self) -> usize
        ensures { result ≡ length self.now.entries }
    {
        self.lent.order.len()
    }

    /// The bytes of the key there, in the order of the keys.
    #[inline(always)]
    pub fn key(&self, at: usize) -> &[u8]
        requires { at < length self.now.entries }
        ensures { result.now ≡ (nth_entry self.now.entries at).0 }
    {
        self.lent.keys.get(self.lent.order.place(at))
    }

    /// The change there, in the order of the keys, as it was read; what stands for it in the table is its normal form.
    #[inline(always)]
    pub fn as_read(&self, at: usize) -> &Change<'a>
        requires { at < length self.now.entries }
        ensures { (nth_entry self.now.entries at).1 ≡ normal_form self.now.marks result.now }
    {
        change_at(self.marks.as_slice(), &self.lent, at)
    }

    /// The change there, in the order of the keys, lent where it was read, if it is found to be its own normal form. Else `None`,
    /// and `form` brings it into that.
    #[inline(always)]
    pub fn normal(&self, at: usize) -> Option<&Change<'a>>
        requires { at < length self.now.entries }
        ensures { MatchOption result (Unit {0})
            (λ change. (nth_entry self.now.entries at).1 ≡ Some change.now) }
    {
        normal_at(self.marks.as_slice(), &self.lent, at)
    }

    /// The normal form of the change there, in the order of the keys, if one is left. It is the change itself, in the bytes
    /// where it was read, where that is in normal form already. Else it is made in the room, in place of what is there.
    #[inline(always)]
    pub fn form<'c>(
        &'c self,
        at: usize,
        scratch: &mut Scratch,
        room: &'c mut ChangesBuf,
    ) -> Result<Option<Change<'c>>, Memory>
        requires { at < length self.now.entries }
        ensures { IfOk result (λ form. form ≡ (nth_entry self.now.entries at).1) }
    {
        form_at(self.marks.as_slice(), &self.lent, at, scratch, room)
    }

    /// No change, with room for as many as these.
    pub fn room(&self, alloc: Global) -> Result<ChangesBuf, Memory>
        ensures { IfOk result (λ made. made ≡ []) }
    {
        ChangesBuf::with_room_for(alloc, self.lent.changes.as_slice())
    }

    /// The table with these changes in place of its own, behind its keys there, which stay in the bytes where they were
    /// gathered.
    pub fn with_changes(
        self,
        alloc: Global,
        places: &[usize],
        changes: ChangesBuf,
    ) -> Result<TableChanges, Memory>
        requires within { All (λ at. at < length self.entries) places.now }
        requires as_many { length places.now ≡ length changes }
        ensures { IfOk result (λ table. table ≡ record {
          name = self.entry.name;
          marks = self.entry.marks;
          changes = beside (map (key_at (keys_of self.entry.entries)) places.now) changes;
        }) }
    {
        let LentTable { name, marks, lent } = self;
        let Ordered { keys, order, .. } = lent;
        let keys = pick_keys(alloc, keys, &order, places)?;
        Ok(TableChanges {
            name,
            marks,
            changes: KeyedChanges::from_parts(keys, changes),
        })
    }

    /// The table in bytes of its own.
    pub fn written(self, alloc: Global) -> Result<TableChanges, Memory>
        ensures { IfOk result (λ table. table ≡ table_of self.entry) }
    {
        let LentTable { name, marks, lent } = self;
        let Ordered {
            changes,
            keys,
            order,
        } = lent;
        let changes = write_forms(alloc, marks.as_slice(), keys, changes.as_slice(), &order)?;
        Ok(TableChanges {
            name,
            marks,
            changes,
        })
    }
}
