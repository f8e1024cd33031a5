//! The values by name of a `MapStore`. A commit first makes a slot for each key that it sets, with nothing in it, which shows
//! nothing new; what follows takes no memory.

ghost use Rattle.std.specs.Prelude.{◌≡◌, ◌+◌, ◌++◌, ◌≤◌, ◌<◌, List, [], ◌∷◌, length, map, fold, IfOk, OnOk, IsSome};
ghost use Rattle.std.specs.Vec.{vec_len, vec_capacity};
ghost use Rattle.std.specs.List.{All};
ghost use Rattle.std.specs.FinMap as finite;
ghost use Rattle.std.specs.BTreeMap.{get, get_by};
ghost use Rattle.cs_store.specs.Written.{optional_bytes, with_body};
ghost use Rattle.cs_map_store.specs.Slots.{SlotKey, key_cmp, place_of, shown, write_to, meta_write};
ghost use Rattle.cs_map_store.specs.Steps.{step_write, step_keys, left_empty, is_empty_slot, HasSlots, HasSlot, IsEmptyOnlyAt};

use cs_store::{Batch, MetaEdit};
use std::alloc::{AllocError, Global};
use std::collections::BTreeMap;

/// A table's number and one, or 0 for meta, and the bytes of a key.
pub type SlotKey = (u64, Vec<u8>);

pub type Slots = BTreeMap<SlotKey, Option<Vec<u8>>>;

/// A copy of an edit of a batch.
#[derive(Drop)]
pub struct Step {
    key: SlotKey,
    value: Option<Vec<u8>>,
}

/// A copy of the bytes, if there are any.
fn copied(alloc: Global, value: &Option<Vec<u8>>) -> Result<Option<Vec<u8>>, AllocError>
    ensures { IfOk result (λ v. optional_bytes v ≡ optional_bytes value.now) }
{
    match value {
        Some(bytes) => Ok(Some(Vec::from_slice(alloc, bytes.as_slice())?)),
        None => Ok(None),
    }
}

/// Copies an edit of a value.
fn meta_step(alloc: Global, edit: &MetaEdit) -> Result<Step, AllocError>
    ensures { IfOk result (λ step. step_write step ≡ meta_write edit.now) }
{
    Ok(Step {
        key: (0, Vec::from_slice(alloc, edit.name.text().as_bytes())?),
        value: copied(alloc, &edit.value)?,
    })
}

/// Copies of the edits of values.
pub fn steps_of(alloc: Global, batch: &Batch) -> Result<Vec<Step>, AllocError>
    ensures { IfOk result (λ steps. map step_write steps.items ≡ map meta_write batch.now.meta.items) }
{
    let mut steps = Vec::new(alloc);
    for edit in &batch.meta {
        steps.push(meta_step(alloc, edit)?)?;
    }
    Ok(steps)
}

/// What the map shows at a key.
pub fn read_slot(alloc: Global, slots: &Slots, key: &SlotKey) -> Result<Option<Vec<u8>>, AllocError>
    ensures { IfOk result (λ value. optional_bytes value ≡ finite.get (shown slots.now.entries) (place_of key.now)) }
{
    match slots.get(key) {
        Some(slot) => copied(alloc, slot),
        None => Ok(None),
    }
}

/// Makes a slot for the key, with nothing in it where it is new.
fn make_slot(alloc: Global, slots: &mut Slots, key: &SlotKey) -> Result<(), AllocError>
    ensures shown { shown slots.new.entries ≡ shown slots.old.entries }
    ensures kept { (k : SlotKey) → HasSlot slots.old k → HasSlot slots.new k }
    ensures ok { OnOk result (HasSlot slots.new key.now) }
    ensures empty { (ks : List SlotKey) → IsEmptyOnlyAt ks slots.old → IsEmptyOnlyAt (key.now ∷ ks) slots.new }
{
    if slots.contains_key(key) {
        return Ok(());
    }
    let own = Vec::from_slice(alloc, key.1.as_slice())?;
    slots.insert((key.0, own), None)?;
    Ok(())
}

/// Makes a slot for each key that is set.
pub fn make_slots(alloc: Global, slots: &mut Slots, steps: &[Step]) -> Result<(), AllocError>
    ensures shown { shown slots.new.entries ≡ shown slots.old.entries }
    ensures ok { OnOk result (HasSlots slots.new steps.now) }
    ensures empty { IsEmptyOnlyAt [] slots.old → IsEmptyOnlyAt (step_keys steps.now) slots.new }
{
    for step in steps {
        if step.value.is_some() {
            make_slot(alloc, slots, &step.key)?;
        }
    }
    Ok(())
}

/// Whether the key has a slot with nothing in it.
fn is_empty(slots: &Slots, key: &SlotKey) -> bool
    ensures { result ≡ is_empty_slot (get_by (key_cmp key.now) slots.now) }
{
    match slots.get(key) {
        Some(Some(_)) => false,
        Some(None) => true,
        None => false,
    }
}

/// Removes the key's slot, if there is nothing in it.
fn sweep_slot(slots: &mut Slots, key: &SlotKey)
    ensures shown { shown slots.new.entries ≡ shown slots.old.entries }
    ensures empty { (ks : List SlotKey) → IsEmptyOnlyAt (key.now ∷ ks) slots.old → IsEmptyOnlyAt ks slots.new }
{
    if is_empty(slots, key) {
        slots.remove(key);
    }
}

/// Removes the slots with nothing in them that the steps made.
pub fn sweep_steps(slots: &mut Slots, steps: &[Step])
    ensures shown { shown slots.new.entries ≡ shown slots.old.entries }
    ensures empty { IsEmptyOnlyAt (step_keys steps.now) slots.old → IsEmptyOnlyAt [] slots.new }
{
    for step in steps {
        sweep_slot(slots, &step.key);
    }
}

/// Removes the slots at these keys with nothing in them.
fn sweep_keys(slots: &mut Slots, keys: &[SlotKey])
    ensures shown { shown slots.new.entries ≡ shown slots.old.entries }
    ensures empty { IsEmptyOnlyAt keys.now slots.old → IsEmptyOnlyAt [] slots.new }
{
    for key in keys {
        sweep_slot(slots, key);
    }
}

/// Writes a slot that is there, or clears it.
fn write_slot(slots: &mut Slots, key: &SlotKey, value: Option<Vec<u8>>)
    requires { IsSome value → HasSlot slots.old key.now }
    ensures shown { shown slots.new.entries ≡ with_body (shown slots.old.entries) (place_of key.now) (optional_bytes value) }
    ensures kept { (k : SlotKey) → HasSlot slots.old k → HasSlot slots.new k }
    ensures empty { (ks : List SlotKey) → IsEmptyOnlyAt (key.now ∷ ks) slots.old
        → IsEmptyOnlyAt (left_empty value key.now ks) slots.new }
{
    if let Some(slot) = slots.get_mut(key) {
        *slot = value;
    }
}

/// Keeps the key, for which there is room.
fn note(keys: &mut Vec<SlotKey>, key: SlotKey)
    requires { vec_len keys.old < vec_capacity keys.old }
    ensures items { keys.new.items ≡ keys.old.items ++ key ∷ [] }
    ensures len { vec_len keys.new ≡ vec_len keys.old + 1 }
    ensures capacity { vec_capacity keys.old ≤ vec_capacity keys.new }
{
    let _ = keys.push(key);
}

/// Writes the steps in order, and removes the slots that they cleared, for whose keys `cleared` has room. It takes no memory.
pub fn write_steps(slots: &mut Slots, steps: Vec<Step>, mut cleared: Vec<SlotKey>)
    requires slots { HasSlots slots.old steps.items }
    requires none { cleared.items ≡ [] }
    requires room { vec_len cleared + length steps.items ≤ vec_capacity cleared }
    ensures shown { shown slots.new.entries ≡ fold write_to (shown slots.old.entries) (map step_write steps.items) }
    ensures empty { IsEmptyOnlyAt (step_keys steps.items) slots.old → IsEmptyOnlyAt [] slots.new }
{
    for step in steps {
        let Step { key, value } = step;
        let clears = value.is_none();
        write_slot(slots, &key, value);
        if clears {
            note(&mut cleared, key);
        }
    }
    sweep_keys(slots, cleared.as_slice());
}
