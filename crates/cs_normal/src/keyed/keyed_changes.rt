//! Changes that stay in their bytes, behind the bytes of their keys.

ghost use Rattle.std.specs.Prelude.{◌≡◌, ◌++◌, ◌∷◌, [], OnErr, OnOk, length};
ghost use Rattle.cs_normal.specs.keyed.Keyed.{beside};

use cs_change::{Change, ChangesBuf};
use cs_order::Keys;
use cs_record::Record;
use cs_value::Memory;
use std::alloc::{AllocError, Global};
use std::marker::Model;

/// Changes in the bytes that spell them, each behind the bytes of its key.
#[derive(Drop)]
pub struct KeyedChanges {
    keys: Keys,
    changes: ChangesBuf,
    ghost as_many: { length keys ≡ length changes },
}

/// Appends a key and a change. An `Err` leaves nothing.
#[tactic(auto, using(crate::proofs::KeyedLemmas::Beside::beside_more))]
fn put_both(
    keys: &mut Keys,
    changes: &mut ChangesBuf,
    key: &[u8],
    change: &Change<'_>,
) -> Result<(), Memory>
    requires { length keys.old ≡ length changes.old }
    ensures as_many { length keys.new ≡ length changes.new }
    ensures pushed { OnOk result (beside keys.new changes.new
        ≡ beside keys.old changes.old ++ (key.now, change.now) ∷ []) }
    ensures err { OnErr result (beside keys.new changes.new ≡ []) }
{
    let Ok(_) = keys.push(key) else {
        keys.clear();
        changes.clear();
        return Err(AllocError);
    };
    let Ok(_) = changes.push(change) else {
        keys.clear();
        changes.clear();
        return Err(AllocError);
    };
    Ok(())
}

impl Model for KeyedChanges {
    ghost use Rattle.std.specs.Prelude.{List, ℕ};
    ghost use Rattle.cs_change.specs.declared.change.Change.{Change as One};
    ghost use Rattle.cs_change.specs.declared.change.Change.TheVariants.{Update};
    ghost use Rattle.cs_normal.specs.keyed.Keyed.{beside};

    ghost Value = { List (List ℕ × One) };

    ghost view = { λ keyed. beside keyed.keys keyed.changes };
}

impl KeyedChanges {
    ghost use Rattle.std.specs.Prelude.{◌≡◌, ◌↔◌, ◌++◌, ◌∷◌, ◌<◌, [], length, IsTrue, IfOk, OnErr, OnOk, MatchOption, None, Some, slice_get, slice_index_or, slice_set};
    ghost use Rattle.std.specs.Map.{keys_of, values_of};
    ghost use Rattle.std.specs.List.{flat_map};
    ghost use Rattle.cs_change.specs.Spelling.{HasLength, change_spelling};
    ghost use Rattle.cs_change.specs.Then.{turned};
    ghost use Rattle.cs_change.specs.declared.change.Change.{Change as One};
    ghost use Rattle.cs_change.specs.declared.change.Change.TheVariants.{Update};
    ghost use Rattle.cs_normal.specs.keyed.Changes.{IsOrdered, change_at};
    ghost use Rattle.cs_normal.specs.keyed.Keyed.{beside};

    /// These changes behind these keys.
    #[inline(always)]
    pub fn from_parts(keys: Keys, changes: ChangesBuf) -> KeyedChanges
        requires { length keys ≡ length changes }
        ensures { result ≡ beside keys changes }
    {
        KeyedChanges { keys, changes }
    }

    /// The keys and the changes.
    #[inline(always)]
    pub fn parts(&self) -> (&Keys, &ChangesBuf)
        ensures keys { result.0.now ≡ keys_of self.now }
        ensures changes { result.1.now ≡ values_of self.now }
    {
        (&self.keys, &self.changes)
    }

    /// No change.
    pub fn new(alloc: Global) -> KeyedChanges
        ensures { result ≡ [] }
    {
        KeyedChanges::from_parts(Keys::new(alloc), ChangesBuf::new(alloc))
    }

    /// The same changes behind their keys, in memory of their own.
    pub fn copy(&self, alloc: Global) -> Result<KeyedChanges, Memory>
        ensures { IfOk result (λ copied. copied ≡ self.now) }
    {
        Ok(KeyedChanges {
            keys: self.keys.copy(alloc)?,
            changes: self.changes.copy(alloc)?,
        })
    }

    /// Whether two lists hold the same changes behind the same keys, their flags too.
    pub fn same(&self, other: &KeyedChanges) -> bool
        ensures { IsTrue result ↔ (self.now ≡ other.now) }
    {
        let (keys, changes) = self.parts();
        let (other_keys, other_changes) = other.parts();
        keys.same(other_keys) && changes.same(other_changes)
    }

    /// The change behind the key with these bytes, found by halves.
    pub fn find(&self, key: &[u8]) -> Option<Change<'_>>
        requires { IsOrdered self.now }
        ensures { result ≡ change_at key.now self.now }
    {
        match self.parts().0.find(key) {
            None => None,
            Some(at) => self.change(at),
        }
    }

    /// How many changes there are.
    #[inline(always)]
    pub fn len(&self) -> usize
        ensures { result ≡ length self.now }
    {
        self.parts().1.len()
    }

    /// The bytes of the key there.
    #[inline(always)]
    pub fn key(&self, at: usize) -> &[u8]
        requires { at < length self.now }
        ensures { result.now ≡ slice_index_or (keys_of self.now) at [] }
    {
        self.parts().0.get(at)
    }

    /// The change there.
    #[inline(always)]
    pub fn change(&self, at: usize) -> Option<Change<'_>>
        ensures { result ≡ slice_get (values_of self.now) at }
    {
        self.parts().1.get(at)
    }

    /// The key and the change there, if there is one.
    #[inline(always)]
    pub fn entry(&self, at: usize) -> Option<(&[u8], Change<'_>)>
        ensures { MatchOption result (slice_get self.now at ≡ None)
            (λ entry. slice_get self.now at ≡ Some (entry.0.now, entry.1)) }
    {
        match self.change(at) {
            None => None,
            Some(change) => Some((self.key(at), change)),
        }
    }

    /// Appends a change behind the bytes of its key. An `Err` leaves no change.
    pub fn push(&mut self, key: &[u8], change: &Change<'_>) -> Result<(), Memory>
        ensures ok { OnOk result (self.new ≡ self.old ++ (key.now, change.now) ∷ []) }
        ensures err { OnErr result (self.new ≡ []) }
    {
        put_both(&mut self.keys, &mut self.changes, key, change)
    }

    /// Puts the update with these records in the place of the change at the index, which has as many bytes; the keys stay. It
    /// takes no memory.
    #[inline(always)]
    pub fn replace_update(&mut self, index: usize, flag: bool, old: &Record<'_>, new: &Record<'_>)
        requires { HasLength (values_of self.old) index (length (change_spelling (Update flag old.now new.now))) }
        ensures keys { keys_of self.new ≡ keys_of self.old }
        ensures changes { values_of self.new ≡ slice_set (values_of self.old) index (Update flag old.now new.now) }
    {
        self.changes.replace_update(index, flag, old, new);
    }

    /// Makes a DELETE of the INSERT at the index, and an INSERT of the DELETE, of the same row and with the same flag. An
    /// UPDATE and the keys stay. It takes no memory.
    #[inline(always)]
    pub fn turn_at(&mut self, index: usize)
        requires { index < length (values_of self.old) }
        ensures keys { keys_of self.new ≡ keys_of self.old }
        ensures changes { (change : One) → slice_get (values_of self.old) index ≡ Some change
            → values_of self.new ≡ slice_set (values_of self.old) index (turned change) }
    {
        self.changes.turn_at(index);
    }

    /// Whether there is none.
    #[inline(always)]
    pub fn is_empty(&self) -> bool
        ensures { IsTrue result ↔ (self.now ≡ []) }
    {
        self.len() == 0
    }

    /// The spelling of the changes, one after another.
    #[inline(always)]
    pub fn spelling(&self) -> &[u8]
        ensures { result.now ≡ flat_map (λ keyed. change_spelling keyed.1) self.now }
    {
        self.parts().1.spelling()
    }
}
