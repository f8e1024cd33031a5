//! The rows of a `MapStore`, and its pending changes, each seen as the map of bodies that it is. How these lie in leaves, and
//! what a commit prepares of them, is known here and below alone.

ghost use Rattle.std.specs.Prelude.{◌≡◌, ◌↔◌, ℕ, List, Some, pos, fold, IfOk, OnErr, IsTrue};
ghost use Rattle.std.specs.FinMap.{empty, get};
ghost use Rattle.cs_store.specs.Contents.{IsListing, StorePlace};
ghost use Rattle.cs_store.specs.Written.{edit_body, if_there, optional_bytes, pairs_of};
ghost use Rattle.cs_map_store.specs.Checked.{IsGood};

use crate::checking::{Shelf, check_leaves};
use crate::leaves::{
    Near, Staged, find_row, list_rows, put_row, put_staged, stage_edits, take_back,
};
use cs_leaf::{Leaf, Place};
use cs_store::StoredBody;
use cs_store::edits::LentEdits;
use cs_value::Catalog;
use std::alloc::{AllocError, Global};
use std::marker::Model;
use std::mem;

/// Rows and pending changes, in leaves of their own.
#[derive(Drop)]
pub struct Shelves {
    pub rows: Leaves,
    pub pending: Leaves,
}

/// Leaves whose places rise, none of them empty. Contracts see the bodies that they hold.
#[derive(Drop)]
pub struct Leaves {
    leaves: Vec<Leaf>,
}

impl Model for Leaves {
    ghost use Rattle.cs_store.specs.Contents.{Bodies};
    ghost use Rattle.cs_map_store.specs.Leaves.{AreLeaves, bodies_code, bodies_in};

    ghost Value = { Bodies };

    ghost coded = { bodies_code };

    ghost view = { λ held. bodies_in held.leaves.items };

    ghost invariant = { λ held. AreLeaves held.leaves.items };
}

/// Leaves, and edits of them that are prepared: neither to make these nor to leave them can be refused. Contracts see the
/// bodies without the edits and with them.
#[derive(Drop)]
pub struct StagedLeaves {
    leaves: Vec<Leaf>,
    staged: Staged,
}

impl Model for StagedLeaves {
    ghost use Rattle.std.specs.Coded.{coded×};
    ghost use Rattle.cs_store.specs.Contents.{Bodies};
    ghost use Rattle.cs_map_store.specs.Leaves.{CanBeMade, after_staged, before_staged, bodies_code, bodies_in};

    ghost Value = { Bodies × Bodies };

    ghost coded = { coded× bodies_code bodies_code };

    ghost view = { λ s. (bodies_in (before_staged s.staged s.leaves.items), bodies_in (after_staged s.staged s.leaves.items)) };

    ghost invariant = { λ s. CanBeMade s.staged s.leaves.items };
}

impl Leaves {
    /// No body. It takes no memory.
    pub fn new(alloc: Global) -> Leaves
        ensures { result ≡ empty }
    {
        Leaves {
            leaves: Vec::new(alloc),
        }
    }

    /// Takes all bodies out, and prepares what edits in any order make of them. At `Err` nothing has changed. The leaf of the
    /// first place is looked for near where the last look-up ended.
    #[inline(always)]
    pub fn stage(
        &mut self,
        alloc: Global,
        near: Near,
        edits: &LentEdits<'_>,
    ) -> Result<StagedLeaves, AllocError>
        ensures before { IfOk result (λ staged. staged.0 ≡ self.old) }
        ensures after { IfOk result (λ staged. staged.1 ≡ fold edit_body self.old edits.now) }
        ensures err { OnErr result (self.new ≡ self.old) }
    {
        let mut leaves = mem::replace(&mut self.leaves, Vec::new(alloc));
        match stage_edits(alloc, &mut leaves, near, edits) {
            Ok(staged) => Ok(StagedLeaves { leaves, staged }),
            Err(e) => {
                self.leaves = leaves;
                Err(e)
            }
        }
    }

    /// The body at a place, if there is one. It is looked for near where the last one was.
    #[inline(always)]
    pub fn find(
        &self,
        alloc: Global,
        near: &mut Near,
        place: &Place,
    ) -> Result<Option<Vec<u8>>, AllocError>
        ensures { IfOk result (λ row. optional_bytes row ≡ get self.now place.now) }
    {
        find_row(alloc, self.leaves.as_slice(), near, place)
    }

    /// The same in place of what is in a list, and whether there is one.
    #[inline(always)]
    pub fn put(&self, near: &mut Near, place: &Place, out: &mut Vec<u8>) -> Result<bool, AllocError>
        ensures { IfOk result (λ there. get self.now place.now ≡ if_there there out.new.items) }
    {
        put_row(self.leaves.as_slice(), near, place, out)
    }

    /// The bodies of a table.
    pub fn list(&self, alloc: Global, table: u32) -> Result<Vec<StoredBody>, AllocError>
        ensures { IfOk result (λ rows. IsListing (λ key. get self.now (pos table, key)) (pairs_of rows.items)) }
    {
        let rows = list_rows(alloc, self.leaves.as_slice(), table)?;
        Ok(rows)
    }

    /// Whether each body is what its place says.
    pub fn check(&self, alloc: Global, catalog: &Catalog, shelf: Shelf) -> Result<bool, AllocError>
        ensures { IfOk result (λ good. IsTrue good ↔ ((place : StorePlace) (body : List ℕ) → get self.now place ≡ Some body → IsGood shelf catalog.now (place, body))) }
    {
        let good = check_leaves(alloc, catalog, shelf, self.leaves.as_slice())?;
        Ok(good)
    }
}

impl StagedLeaves {
    /// The bodies without the edits.
    pub fn leave(self) -> Leaves
        ensures { result ≡ self.0 }
    {
        let StagedLeaves { leaves, staged } = self;
        let mut leaves = leaves;
        take_back(&mut leaves, staged);
        Leaves { leaves }
    }

    /// The bodies with the edits. Where there is no memory to cut a leaf, it stays as it is until a later commit changes it.
    pub fn make(self, alloc: Global) -> Leaves
        ensures { result ≡ self.1 }
    {
        let StagedLeaves { leaves, staged } = self;
        let mut leaves = leaves;
        put_staged(alloc, &mut leaves, staged);
        Leaves { leaves }
    }
}
