//! What is left of groups, spelled one after another as a changeset has it. Nobody looks it up by its keys, so these aren't kept.

use crate::folding::{Folds, Room, fold_group};
use crate::lent::LentChanges;
use cs_change::ChangesBuf;
use cs_normal::BytePieces;
use cs_value::Memory;
use std::alloc::Global;

/// How many bytes of changes are put among the others at once, or a few more.
const BLOCK: usize = 0x1000;

/// What is left of the groups so far, spelled behind what stood there: a few changes wait, and before the first ones their header.
#[derive(Drop)]
pub(crate) struct Spelling {
    room: Room,
    some: ChangesBuf,
    header: Vec<u8>,
    out: BytePieces,
}

impl Spelling {
    ghost use Rattle.std.specs.Prelude.{◌≡◌, ◌++◌, [], IfOk, List, ℕ, OnOk};
    ghost use Rattle.cs_change.specs.Spelling.{changes_spelling};
    ghost use Rattle.cs_normal.specs.keyed.Changes.{Changes};
    ghost use Rattle.cs_group.specs.Steps.Folding.{IsSpelling, spelled_behind};

    /// No group so far; changes that are left go behind what stands there, and behind this header.
    pub(crate) fn new(alloc: Global, header: Vec<u8>, out: BytePieces) -> Spelling
        ensures { IsSpelling out header.items [] result }
    {
        Spelling {
            room: Room::new(alloc),
            some: ChangesBuf::new(alloc),
            header,
            out,
        }
    }

    /// Puts what waits behind the others.
    fn put_waiting(&mut self) -> Result<(), Memory>
        ensures { OnOk result ((self.new.header.items ≡ []) × (self.new.some ≡ [])
            × (self.new.out ≡ self.old.out ++ (self.old.header.items ++ changes_spelling self.old.some))) }
    {
        self.out.push(self.header.as_slice())?;
        self.out.push(self.some.spelling())?;
        self.header.clear();
        self.some.clear();
        Ok(())
    }

    /// The changes that are left of all groups, spelled behind their header and what stood there; that alone, where none is left.
    pub(crate) fn finish(self) -> Result<BytePieces, Memory>
        ensures { IfOk result (λ out. (before header : List ℕ) (joined : Changes) → IsSpelling before header joined self
            → out ≡ before ++ spelled_behind header joined) }
    {
        let mut spelling = self;
        if spelling.some.len() == 0 {
            return Ok(spelling.out);
        }
        spelling.put_waiting()?;
        Ok(spelling.out)
    }
}

impl Folds for Spelling {
    ghost use Rattle.std.specs.Prelude.{◌++◌, List, ℕ};
    ghost use Rattle.cs_normal.specs.keyed.Changes.{Changes};
    ghost use Rattle.cs_order.specs.Order.{Keys as GatheredKeys};
    ghost use Rattle.cs_group.specs.Steps.Folding.{IsSpelling};
    ghost use Rattle.cs_group.specs.Steps.Joining.{entry_left};

    ghost Step = { λ marks changes group old new. (keys : GatheredKeys) (before header : List ℕ) (so_far : Changes)
        → IsSpelling before header so_far old
        → IsSpelling before header (so_far ++ entry_left marks keys changes group) new };

    #[inline(always)]
    fn fold_lent(
        &mut self,
        marks: &[bool],
        changes: &LentChanges<'_>,
        group: &[usize],
    ) -> Result<(), Memory> {
        fold_group(marks, changes, group, &mut self.room, &mut self.some)?;
        if self.some.spelling().len() >= BLOCK {
            self.put_waiting()?;
        }
        Ok(())
    }
}
