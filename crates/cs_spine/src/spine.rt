//! The row of cells, and what is done with it.

use crate::fault::{OfferFault, SpineFault};
use crate::pass::Pass;
use crate::segment::{SEGMENT_CELLS, Segment, follow, follow_or_make};
use crate::sight::{Held, Sight};
use cs_store::log::{LogEntry, MAX_ENTRIES};
use cs_value::Memory;
use once_cell::race::OnceBox;
use std::alloc::Global;
use std::marker::Model;

/// What an offer came to.
#[derive(Clone, Copy, Debug, PartialEq, Eq)]
pub enum Offered {
    /// The cell holds an entry that equals the one offered.
    Mine,
    /// The cell holds another entry.
    Other,
}

/// A log that threads share: cells that are set one behind another, each once and for good. Contracts see how many cells it has
/// and which passes are of it; what its cells hold is known through a pass.
#[derive(Drop)]
pub struct Spine {
    alloc: Global,
    cap: usize,
    links: Vec<OnceBox<Segment>>,
}

impl Model for Spine {
    ghost use Rattle.std.specs.Prelude.{◌≤◌, ◌*◌, map, vec_len};
    ghost use Rattle.once_cell.specs.Once.{cell_name};
    ghost use Rattle.cs_spine.specs.Known.{SpineCells, segment_cells};

    ghost Value = { SpineCells };

    ghost view = { λ spine. record { links = map cell_name spine.links.items; cap = spine.cap } };

    ghost invariant = { λ spine. spine.cap ≤ segment_cells * vec_len spine.links };
}

impl Spine {
    ghost use Rattle.std.specs.Prelude.{◌≡◌, ◌<◌, ◌↔◌, ◌∷◌, ◌++◌, ◌/◌, [], IfOk, IfSome, IsErrOf, MatchOption, OnErr, Some, length, min, slice_get, take};
    ghost use Rattle.once_cell.specs.Once.{cell_name};
    ghost use Rattle.cs_store.specs.declared.log.entry.LogEntry.{LogEntry as Entry};
    ghost use Rattle.cs_store.specs.declared.log.entry.TheConstants.{MAX_ENTRIES};
    ghost use Rattle.cs_spine.specs.Known.{segment_cells};
    ghost use Rattle.cs_spine.specs.Sights.{IsSightOf};

    /// A spine of so many cells, none of them set. The allocator is kept for entries and segments.
    ///
    /// # Errors
    ///
    /// `TooMany` exactly above `MAX_ENTRIES` cells; `Memory` where memory was refused.
    pub fn new(alloc: Global, cap: usize) -> Result<Spine, SpineFault>
        ensures cap { IfOk result (λ spine. spine.cap ≡ cap) }
        ensures many { IsErrOf result SpineFault.TooMany ↔ (MAX_ENTRIES < cap) }
    {
        if cap > MAX_ENTRIES as usize {
            return Err(SpineFault::TooMany);
        }
        let count = cap.div_ceil(SEGMENT_CELLS);
        let mut links = Vec::with_capacity(alloc, count)?;
        for _ in 0..count {
            links.push_reserved(OnceBox::new(alloc));
        }
        Ok(Spine { alloc, cap, links })
    }

    /// The number of cells. It takes no memory.
    pub fn cap(&self) -> usize
        ensures { result ≡ self.now.cap }
    {
        self.cap
    }

    /// A pass that knows nothing. What it learns takes no bytes, so it learns without memory.
    pub fn pass<'s>(&'s self) -> Result<Pass<'s>, Memory>
        ensures { IfOk result (λ pass. (pass.spine ≡ self.now) × (pass.known ≡ [])) }
    {
        Pass::new(self, self.alloc)
    }

    /// The link that leads to a cell.
    fn link(&self, n: usize) -> &OnceBox<Segment>
        requires { n < self.now.cap }
        ensures { slice_get self.now.links (n / segment_cells) ≡ Some (cell_name result.now) }
    {
        &self.links[n / SEGMENT_CELLS]
    }

    /// What a cell holds, if it is set.
    fn look<'s>(&'s self, n: usize) -> Option<Held<'s>>
        requires { n < self.now.cap }
        ensures { IfSome result (λ held. IsSightOf self.now n held.sight) }
    {
        let joint = follow(self.link(n))?;
        Held::of(joint, n % SEGMENT_CELLS)
    }

    /// What a cell holds: what it held, or else a copy of this entry, or what another thread set meanwhile. Memory is taken where
    /// the cell is not set yet, and before it is; a segment is made where the cell's is not there.
    fn settle<'s>(&'s self, n: usize, entry: &LogEntry) -> Result<Held<'s>, Memory>
        requires { n < self.now.cap }
        ensures { IfOk result (λ held. IsSightOf self.now n held.sight) }
    {
        if let Some(held) = self.look(n) {
            return Ok(held);
        }
        let mine = Box::new(self.alloc, entry.copy(self.alloc)?)?;
        let joint = follow_or_make(self.link(n), self.alloc)?;
        Ok(Held::settled(joint, n % SEGMENT_CELLS, mine))
    }

    /// What a cell that was seen holds. It takes no memory.
    pub(crate) fn recall<'s>(&'s self, n: usize, sight: &Sight) -> &'s LogEntry
        requires within { n < self.now.cap }
        requires of { IsSightOf self.now n sight.now }
        ensures { result.now ≡ sight.now.cell.value }
    {
        let segment = sight.link.recall(self.link(n));
        sight.cell.recall(segment.cell(n % SEGMENT_CELLS))
    }

    /// Looks at the next cell that the pass doesn't know, and knows its entry from then on, if there is one. It takes no memory.
    pub fn see<'s>(&'s self, pass: &mut Pass<'s>) -> Option<&'s LogEntry>
        requires { pass.old.spine ≡ self.now }
        ensures spine { pass.new.spine ≡ pass.old.spine }
        ensures entry { MatchOption result (pass.new ≡ pass.old) (λ entry. pass.new.known ≡ pass.old.known ++ entry.now ∷ []) }
    {
        let next = pass.len();
        if next == self.cap {
            return None;
        }
        let held = self.look(next)?;
        pass.learn(held.sight);
        Some(held.entry)
    }

    /// Offers an entry for the next cell that the pass doesn't know, and knows that cell's entry from then on. All memory is
    /// taken before the cell is set.
    ///
    /// # Errors
    ///
    /// `Full` exactly where the pass knows the entry of each cell; `Memory` where memory was refused. The pass is then as it was.
    pub fn offer<'s>(&'s self, pass: &mut Pass<'s>, entry: &LogEntry) -> Result<Offered, OfferFault>
        requires { pass.old.spine ≡ self.now }
        ensures spine { pass.new.spine ≡ pass.old.spine }

        // The cell's entry is known, and is the one offered exactly where the answer is `Mine`.
        ensures learned { IfOk result (λ offered. (held : Entry) × (pass.new.known ≡ pass.old.known ++ held ∷ [])
            × ((offered ≡ Offered.Mine) ↔ (held ≡ entry.now))) }
        ensures full { IsErrOf result OfferFault.Full ↔ (length pass.old.known ≡ self.now.cap) }
        ensures refused { OnErr result (pass.new ≡ pass.old) }
    {
        let next = pass.len();
        if next == self.cap {
            return Err(OfferFault::Full);
        }
        let held = self.settle(next, entry)?;
        pass.learn(held.sight);
        if held.entry.same(entry) {
            Ok(Offered::Mine)
        } else {
            Ok(Offered::Other)
        }
    }

    /// The entry of a cell that the pass knows. It takes no memory.
    pub fn entry<'s>(&self, pass: &Pass<'s>, n: usize) -> &'s LogEntry
        requires { n < length pass.now.known }
        ensures { slice_get pass.now.known n ≡ Some result.now }
    {
        pass.entry(n)
    }

    /// A second pass that knows the same.
    pub fn share<'s>(&self, pass: &Pass<'s>) -> Result<Pass<'s>, Memory>
        ensures { IfOk result (λ second. second ≡ pass.now) }
    {
        pass.again(self.alloc)
    }

    /// How many entries both passes know. Up to there they know the same, so that the list of the one begins that of the
    /// other, whatever threads did. It takes no memory.
    pub fn meet(&self, one: &Pass<'_>, other: &Pass<'_>) -> usize
        requires one { one.now.spine ≡ self.now }
        requires other { other.now.spine ≡ self.now }
        ensures len { result ≡ min (length one.now.known) (length other.now.known) }
        ensures same { take result one.now.known ≡ take result other.now.known }
    {
        one.meet(other)
    }
}
