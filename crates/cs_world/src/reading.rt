//! What a world shows.

ghost use Rattle.std.specs.Prelude.{◌≡◌, [], None, Some, Err, IfOk, length, slice_get};
ghost use Rattle.std.specs.Option.{option_copied};
ghost use Rattle.cs_store.specs.declared.log.entry.TheConstants.{MAX_ENTRIES};
ghost use Rattle.cs_store.specs.log.Log.{catalog_at, state_of};
ghost use Rattle.cs_replica.specs.Holding.{Holding as Held};
ghost use Rattle.cs_store.specs.declared.fault.StoreFault.TheVariants.{Device};
ghost use Rattle.cs_world.specs.Fails.{CountsOn};
ghost use Rattle.cs_world.specs.Holding.{AreHonest, StandsAt};
ghost use Rattle.cs_world.specs.Moves.{KeepsLeft};
ghost use Rattle.cs_world.specs.Reads.{AreRowsIn, Reads, letter_receiver};
ghost use Rattle.cs_world.specs.World.{IsMember, Member, World as Standing};

use crate::letter::Letter;
use crate::moving::Core;
use crate::world::World;
use cs_normal::Normal;
use cs_pending::rows::RowAtKey;
use cs_store::{RowStore, StoreFault};

impl<S: RowStore> Core<S> {
    /// The rows of a replica's table; none where there is no such replica.
    fn rows(&mut self, replica: usize, table: usize) -> Result<Vec<RowAtKey>, StoreFault>
        ensures reads { Reads S.RowStore MAX_ENTRIES self.old self.new }
        ensures left { KeepsLeft S.RowStore MAX_ENTRIES self.old self.new }
        ensures counts { CountsOn S.RowStore (result ≡ Err Device) self.old self.new }
        ensures listed { AreHonest S.RowStore self.new → (world : Standing) → StandsAt S.RowStore MAX_ENTRIES self.old world → (member : Member) → IsMember world replica member → IfOk result (λ rows. AreRowsIn member.tables member.view.tables table rows.items) }
        ensures none { slice_get self.old.replicas replica ≡ None → IfOk result (λ rows. rows.items ≡ []) }
    {
        let Some(one) = self.replicas.get_mut(replica) else {
            return Ok(Vec::new(self.alloc));
        };
        match one.rows(self.alloc, table) {
            Ok(rows) => return Ok(rows),
            Err(fault) => return Err(fault),
        }
    }

    /// The rows of the hub's table.
    fn hub_rows(&mut self, table: usize) -> Result<Vec<RowAtKey>, StoreFault>
        ensures reads { Reads S.RowStore MAX_ENTRIES self.old self.new }
        ensures left { KeepsLeft S.RowStore MAX_ENTRIES self.old self.new }
        ensures counts { CountsOn S.RowStore (result ≡ Err Device) self.old self.new }
        ensures listed { AreHonest S.RowStore self.new → (world : Standing) → StandsAt S.RowStore MAX_ENTRIES self.old world → IfOk result (λ rows. AreRowsIn (catalog_at world.tables world.log (length world.log)) (state_of world.log) table rows.items) }
    {
        match self.hub.rows(table) {
            Ok(rows) => return Ok(rows),
            Err(fault) => return Err(fault),
        }
    }
}

impl<S: RowStore> World<S> {
    /// How many replicas there are.
    pub fn replicas(&self) -> usize
        ensures { result ≡ length self.now.replicas }
    {
        self.core.replicas.len()
    }

    /// How many entries the hub's log has, which is the newest version.
    pub fn newest(&self) -> u64
        ensures { result ≡ self.now.hub.newest }
    {
        self.core.hub.newest()
    }

    /// The version that a replica has come to; none where there is no replica with this number.
    pub fn version(&self, replica: usize) -> Option<u64>
        ensures there { (one : Held S) → slice_get self.now.replicas replica ≡ Some one → result ≡ Some one.position.version }
        ensures none { slice_get self.now.replicas replica ≡ None → result ≡ None }
    {
        match self.core.replicas.get(replica) {
            Some(one) => Some(one.version()),
            None => None,
        }
    }

    /// How many changes are pending at a replica; none where there is no replica with this number.
    pub fn pending_len(&self, replica: usize) -> Option<u64>
        ensures there { (one : Held S) → slice_get self.now.replicas replica ≡ Some one → result ≡ Some one.position.pending }
        ensures none { slice_get self.now.replicas replica ≡ None → result ≡ None }
    {
        match self.core.replicas.get(replica) {
            Some(one) => Some(one.pending_len()),
            None => None,
        }
    }

    /// The changes of the push that a replica has under way, if one is; none where there is no replica with this number.
    pub fn in_flight(&self, replica: usize) -> Option<&Normal>
        ensures there { (one : Held S) → slice_get self.now.replicas replica ≡ Some one → option_copied result ≡ one.position.flight }
        ensures none { slice_get self.now.replicas replica ≡ None → result ≡ None }
    {
        match self.core.replicas.get(replica) {
            Some(one) => one.in_flight(),
            None => None,
        }
    }

    /// The replica to which a message is the hub's answer; none where it is a request, or there is no message with this number.
    pub fn receiver(&self, message: usize) -> Option<u32>
        ensures { result ≡ letter_receiver (slice_get self.now.letters message) }
    {
        match self.core.letters.get(message) {
            Some(Letter::Tells { replica, .. }) => Some(*replica),
            _ => None,
        }
    }

    /// The rows of the table with this number in the catalog, as a replica has them. Each stands behind the bytes of its key, and they
    /// are in the order of these bytes. There are none past the last table, and none where there is no replica with this number. The
    /// store is only read.
    ///
    /// # Errors
    ///
    /// `Memory` and `Device`.
    pub fn rows(&mut self, replica: usize, table: usize) -> Result<Vec<RowAtKey>, StoreFault>
        // Nothing has happened, and a failed device is told only where its count rose.
        ensures reads { Reads S.RowStore MAX_ENTRIES self.old self.new }
        ensures counts { CountsOn S.RowStore (result ≡ Err Device) self.old self.new }
        ensures listed { AreHonest S.RowStore self.new → (world : Standing) → StandsAt S.RowStore MAX_ENTRIES self.old world → (member : Member) → IsMember world replica member → IfOk result (λ rows. AreRowsIn member.tables member.view.tables table rows.items) }
        ensures none { slice_get self.old.replicas replica ≡ None → IfOk result (λ rows. rows.items ≡ []) }
    {
        self.core.rows(replica, table)
    }

    /// The same of the hub, at the newest version.
    ///
    /// # Errors
    ///
    /// `Memory` and `Device`.
    pub fn hub_rows(&mut self, table: usize) -> Result<Vec<RowAtKey>, StoreFault>
        // Nothing has happened, and a failed device is told only where its count rose.
        ensures reads { Reads S.RowStore MAX_ENTRIES self.old self.new }
        ensures counts { CountsOn S.RowStore (result ≡ Err Device) self.old self.new }
        ensures listed { AreHonest S.RowStore self.new → (world : Standing) → StandsAt S.RowStore MAX_ENTRIES self.old world → IfOk result (λ rows. AreRowsIn (catalog_at world.tables world.log (length world.log)) (state_of world.log) table rows.items) }
    {
        self.core.hub_rows(table)
    }
}
