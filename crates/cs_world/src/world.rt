//! The world over stores.

ghost use Rattle.std.specs.Prelude.{◌≡◌, ◌<◌, ◌^◌, [], ◌∷◌, All, IfOk, OnErr, length};
ghost use Rattle.cs_store.specs.declared.log.entry.TheConstants.{MAX_ENTRIES};
ghost use Rattle.cs_store.specs.Contents.{nothing};
ghost use Rattle.cs_world.specs.Fails.{AsksHub, CountsOn, SaysDevice, SomeSaysDevice};
ghost use Rattle.cs_world.specs.Left.{StopsHaveHeadline};
ghost use Rattle.cs_world.specs.Runs.{HasHeadline, IsNew, RunMerges, Runs};

use crate::event::Event;
use crate::fault::WorldFault;
use crate::moving::Core;
use crate::opening::{bare_stores, open_hub, open_replica};
use crate::outcome::Outcome;
use cs_map_store::MapStore;
use cs_store::RowStore;
use cs_value::{Catalog, Memory};
use std::alloc::{AllocError, Global};
use std::marker::Model;

/// A hub, replicas and all that was ever sent between them, over any stores, moved by events. Replicas and messages are numbered from 0,
/// messages as they are sent. Messages are kept for ever, and each reaches whom it is for as often as an event says so, or never. Contracts
/// see it as what it holds.
#[derive(Drop)]
pub struct World<S: RowStore> {
    pub(crate) core: Core<S>,
}

impl<S: RowStore> Model for World<S> {
    ghost use Rattle.cs_world.specs.World.{World as Standing};
    ghost use Rattle.cs_store.specs.declared.log.entry.TheConstants.{MAX_ENTRIES};
    ghost use Rattle.cs_world.specs.Holding.{AreHonest, Holding, StandsAt};
    ghost use Rattle.cs_world.specs.Left.{Leaves};

    ghost Value = { Holding S };

    ghost view = { λ world. world.core };

    ghost invariant = { λ world. AreHonest S.RowStore world.core
        → (standing : Standing) × StandsAt S.RowStore MAX_ENTRIES world.core standing × Leaves S.RowStore MAX_ENTRIES standing world.core };
}

impl<S: RowStore + Drop> World<S> {
    /// A world in which nothing has happened, over stores that hold nothing. It has a hub of these tables, and a replica over each other
    /// store. The first replica has the number and the id 0.
    ///
    /// # Errors
    ///
    /// `Memory`, and `Device` where a store failed. The stores are let go then.
    pub fn new(
        alloc: Global,
        catalog: &Catalog,
        hub: S,
        replicas: Vec<S>,
    ) -> Result<World<S>, WorldFault>
        requires hub { S.contents hub ≡ nothing }
        requires replicas { All (λ store. S.contents store ≡ nothing) replicas.items }
        requires count { length replicas.items < 2 ^ 32 }
        ensures { IfOk result (IsNew S.RowStore MAX_ENTRIES catalog.now (length replicas.items)) }
    {
        crate::laws::first_is_sound();
        cs_hub::judgement::laws::widen_is_entry();
        let _tables = catalog.tables();
        let mut opened = Vec::with_capacity(alloc, replicas.len())?;
        for store in replicas {
            let number = opened.len() as u32;
            opened.push(open_replica(alloc, store, catalog, number)?)?;
        }
        let hub = open_hub(alloc, hub, catalog)?;
        Ok(World {
            core: Core {
                alloc,
                hub,
                replicas: opened,
                letters: Vec::new(alloc),
            },
        })
    }
}

impl World<MapStore> {
    /// A world in which nothing has happened, in memory, of so many replicas.
    ///
    /// # Errors
    ///
    /// `Memory`.
    pub fn in_memory(
        alloc: Global,
        catalog: &Catalog,
        count: u32,
    ) -> Result<World<MapStore>, Memory>
        ensures { IfOk result (IsNew ⟦<MapStore as RowStore>⟧ MAX_ENTRIES catalog.now count) }
    {
        let stores = bare_stores(alloc, count)?;
        match World::new(alloc, catalog, MapStore::new(alloc), stores) {
            Ok(world) => Ok(world),
            Err(_) => Err(AllocError),
        }
    }
}

impl<S: RowStore> World<S> {
    /// What is so of every world, whatever has happened in it: the headline, also behind a stop. It takes no memory, and does nothing.
    pub fn headline(&self)
        ensures headline { HasHeadline S.RowStore MAX_ENTRIES self.now }

        // Whatever a stop now leaves of one of its stores, that and the others show a world that has the headline. It is this one, or
        // one to which a step leads.
        ensures stops { StopsHaveHeadline S.RowStore MAX_ENTRIES self.now }
    {
        crate::laws::answers_fit();
        crate::laws::steps_are_sound();
        crate::laws::sound_has_headline();
        cs_store::log::laws::most_entries();
        cs_wire::laws::one_told_answer();
        let _core = &self.core;
    }

    /// Makes an event happen.
    pub fn step(&mut self, event: &Event) -> Outcome
        ensures ran { Runs S.RowStore MAX_ENTRIES self.old (event.now ∷ []) (result ∷ []) self.new }

        // A failed device is told only where its count rose.
        ensures counts { CountsOn S.RowStore (SaysDevice result) self.old self.new }

        // A request that reaches the hub is answered by it.
        ensures asks { AsksHub S.RowStore MAX_ENTRIES event.now result self.old self.new }
    {
        crate::laws::steps_are_sound();
        cs_store::log::laws::most_entries();
        self.core.step(event)
    }

    /// Makes events happen, one behind another. The room of the outcomes is taken before the first.
    ///
    /// # Errors
    ///
    /// `Memory`, and nothing has happened.
    pub fn run(&mut self, events: &[Event]) -> Result<Vec<Outcome>, Memory>
        // The steps of the events are made, with these outcomes.
        ensures ran { IfOk result (λ outcomes. Runs S.RowStore MAX_ENTRIES self.old events.now outcomes.items self.new) }

        // A failed device is told only where its count rose.
        ensures counts { IfOk result (λ outcomes. CountsOn S.RowStore (SomeSaysDevice outcomes.items) self.old self.new) }

        // Each pull is the three-way merge of the log's tables at the replica's version, its own, and the log's at the next.
        ensures merges { IfOk result (λ outcomes. RunMerges S.RowStore MAX_ENTRIES self.old events.now outcomes.items) }

        // Each replica's tables are the hub's at its version with its own changes on top. No push conflicts, each counts once, and replicas
        // at rest at one version have the same rows.
        ensures headline { HasHeadline S.RowStore MAX_ENTRIES self.new }

        // So it is of whatever a stop now leaves of one of its stores.
        ensures stops { StopsHaveHeadline S.RowStore MAX_ENTRIES self.new }
        ensures refused { OnErr result (self.new ≡ self.old) }
    {
        crate::laws::events_merge();
        cs_store::log::laws::most_entries();
        self.headline();
        let mut outcomes = Vec::with_capacity(self.core.alloc, events.len())?;
        let mut rest = events;
        while let Some((event, more)) = rest.split_first() {
            outcomes.push_reserved(self.step(event));
            rest = more;
        }
        self.headline();
        Ok(outcomes)
    }
}
