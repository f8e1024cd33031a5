//! Events, made one after another.

ghost use Rattle.std.specs.Prelude.{◌≡◌, OnOk, slice_get, string_bytes};
ghost use Rattle.cs_script.specs.Played.{version_of as version_shown, version_told};
ghost use Rattle.cs_script.specs.Turns.{PlaysOne, PlaysOnto, StandsAt};
ghost use Rattle.cs_world.specs.World.{World as Standing};

use crate::outcome::OutcomeText;
use cs_map_store::MapStore;
use cs_value::Memory;
use cs_world::{Event, World};
use std::alloc::Global;

/// Makes events, and appends what each came to, on a line.
pub(crate) fn play(
    alloc: Global,
    world: &mut World<MapStore>,
    events: &[Event],
    text: &mut String,
) -> Result<(), Memory>
    ensures { OnOk result ((standing : Standing) → StandsAt world.old standing
        → PlaysOnto standing events.now (string_bytes text.old) (string_bytes text.new) world.new) }
{
    for event in events {
        play_one(alloc, world, event, text)?;
    }
    Ok(())
}

fn play_one(
    alloc: Global,
    world: &mut World<MapStore>,
    event: &Event,
    text: &mut String,
) -> Result<(), Memory>
    ensures { OnOk result ((standing : Standing) → StandsAt world.old standing
        → PlaysOne standing event.now (string_bytes text.old) (string_bytes text.new) world.new) }
{
    let outcome = world.step(event);
    let version = version_told(world, event);
    let line = format!(in alloc; "{}\n", OutcomeText { outcome, version })?;
    text.push_str(line.as_str())?;
    Ok(())
}

// The version of the replica that an event told something.
fn version_told(world: &World<MapStore>, event: &Event) -> u64
    ensures { (standing : Standing) → StandsAt world.now standing → result ≡ version_told standing event.now }
{
    match event {
        Event::Deliver { message, .. } => match world.receiver(*message) {
            Some(replica) => version_of(world, replica as usize),
            None => 0,
        },
        _ => 0,
    }
}

fn version_of(world: &World<MapStore>, replica: usize) -> u64
    ensures { (standing : Standing) → StandsAt world.now standing → result ≡ version_shown (slice_get standing.members replica) }
{
    match world.version(replica) {
        Some(version) => version,
        None => 0,
    }
}
