//! Where the values of a store say that a replica stands.

ghost use Rattle.std.specs.Prelude.{◌≡◌, ◌<◌, ◌^◌, ℕ, List, Option, Some, IfOk, IfSome};
ghost use Rattle.cs_normal.specs.declared.normal.TableChanges.{TableChanges};
ghost use Rattle.cs_store.specs.Written.{optional_bytes};
ghost use Rattle.cs_store.specs.declared.fault.StoreFault.TheVariants.{Device};
ghost use Rattle.cs_wire.specs.Numbers.{eight_bytes};
ghost use Rattle.cs_pending.specs.Calls.{ReadsStore};
ghost use Rattle.cs_pending.specs.position.Laws.{FitsPosition};
ghost use Rattle.cs_pending.specs.declared.position.position.Position.{Position as OnePosition};
ghost use Rattle.cs_opening.specs.Said.{SayPosition, IsFlightOf, SaysPosition};

use crate::values::{flight_in, number_in};
use cs_normal::Normal;
use cs_pending::position::{LAST_NUMBER, Position};
use cs_store::{MetaName, RowStore, StoreFault};
use cs_value::{Catalog, Memory};
use std::alloc::Global;

/// The number that a value is, if it is one.
fn number_of(value: &Option<Vec<u8>>) -> Option<u64>
    ensures found { IfSome result (λ number. optional_bytes value.now ≡ Some (eight_bytes number)) }
    ensures only { (number : ℕ) → number < 2 ^ 64 → optional_bytes value.now ≡ Some (eight_bytes number) → result ≡ Some number }
{
    match value {
        None => None,
        Some(bytes) => number_in(bytes.as_slice()),
    }
}

/// The push under way that a value is, or that none is, if it is one of the two.
fn flight_of(
    alloc: Global,
    catalog: &Catalog,
    number: u64,
    value: &Option<Vec<u8>>,
) -> Result<Option<Option<Normal>>, Memory>
    ensures found { IfOk result (λ read. IfSome read (IsFlightOf catalog.now number (optional_bytes value.now))) }
    ensures only { (flight : Option (List TableChanges)) → IsFlightOf catalog.now number (optional_bytes value.now) flight
        → IfOk result (λ read. read ≡ Some flight) }
{
    let Some(bytes) = value else {
        return Ok(Some(None));
    };
    let Some(changes) = flight_in(alloc, catalog, number, bytes.as_slice())? else {
        return Ok(None);
    };
    Ok(Some(Some(changes)))
}

/// The position that the values are, if they are one.
fn position_of(
    alloc: Global,
    catalog: &Catalog,
    id: u32,
    version: &Option<Vec<u8>>,
    number: &Option<Vec<u8>>,
    flight: &Option<Vec<u8>>,
) -> Result<Option<Position>, Memory>
    ensures found { IfOk result (λ read. IfSome read
        (SayPosition catalog.now id (optional_bytes version.now) (optional_bytes number.now) (optional_bytes flight.now))) }
    ensures only { (position : OnePosition) → FitsPosition position
        → SayPosition catalog.now id (optional_bytes version.now) (optional_bytes number.now) (optional_bytes flight.now) position
        → IfOk result (λ read. read ≡ Some position) }
{
    cs_pending::position::laws::last_number();
    let Some(version) = number_of(version) else {
        return Ok(None);
    };
    let Some(number) = number_of(number) else {
        return Ok(None);
    };
    if number > LAST_NUMBER {
        return Ok(None);
    }
    let Some(flight) = flight_of(alloc, catalog, number, flight)? else {
        return Ok(None);
    };
    Ok(Some(Position {
        id,
        version,
        number,
        flight,
        pending: 0,
    }))
}

/// Where the values of a store say that the replica with this id and these tables stands, but for how many changes are pending. None
/// where they say no such thing.
pub(crate) fn read_position<S: RowStore>(
    alloc: Global,
    store: &mut S,
    catalog: &Catalog,
    id: u32,
) -> Result<Option<Position>, StoreFault>
    // The store is only read.
    ensures reads { ReadsStore S.RowStore Device (Unit {0}) store.old store.new result }

    // What is read is what the values say.
    ensures found { S.honest store.new → IfOk result (λ read. IfSome read (SaysPosition catalog.now id (S.contents store.old))) }

    // What they say is read.
    ensures only { S.honest store.new → (position : OnePosition) → FitsPosition position
        → SaysPosition catalog.now id (S.contents store.old) position → IfOk result (λ read. read ≡ Some position) }
{
    let version = store.meta(MetaName::Version)?;
    let number = store.meta(MetaName::Number)?;
    let flight = store.meta(MetaName::Flight)?;
    match position_of(alloc, catalog, id, &version, &number, &flight) {
        Ok(position) => Ok(position),
        Err(fault) => Err(StoreFault::from(fault)),
    }
}
