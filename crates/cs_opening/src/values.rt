//! The values that a store keeps of a replica, read back.

ghost use Rattle.std.specs.Prelude.{◌≡◌, ◌↔◌, ◌≤◌, ◌<◌, ◌^◌, ◌++◌, ℕ, List, length, map, Some, IfOk, IfSome, IsTrue, OnOk};
ghost use Rattle.cs_value.specs.declared.catalog.TableDef.{TableDef as OneTable};
ghost use Rattle.cs_normal.specs.Headers.{header};
ghost use Rattle.cs_normal.specs.declared.normal.TableChanges.{TableChanges};
ghost use Rattle.cs_wire.specs.Numbers.{eight_bytes};
ghost use Rattle.cs_opening.specs.Kept.{IsCatalogValue, IsFlightValue, IsPendingValue};

use cs_change::Group;
use cs_changeset::{CodecFault, read};
use cs_normal::{Normal, read_marks};
use cs_pending::position::catalog_value;
use cs_store::log::{BodyFault, MAX_CHANGESET, read_changes};
use cs_value::{Catalog, Memory, TableDef};
use cs_wire::split_u64;
use std::alloc::{AllocError, Global};

/// A number of 64 bits is in range.
pub(crate) fn in_range(_number: u64)
    ensures { _number < 2 ^ 64 }
{}

/// Whether they are the same bytes.
fn are_same(some: &[u8], other: &[u8]) -> bool
    ensures { IsTrue result ↔ (some.now ≡ other.now) }
{
    some == other
}

/// The number that is these eight bytes, the high byte first, if they are eight.
pub(crate) fn number_in(bytes: &[u8]) -> Option<u64>
    ensures found { IfSome result (λ number. bytes.now ≡ eight_bytes number) }
    ensures only { (number : ℕ) → number < 2 ^ 64 → bytes.now ≡ eight_bytes number → result ≡ Some number }
{
    let (number, rest) = split_u64(bytes)?;
    in_range(number);
    if !rest.is_empty() {
        return None;
    }
    Some(number)
}

/// Appends the tables of headers.
fn put_tables(alloc: Global, groups: &[Group<'_>], tables: &mut Vec<TableDef>) -> Result<(), Memory>
    ensures { OnOk result (tables.new.items ≡ tables.old.items ++ map header groups.now) }
{
    for group in groups {
        tables.push(TableDef {
            name: group.name.copy(alloc)?,
            key_marks: read_marks(alloc, group.marks.as_slice())?,
        })?;
    }
    Ok(())
}

/// The tables whose headers these bytes are, one behind another, if there is a catalog of them.
pub(crate) fn catalog_in(alloc: Global, bytes: &[u8]) -> Result<Option<Catalog>, Memory>
    ensures found { IfOk result (λ read. IfSome read (IsCatalogValue bytes.now)) }
    ensures only { (tables : List OneTable) → IsCatalogValue bytes.now tables → IfOk result (λ read. read ≡ Some tables) }
{
    cs_normal::laws::headers_fit();
    let groups = match read(alloc, bytes) {
        Ok(groups) => groups,
        Err(CodecFault::Memory) => return Err(AllocError),
        Err(CodecFault::At { .. }) => return Ok(None),
    };
    let mut tables = Vec::new(alloc);
    put_tables(alloc, groups.as_slice(), &mut tables)?;
    let Ok(catalog) = Catalog::new(tables) else {
        return Ok(None);
    };
    let again = catalog_value(alloc, &catalog)?;
    if !are_same(again.as_slice(), bytes) {
        return Ok(None);
    }
    Ok(Some(catalog))
}

/// The changes that these bytes are, if they are a changeset of the tables in normal form, of at most `MAX_CHANGESET` bytes.
pub(crate) fn value_in(
    alloc: Global,
    catalog: &Catalog,
    bytes: &[u8],
) -> Result<Option<Normal>, Memory>
    ensures found { IfOk result (λ read. IfSome read (IsPendingValue catalog.now bytes.now)) }
    ensures only { (changes : List TableChanges) → IsPendingValue catalog.now bytes.now changes
        → IfOk result (λ read. read ≡ Some changes) }
{
    if bytes.len() as u64 > MAX_CHANGESET {
        return Ok(None);
    }
    match read_changes(alloc, catalog, bytes) {
        Ok(changes) => Ok(Some(changes)),
        Err(BodyFault::NoBody) => Ok(None),
        Err(BodyFault::Memory) => Err(AllocError),
    }
}

/// The changes of the push with this number that these bytes are, if they are those of one. Such bytes are the number in eight,
/// and the changes behind it.
pub(crate) fn flight_in(
    alloc: Global,
    catalog: &Catalog,
    number: u64,
    bytes: &[u8],
) -> Result<Option<Normal>, Memory>
    ensures found { IfOk result (λ read. IfSome read (IsFlightValue catalog.now number bytes.now)) }
    ensures only { (changes : List TableChanges) → IsFlightValue catalog.now number bytes.now changes
        → IfOk result (λ read. read ≡ Some changes) }
{
    let Some((stored, changeset)) = split_u64(bytes) else {
        return Ok(None);
    };
    in_range(stored);
    in_range(number);
    if stored != number {
        return Ok(None);
    }
    value_in(alloc, catalog, changeset)
}
