//! Entries of an answer, and changesets, read.

ghost use Rattle.std.specs.Prelude.{◌≡◌, ◌≢◌, List, Some, IfOk, IfSome, OnOk};
ghost use Rattle.cs_normal.specs.declared.normal.TableChanges.{TableChanges};
ghost use Rattle.cs_store.specs.log.Entry.{kind_of};
ghost use Rattle.cs_store.specs.declared.log.body.Body.{Body as EntryBody};
ghost use Rattle.cs_store.specs.declared.log.entry.LogEntry.{LogEntry as Entry};
ghost use Rattle.cs_normalising.specs.declared.unfit.Unfit.TheVariants.{Memory as OutOfMemory};
ghost use Rattle.cs_exchange.specs.pulling.Told.{IsFormOf, IsReadAs, IsReadBody};

use cs_changeset::{CodecFault, read};
use cs_normal::Normal;
use cs_normalising::{Unfit, normalise};
use cs_store::log::{Body, BodyFault, LogEntry, read_body};
use cs_value::{Catalog, Memory};
use cs_wire::WireEntry;
use std::alloc::{AllocError, Global};

/// The kind of an entry that has a changeset, and of one that widens a table.
const CHANGES: u8 = 0;

const WIDEN: u8 = 1;

/// Passes on want of memory; any other fault is one of the changeset.
fn refuses(fault: Unfit) -> Result<(), Memory>
    ensures { OnOk result (fault ≢ OutOfMemory) }
{
    match fault {
        Unfit::Memory => Err(AllocError),
        Unfit::UnknownTable | Unfit::Shape | Unfit::NullKey | Unfit::KeyTwice => Ok(()),
    }
}

/// The changeset that the bytes spell, in normal form by the tables; none where they spell none, or it has none.
pub(crate) fn read_form(
    alloc: Global,
    catalog: &Catalog,
    bytes: &[u8],
) -> Result<Option<Normal>, Memory>
    ensures found { IfOk result (λ read. IfSome read (IsFormOf catalog.now bytes.now)) }
    ensures only { (changes : List TableChanges) → IsFormOf catalog.now bytes.now changes → IfOk result (λ read. read ≡ Some changes) }
{
    cs_changeset::laws::changesets();
    cs_normalising::laws::one_normal_form();
    cs_normalising::laws::no_fault_where_fit();
    let _tables = catalog.tables();
    let groups = match read(alloc, bytes) {
        Ok(groups) => groups,
        Err(CodecFault::Memory) => return Err(AllocError),
        Err(CodecFault::At { .. }) => return Ok(None),
    };
    match normalise(alloc, catalog, &groups) {
        Ok(changes) => Ok(Some(changes)),
        Err(fault) => {
            refuses(fault)?;
            Ok(None)
        }
    }
}

/// The table that is told to get more columns, and how many it then has. None where it may not be widened so.
fn read_wide(alloc: Global, catalog: &Catalog, bytes: &[u8]) -> Result<Option<Body>, Memory>
    ensures found { IfOk result (λ read. IfSome read (λ body. (kind_of body ≡ 1) × IsReadBody catalog.now bytes.now body)) }
    ensures only { (body : EntryBody) → kind_of body ≡ 1 → IsReadBody catalog.now bytes.now body → IfOk result (λ read. read ≡ Some body) }
{
    let _tables = catalog.tables();
    let mut stored = Vec::with_capacity(alloc, 1)?;
    stored.push(WIDEN)?;
    stored.extend_from_slice(bytes)?;
    match read_body(alloc, catalog, stored.as_slice()) {
        Ok(body) => Ok(Some(body)),
        Err(BodyFault::Memory) => Err(AllocError),
        Err(BodyFault::NoBody) => Ok(None),
    }
}

/// What an answer's entry does: its changeset in normal form by the tables, or the table that gets more columns.
fn read_told_body(
    alloc: Global,
    catalog: &Catalog,
    kind: u8,
    bytes: &[u8],
) -> Result<Option<Body>, Memory>
    ensures found { IfOk result (λ read. IfSome read (λ body. (kind_of body ≡ kind) × IsReadBody catalog.now bytes.now body)) }
    ensures only { (body : EntryBody) → kind_of body ≡ kind → IsReadBody catalog.now bytes.now body → IfOk result (λ read. read ≡ Some body) }
{
    match kind {
        CHANGES => match read_form(alloc, catalog, bytes)? {
            Some(changes) => Ok(Some(Body::Changes(changes))),
            None => Ok(None),
        },
        WIDEN => read_wide(alloc, catalog, bytes),
        _ => Ok(None),
    }
}

/// The entry of the log that an answer's entry is, by the present tables. None where what it does can't be read, or where there is no
/// such kind of entry.
pub(crate) fn read_told(
    alloc: Global,
    catalog: &Catalog,
    told: &WireEntry<'_>,
) -> Result<Option<LogEntry>, Memory>
    ensures found { IfOk result (λ read. IfSome read (IsReadAs catalog.now told.now)) }
    ensures only { (entry : Entry) → IsReadAs catalog.now told.now entry → IfOk result (λ read. read ≡ Some entry) }
{
    let Some(body) = read_told_body(alloc, catalog, told.kind(), told.body())? else {
        return Ok(None);
    };
    Ok(Some(LogEntry {
        origin: told.origin(),
        number: told.number(),
        body,
    }))
}
