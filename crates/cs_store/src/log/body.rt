//! What an entry of the log does, and how that is stored.

ghost use Rattle.std.specs.Prelude.{◌≡◌, ◌⊎◌, ◌<◌, ◌↔◌, ◌++◌, List, All, HoldsAt, length, Ok, Err, IsTrue, IfOk, MatchOption, OnOk, OnErr};
ghost use Rattle.cs_normal.specs.Normal.{normal_spelling};
ghost use Rattle.cs_normal.specs.declared.normal.TableChanges.{TableChanges};
ghost use Rattle.cs_store.specs.log.Entry.{widen_spelling};
ghost use Rattle.cs_store.specs.log.Steps.{ReadsWiden, WidensTable};
ghost use Rattle.cs_store.specs.log.Stored.{AreChangesOf, FitsBody, ReadsBody, ReadsChanges, stored_body};
ghost use Rattle.cs_store.specs.declared.log.body.Body.{Body};
ghost use Rattle.cs_store.specs.declared.log.fault.BodyFault.TheVariants.{Memory as OutOfMemory};

use crate::log::entry::MAX_CHANGESET;
use crate::log::fault::BodyFault;
use crate::log::laws::one_body;
use cs_changeset::read;
use cs_normal::Normal;
use cs_normal::laws::normal_is_taken;
use cs_normalising::laws::{no_fault_where_fit, normal_again, one_normal_form};
use cs_normalising::normalise;
use cs_value::{Catalog, MAX_COLUMNS, Memory, TableDef, Text};
use std::alloc::Global;

/// The kind of a body that has changes: the first byte of what an entry does, as a log is stored.
pub(crate) const CHANGES: u8 = 0;

/// The kind of a body that widens a table.
const WIDEN: u8 = 1;

/// What an entry of the log does.
#[derive(Drop)]
pub enum Body {
    /// The changeset of a push, in normal form.
    Changes(Normal),
    /// The table with this name gets so many columns in all: each of its rows has NULL in the new ones.
    Widen { table: Text, width: u32 },
}

/// Appends a number of columns in four bytes, the high byte first, and the name of a table. An `Err` changes nothing.
fn put_widen(table: &str, width: u32, out: &mut Vec<u8>) -> Result<(), Memory>
    ensures ok { OnOk result (out.new.items ≡ out.old.items ++ widen_spelling table.now width) }
    ensures err { OnErr result (out.new.items ≡ out.old.items) }
{
    let len = out.len();
    out.extend_from_slice(&width.to_be_bytes())?;
    let written = out.extend_from_slice(table.as_bytes());
    if written.is_err() {
        out.truncate(len);
    }
    written
}

impl Body {
    ghost use Rattle.std.specs.Prelude.{◌≡◌, ◌↔◌, ◌++◌, IsTrue, IfOk, MatchOption, OnOk, OnErr};
    ghost use Rattle.cs_store.specs.log.Entry.{WidensNone, body_spelling, kind_of};
    ghost use Rattle.cs_store.specs.declared.log.body.Body.TheVariants.{Changes as ChangesOf};

    /// The byte that tells the kind of body.
    pub fn kind(&self) -> u8
        ensures { result ≡ kind_of self.now }
    {
        match self {
            Body::Changes(_) => CHANGES,
            Body::Widen { .. } => WIDEN,
        }
    }

    /// The changeset, where it has one.
    pub fn changes(&self) -> Option<&Normal>
        ensures { MatchOption result (WidensNone self.now → ⊥) (λ changes. self.now ≡ ChangesOf changes.now) }
    {
        match self {
            Body::Changes(changes) => Some(changes),
            Body::Widen { .. } => None,
        }
    }

    /// Appends the spelling of the body, without its kind. An `Err` changes nothing.
    pub fn encode(&self, out: &mut Vec<u8>) -> Result<(), Memory>
        ensures ok { OnOk result (out.new.items ≡ out.old.items ++ body_spelling self.now) }
        ensures err { OnErr result (out.new.items ≡ out.old.items) }
    {
        match self {
            Body::Changes(changes) => changes.encode(out),
            Body::Widen { table, width } => put_widen(table.as_str(), *width, out),
        }
    }

    /// Whether two bodies are the same, the flags of their changes too. It takes no memory.
    pub fn same(&self, other: &Body) -> bool
        ensures { IsTrue result ↔ (self.now ≡ other.now) }
    {
        match (self, other) {
            (Body::Changes(changes), Body::Changes(others)) => changes.same(others),
            (
                Body::Widen { table, width },
                Body::Widen {
                    table: other,
                    width: columns,
                },
            ) => *width == *columns && table.as_str() == other.as_str(),
            _ => false,
        }
    }

    /// The same body, in memory of its own.
    pub fn copy(&self, alloc: Global) -> Result<Body, Memory>
        ensures { IfOk result (λ copied. copied ≡ self.now) }
    {
        match self {
            Body::Changes(changes) => Ok(Body::Changes(changes.copy(alloc)?)),
            Body::Widen { table, width } => Ok(Body::Widen {
                table: table.copy(alloc)?,
                width: *width,
            }),
        }
    }
}

/// Appends a body as it is stored: its kind, and its spelling. An `Err` changes nothing.
pub fn put_body(body: &Body, out: &mut Vec<u8>) -> Result<(), Memory>
    ensures ok { OnOk result (out.new.items ≡ out.old.items ++ stored_body body.now) }
    ensures err { OnErr result (out.new.items ≡ out.old.items) }
{
    let len = out.len();
    out.push(body.kind())?;
    let written = body.encode(out);
    if written.is_err() {
        out.truncate(len);
    }
    written
}

/// Whether the bytes are those that the changeset is spelled by.
fn is_spelled(alloc: Global, changes: &Normal, bytes: &[u8]) -> Result<bool, Memory>
    ensures { IfOk result (λ is. IsTrue is ↔ (normal_spelling changes.now ≡ bytes.now)) }
{
    let mut spelled = Vec::with_capacity(alloc, bytes.len())?;
    changes.encode(&mut spelled)?;
    Ok(spelled.as_slice() == bytes)
}

/// Reads a changeset of the catalog's tables in normal form: the whole of the bytes, of any number.
///
/// # Errors
///
/// `NoBody` exactly where no such changeset is spelled so; `Memory` where memory was refused.
pub fn read_changes(alloc: Global, catalog: &Catalog, bytes: &[u8]) -> Result<Normal, BodyFault>
    // What is read is spelled so; where the bytes are refused, no changeset of the tables is.
    ensures reads { ReadsChanges catalog.now bytes.now result }

    // A changeset of the tables that is spelled so is read, or memory is wanting.
    ensures only { (changes : List TableChanges) → AreChangesOf catalog.now changes → bytes.now ≡ normal_spelling changes
        → (result ≡ Ok changes) ⊎ (result ≡ Err OutOfMemory) }
{
    cs_changeset::laws::changesets();
    normal_is_taken();
    normal_again();
    one_normal_form();
    no_fault_where_fit();
    let _ = catalog.tables();
    let groups = read(alloc, bytes)?;
    let changes = normalise(alloc, catalog, &groups)?;
    if !is_spelled(alloc, &changes, bytes)? {
        return Err(BodyFault::NoBody);
    }
    Ok(changes)
}

/// The number in the first four bytes, the high byte first, and the rest.
fn split_width(bytes: &[u8]) -> Option<(u32, &[u8])>
    ensures { MatchOption result (length bytes.now < 4) (λ split. bytes.now ≡ widen_spelling split.1.now split.0) }
{
    let (front, rest) = bytes.split_first_chunk::<4>()?;
    Some((u32::from_be_bytes(*front), rest))
}

/// The place of the table that has the name, and may be widened to so many columns.
fn find_narrow(tables: &[TableDef], name: &[u8], width: usize) -> Option<usize>
    ensures { MatchOption result (All (λ table. WidensTable name.now width table → ⊥) tables.now)
        (λ place. (place < length tables.now) × HoldsAt (WidensTable name.now width) tables.now place) }
{
    tables.iter().position(|table| {
        table.name.as_str().as_bytes() == name
            && table.key_marks.as_slice().len() < width
            && width <= MAX_COLUMNS
    })
}

/// The table that gets more columns, and how many it then has.
fn read_widen(alloc: Global, catalog: &Catalog, bytes: &[u8]) -> Result<Body, BodyFault>
    ensures { ReadsWiden catalog.now bytes.now result }
{
    let tables = catalog.tables();
    let Some((width, name)) = split_width(bytes) else {
        return Err(BodyFault::NoBody);
    };
    let Some(place) = find_narrow(tables, name, width as usize) else {
        return Err(BodyFault::NoBody);
    };
    let table = tables[place].name.copy(alloc)?;
    Ok(Body::Widen { table, width })
}

/// Reads a body as it is stored: the whole of the bytes. Bytes that spell a changeset which isn't in normal form, or
/// whose tables aren't the catalog's, are refused.
///
/// # Errors
///
/// `NoBody` exactly where no body of the catalog's tables is stored as these bytes; `Memory` where memory was refused.
pub fn read_body(alloc: Global, catalog: &Catalog, bytes: &[u8]) -> Result<Body, BodyFault>
    // What is read is stored as these bytes; where they are refused, no body that fits is.
    ensures reads { ReadsBody catalog.now bytes.now result }

    // A body that fits and is stored as these bytes is read, or memory is wanting.
    ensures only { (body : Body) → FitsBody catalog.now body → bytes.now ≡ stored_body body
        → (result ≡ Ok body) ⊎ (result ≡ Err OutOfMemory) }
{
    let _ = catalog.tables();
    one_body();
    let Some((kind, rest)) = bytes.split_first() else {
        return Err(BodyFault::NoBody);
    };
    if rest.len() as u64 > MAX_CHANGESET {
        return Err(BodyFault::NoBody);
    }
    match *kind {
        CHANGES => Ok(Body::Changes(read_changes(alloc, catalog, rest)?)),
        WIDEN => read_widen(alloc, catalog, rest),
        _ => Err(BodyFault::NoBody),
    }
}
