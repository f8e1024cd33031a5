//! A conflict that owns its bytes.

ghost use Rattle.std.specs.Prelude.{◌≡◌, option_map, IfOk};
ghost use Rattle.cs_conflict.specs.Owned.{IsOne, IsOne-prop};

use crate::conflict::Conflict;
use crate::kind::Kind;
use cs_change::ChangesBuf;
use cs_record::{Row, RowBuf};
use cs_value::Memory;
use std::alloc::Global;
use std::fmt;
use std::marker::Model;

/// A conflict in memory of its own, which outlives what it was shown of. Contracts see it as the conflict.
#[derive(Drop)]
pub struct ConflictBuf {
    kind: Kind,
    table: u32,
    changes: ChangesBuf,
    row: Option<RowBuf>,
    ghost one: { IsOne changes } by { IsOne-prop changes },
}

impl Model for ConflictBuf {
    ghost use Rattle.cs_conflict.specs.declared.conflict.Conflict.{Conflict as Shown};
    ghost use Rattle.cs_conflict.specs.Owned.{the_one};

    ghost Value = { Shown };

    ghost view = { λ here. record {
      kind = here.kind;
      table = here.table;
      change = the_one here.changes here.one;
      row = here.row;
    } };
}

/// The row, or none, in memory of its own.
fn own(alloc: Global, row: Option<&Row<'_>>) -> Result<Option<RowBuf>, Memory>
    ensures { IfOk result (λ owned. owned ≡ option_map (λ r. r.now) row.entry) }
{
    match row {
        None => Ok(None),
        Some(row) => Ok(Some(RowBuf::of_row(alloc, row)?)),
    }
}

/// The row, or none, as it is shown.
fn lend(row: &Option<RowBuf>) -> Option<Row<'_>>
    ensures { result ≡ row.now }
{
    match row {
        None => None,
        Some(row) => Some(row.as_row()),
    }
}

impl ConflictBuf {
    ghost use Rattle.std.specs.Prelude.{◌≡◌, IfOk};

    /// The same conflict, in memory of its own.
    pub fn of_conflict(alloc: Global, conflict: &Conflict<'_>) -> Result<ConflictBuf, Memory>
        ensures { IfOk result (λ owned. owned ≡ conflict.now) }
    {
        let mut changes = ChangesBuf::new(alloc);
        changes.push(&conflict.change)?;
        Ok(ConflictBuf {
            kind: conflict.kind,
            table: conflict.table,
            changes,
            row: own(alloc, conflict.row.as_ref())?,
        })
    }

    /// The conflict as it is shown, in these bytes.
    pub fn as_conflict(&self) -> Conflict<'_>
        ensures { result ≡ self.now }
    {
        let Some(change) = self.changes.get(0) else {
            unreachable!()
        };
        Conflict {
            kind: self.kind,
            table: self.table,
            change,
            row: lend(&self.row),
        }
    }
}

impl fmt::Debug for ConflictBuf {
    fn fmt<W: fmt::Write>(&self, f: &mut fmt::Formatter<W>) -> fmt::Result {
        write!(f, "{:?} at table {}", self.kind, self.table)
    }
}
