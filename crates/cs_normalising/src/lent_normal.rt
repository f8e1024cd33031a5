//! Changesets in normal form that stay in the bytes where they were read.

ghost use Rattle.std.specs.Prelude.{◌≡◌, IfOk, map};
ghost use Rattle.cs_normalising.specs.Lent.{table_of};

use crate::lent_table::LentTable;
use cs_normal::{Normal, TableChanges};
use cs_value::Memory;
use std::alloc::Global;
use std::marker::Model;

/// A changeset in normal form, which stays in the bytes where it was read: tables, of each of which a change is left. Contracts
/// see the changeset that `Normal` is, so what is said of normal changesets is said of it. There is one of a changeset and a
/// catalog (`laws::one_normal_form`). (Profile of this project over SQLite's "changeset format".)
#[derive(Drop)]
pub struct LentNormal<'b, 'a> {
    tables: Vec<LentTable<'b, 'a>>,
}

impl<'b, 'a> Model for LentNormal<'b, 'a> {
    ghost use Rattle.std.specs.Prelude.{List, map};
    ghost use Rattle.cs_normalising.specs.Lent.{table_of};
    ghost use Rattle.cs_normal.specs.Normal.{IsNormalChangeset};
    ghost use Rattle.cs_normal.specs.declared.normal.TableChanges.{TableChanges};

    ghost Value = { List TableChanges };

    ghost view = { λ normal. map table_of normal.tables.items };

    ghost invariant = { λ normal. IsNormalChangeset (map table_of normal.tables.items) };
}

/// The tables in bytes of their own.
fn written_tables(
    alloc: Global,
    tables: Vec<LentTable<'_, '_>>,
) -> Result<Vec<TableChanges>, Memory>
    ensures { IfOk result (λ made. made.items ≡ map table_of tables.entry.items) }
{
    let mut made = Vec::with_capacity(alloc, tables.len())?;
    for table in tables {
        made.push(table.written(alloc)?)?;
    }
    Ok(made)
}

impl<'b, 'a> LentNormal<'b, 'a> {
    ghost use Rattle.std.specs.Prelude.{◌≡◌, IfOk, map};
    ghost use Rattle.cs_normalising.specs.Lent.{table_of};
    ghost use Rattle.cs_normal.specs.Normal.{IsNormalChangeset};

    /// The changeset of these tables, which are in normal form. It takes no memory.
    pub(crate) fn from_tables(tables: Vec<LentTable<'b, 'a>>) -> LentNormal<'b, 'a>
        requires { IsNormalChangeset (map table_of tables.items) }
        ensures { result ≡ map table_of tables.entry.items }
    {
        LentNormal { tables }
    }

    /// The tables, in order.
    pub fn tables(&self) -> &[LentTable<'b, 'a>]
        ensures same { map table_of result.now ≡ self.now }
        ensures normal { IsNormalChangeset self.now }
    {
        self.tables.as_slice()
    }

    /// The tables, in order, given up. It takes no memory.
    pub fn into_tables(self) -> Vec<LentTable<'b, 'a>>
        ensures same { map table_of result.items ≡ self.entry }
        ensures normal { IsNormalChangeset self.entry }
    {
        let LentNormal { tables } = self;
        tables
    }

    /// The same changeset in bytes of its own.
    pub fn written(self, alloc: Global) -> Result<Normal, Memory>
        ensures { IfOk result (λ normal. normal ≡ self.entry) }
    {
        let tables = written_tables(alloc, self.into_tables())?;
        Ok(Normal::from_tables(tables))
    }
}
