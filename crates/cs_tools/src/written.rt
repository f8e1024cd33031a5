//! A changeset as a tool writes it.

ghost use Rattle.std.specs.Prelude.{◌≡◌, ◌⊎◌, IfErr, IfOk};
ghost use Rattle.cs_normal.specs.Normal.{normal_spelling};
ghost use Rattle.cs_column_bytes.specs.Steps.{heads_behind};
ghost use Rattle.cs_tools.specs.WrittenForm.{IsNotWritten, SpellsIn};
ghost use Rattle.cs_tools.specs.declared.fault.ToolFault.TheVariants.{Memory};
ghost use Rattle.cs_tools.specs.declared.tool.Form.TheVariants.{Sqlite};

use crate::fault::ToolFault;
use cs_column_bytes::{Header, encode, has_one_order};
use cs_normal::Normal;
use std::alloc::Global;

/// The spelling in normal form.
pub fn spelled_normal(alloc: Global, changeset: &Normal) -> Result<Vec<u8>, ToolFault>
    ensures ok { IfOk result (λ bytes. bytes.items ≡ normal_spelling changeset.now) }
    ensures err { IfErr result (λ told. told ≡ Memory) }
{
    let mut bytes = Vec::new(alloc);
    changeset.encode(&mut bytes)?;
    Ok(bytes)
}

/// The spelling with the column bytes of the first of these headers that has the table's name. Headers of one table that
/// differ are refused: SQLite would apply only what came with one of them.
pub fn spelled_for_sqlite(
    alloc: Global,
    changeset: &Normal,
    headers: &[Header<'_>],
) -> Result<Vec<u8>, ToolFault>
    ensures ok { IfOk result (λ bytes. SpellsIn Sqlite (heads_behind headers.now) changeset.now bytes.items) }
    ensures err { IfErr result (λ told. (told ≡ Memory) ⊎ IsNotWritten Sqlite (heads_behind headers.now) told) }
{
    if !has_one_order(alloc, headers)? {
        return Err(ToolFault::KeyOrder);
    }
    let mut bytes = Vec::new(alloc);
    encode(alloc, changeset, headers, &mut bytes)?;
    Ok(bytes)
}
