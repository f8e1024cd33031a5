//! A clash at which a wish stopped.

ghost use Rattle.std.specs.Prelude.{◌≡◌, ◌++◌, Some, codes, slice_get};
ghost use Rattle.std.specs.Fmt.{WritesOnOk};
ghost use Rattle.cs_text.specs.Text.{change_text};
ghost use Rattle.cs_node_lines.specs.told.Clash.{clash_text, kind_text, lawful_text, own_text, table_text};

use cs_conflict::{Clash, Conflict, Kind};
use cs_record::Row;
use cs_text::{ChangeText, NameText, ValuesText};
use cs_value::Catalog;
use std::fmt;

fn kind_name(kind: Kind) -> &'static str
    ensures { result.now ≡ kind_text kind }
{
    match kind {
        Kind::DataDiffers => "data",
        Kind::NotFound => "notfound",
        Kind::KeyConflict => "conflict",
    }
}

fn lawful_letters(kind: Kind, covers: bool) -> &'static str
    ensures { result.now ≡ lawful_text kind covers }
{
    match (kind, covers) {
        (Kind::NotFound, _) => "k",
        (_, true) => "kt",
        (_, false) => "t",
    }
}

// `clash KIND `
fn write_kind<W: fmt::Write>(kind: Kind, f: &mut fmt::Formatter<W>) -> fmt::Result
    ensures { WritesOnOk W.write_str_gives f.old result (codes "clash " ++ kind_text kind ++ codes " ") f.new }
{
    write!(f, "clash {} ", kind_name(kind))
}

fn write_table<W: fmt::Write>(
    catalog: &Catalog,
    table: usize,
    f: &mut fmt::Formatter<W>,
) -> fmt::Result
    ensures { WritesOnOk W.write_str_gives f.old result (table_text (slice_get catalog.now table)) f.new }
{
    match catalog.tables().get(table) {
        Some(def) => write!(f, "{}", NameText(&def.name)),
        None => f.write_str("-"),
    }
}

// ` CHANGE row`
fn write_change<W: fmt::Write>(conflict: &Conflict<'_>, f: &mut fmt::Formatter<W>) -> fmt::Result
    ensures { WritesOnOk W.write_str_gives f.old result (codes " " ++ change_text conflict.now.change ++ codes " row") f.new }
{
    write!(f, " {} row", ChangeText(&conflict.change))
}

fn write_own<W: fmt::Write>(row: &Option<Row<'_>>, f: &mut fmt::Formatter<W>) -> fmt::Result
    ensures { WritesOnOk W.write_str_gives f.old result (own_text row.now) f.new }
{
    match row {
        Some(row) => write!(f, "{}", ValuesText(row)),
        None => f.write_str(" -"),
    }
}

// ` own CHANGE lawful LETTERS`
fn write_local<W: fmt::Write>(clash: &Clash<'_>, f: &mut fmt::Formatter<W>) -> fmt::Result
    ensures { WritesOnOk W.write_str_gives f.old result (codes " own " ++ change_text clash.now.local ++ codes " lawful "
        ++ lawful_text clash.now.conflict.kind clash.now.covers) f.new }
{
    let letters = lawful_letters(clash.conflict.kind, clash.covers);
    write!(f, " own {} lawful {letters}", ChangeText(&clash.local))
}

/// A clash over these tables: `clash KIND T CHANGE row VALUES own CHANGE lawful LETTERS`. It stays in its bytes.
#[derive(Clone, Copy)]
pub struct ClashText<'a, 'b> {
    /// The tables.
    pub catalog: &'a Catalog,
    /// The clash.
    pub clash: &'a Clash<'b>,
}

impl fmt::Display for ClashText<'_, '_> {
    ghost output = { λ text. Some (clash_text text.catalog.now text.clash.now) };

    fn fmt<W: fmt::Write>(&self, f: &mut fmt::Formatter<W>) -> fmt::Result {
        let conflict = &self.clash.conflict;
        write_kind(conflict.kind, f)?;
        write_table(self.catalog, conflict.table as usize, f)?;
        write_change(conflict, f)?;
        write_own(&conflict.row, f)?;
        write_local(self.clash, f)
    }
}
