//! Changesets as read, that stay in their bytes, brought into normal form.

ghost use Rattle.std.specs.Prelude.{◌≡◌, ◌≢◌, ◌<◌, ◌≤◌, ◌↔◌, ◌++◌, ◌∷◌, [], ℕ, List, length, map, take, All, HoldsAt, IsTrue, IfOk, IfErr, MatchOption, OnOk};
ghost use Rattle.cs_change.specs.Spelling.{FitsChangeset, changeset_spelling, marks_of};
ghost use Rattle.cs_order.specs.Order.{keys_behind};
ghost use Rattle.cs_normal.specs.keyed.Prepared.{kept};
ghost use Rattle.cs_normalising.specs.Lent.{table_of};
ghost use Rattle.cs_normal.specs.Normal.{normal_spelling, table_changes};
ghost use Rattle.cs_normalising.specs.NormalFormOf.{HasTable, HaveTables, HaveKeys, IsNormalFormOf, IsUnfit};
ghost use Rattle.cs_normalising.specs.Steps.Named.{names_of};
ghost use Rattle.cs_normal.specs.Placed.{table_name};
ghost use Rattle.cs_normalising.specs.Steps.Lent.{ordered_entries, IsOrderedBy};
ghost use Rattle.cs_normalising.specs.Steps.TableByTable.{AreTablesOf, AnyUnfit, HasTableFault, IsUnfitHeader};

use crate::lent_normal::LentNormal;
use crate::lent_table::{LentTable, Ordered, is_left};
use crate::table_form::order_table;
use crate::unfit::Unfit;
use cs_change::{Change, Changeset, Group};
use cs_normal::{FEW_NAMES, NamePlaces, Normal, lend_table_names, same_shape};
use cs_value::{Catalog, Memory, TableDef};
use std::alloc::{AllocError, Global};

/// The first of some places.
fn first_place(places: &[usize]) -> Option<usize>
    ensures { MatchOption result (places.now ≡ []) (λ place. (others : List ℕ) × (places.now ≡ place ∷ others)) }
{
    match places.split_first() {
        None => None,
        Some((place, _)) => Some(*place),
    }
}

/// The place of the table with this name, by the places of the tables' names where these were sought.
fn find_table(catalog: &Catalog, names: Option<&NamePlaces<'_>>, name: &str) -> Option<usize>
    requires { MatchOption names (Unit {0}) (λ names. names.now ≡ map table_name catalog.now) }
    ensures { MatchOption result (All (λ table. table.name ≢ name.now) catalog.now)
        (λ place. (place < length catalog.now) × HoldsAt (λ table. table.name ≡ name.now) catalog.now place) }
{
    match names {
        None => catalog.find(name),
        Some(names) => first_place(names.of(name.as_bytes())),
    }
}

/// What is wrong with a group's header.
fn header_fault(
    catalog: &Catalog,
    names: Option<&NamePlaces<'_>>,
    group: &Group<'_>,
) -> Option<Unfit>
    requires { MatchOption names (Unit {0}) (λ names. names.now ≡ map table_name catalog.now) }
    ensures { MatchOption result (HasTable catalog.now group.now) (λ fault. IsUnfitHeader fault catalog.now group.now) }
{
    let Some(place) = find_table(catalog, names, group.name.as_str()) else {
        return Some(Unfit::UnknownTable);
    };
    let table = &catalog.tables()[place];
    if !same_shape(group.marks.as_slice(), table.key_marks.as_slice()) {
        return Some(Unfit::Shape);
    }
    None
}

/// How many groups stand before the first whose header is wrong, and what is wrong with it. Tables are found by the
/// places of their names where these were sought.
fn fitting_headers(
    catalog: &Catalog,
    names: Option<&NamePlaces<'_>>,
    groups: &[Group<'_>],
) -> (usize, Option<Unfit>)
    requires { MatchOption names (Unit {0}) (λ names. names.now ≡ map table_name catalog.now) }
    ensures count { result.0 ≤ length groups.now }
    ensures fit { HaveTables catalog.now (take result.0 groups.now) }
    ensures stop { MatchOption result.1 (result.0 ≡ length groups.now)
        (λ fault. (result.0 < length groups.now) × HoldsAt (IsUnfitHeader fault catalog.now) groups.now result.0) }
{
    for (index, group) in groups.iter().enumerate() {
        if let Some(fault) = header_fault(catalog, names, group) {
            return (index, Some(fault));
        }
    }
    (groups.len(), None)
}

/// The places of the tables' names where there are many groups and many tables. Where there are few, each group is
/// compared with each table, which takes no memory.
fn many_table_names<'b>(
    alloc: Global,
    tables: &'b [TableDef],
    groups: &[Group<'_>],
) -> Result<Option<NamePlaces<'b>>, Memory>
    ensures { IfOk result (λ found. MatchOption found (Unit {0}) (λ names. names ≡ map table_name tables.now)) }
{
    if groups.len() <= FEW_NAMES || tables.len() <= FEW_NAMES {
        return Ok(None);
    }
    let names = lend_table_names(alloc, tables)?;
    Ok(Some(NamePlaces::new(alloc, names)?))
}

/// How many groups stand before the first whose header is wrong, and what is wrong with it.
fn count_fitting(
    alloc: Global,
    catalog: &Catalog,
    groups: &[Group<'_>],
) -> Result<(usize, Option<Unfit>), Memory>
    ensures count { IfOk result (λ found. found.0 ≤ length groups.now) }
    ensures fit { IfOk result (λ found. HaveTables catalog.now (take found.0 groups.now)) }
    ensures stop { IfOk result (λ found. MatchOption found.1 (found.0 ≡ length groups.now)
        (λ fault. (found.0 < length groups.now) × HoldsAt (IsUnfitHeader fault catalog.now) groups.now found.0)) }
{
    let names = many_table_names(alloc, catalog.tables(), groups)?;
    Ok(fitting_headers(catalog, names.as_ref(), groups))
}

/// The names of the groups, which are lent.
fn lend_names<'b>(alloc: Global, groups: &'b [Group<'_>]) -> Result<Vec<&'b [u8]>, Memory>
    ensures { IfOk result (λ names. keys_behind names.items ≡ names_of groups.now) }
{
    let mut names = Vec::with_capacity(alloc, groups.len())?;
    for group in groups {
        names.push(group.name.as_str().as_bytes())?;
    }
    Ok(names)
}

/// The places of the groups' names where there are many groups and many tables. Where there are few, each table looks at
/// each group, which takes no memory.
fn many_names<'b>(
    alloc: Global,
    tables: &[TableDef],
    groups: &'b [Group<'_>],
) -> Result<Option<NamePlaces<'b>>, Memory>
    ensures { IfOk result (λ found. MatchOption found (Unit {0}) (λ names. names ≡ names_of groups.now)) }
{
    if groups.len() <= FEW_NAMES || tables.len() <= FEW_NAMES {
        return Ok(None);
    }
    let names = lend_names(alloc, groups)?;
    Ok(Some(NamePlaces::new(alloc, names)?))
}

/// Puts the table with its changes behind the others, if one of them is left.
fn push_if_left<'b, 'a>(
    alloc: Global,
    table: &TableDef,
    lent: Ordered<'b, 'a>,
    tables: &mut Vec<LentTable<'b, 'a>>,
) -> Result<(), Memory>
    requires { IsOrderedBy table.now.key_marks lent }
    ensures { OnOk result (map table_of tables.new.items ≡ map table_of tables.old.items
        ++ table_changes table.now (kept (ordered_entries table.now.key_marks lent.entry))) }
{
    if is_left(alloc, table.key_marks.as_slice(), &lent)? {
        let name = table.name.copy(alloc)?;
        let marks = table.key_marks.copied(alloc)?;
        tables.push(LentTable::of_parts(name, marks, lent))?;
    }
    Ok(())
}

/// The normal form of groups whose headers fit, lent, or what is wrong with one of the tables' changes.
fn lend_table_forms<'b, 'a>(
    alloc: Global,
    tables: &[TableDef],
    groups: &'b [Group<'a>],
) -> Result<Vec<LentTable<'b, 'a>>, Unfit>
    ensures normal { IfOk result (λ normal. AreTablesOf groups.now tables.now (map table_of normal.items)) }
    ensures fault { IfErr result (λ fault. AnyUnfit fault tables.now groups.now) }
{
    let found = many_names(alloc, tables, groups)?;
    let names = found.as_ref();
    let mut normal = Vec::new(alloc);
    let mut rest = tables;
    while let Some((table, more)) = rest.split_first() {
        let lent = order_table(alloc, table, groups, names)?;
        push_if_left(alloc, table, lent, &mut normal)?;
        rest = more;
    }
    Ok(normal)
}

/// What is wrong with the changes of one of the tables, if anything is.
fn table_fault(
    alloc: Global,
    tables: &[TableDef],
    groups: &[Group<'_>],
) -> Result<Option<Unfit>, Memory>
    ensures { IfOk result (λ found. MatchOption found (HaveKeys tables.now groups.now)
        (λ fault. HasTableFault fault tables.now groups.now)) }
{
    let Err(fault) = lend_table_forms(alloc, tables, groups) else {
        return Ok(None);
    };
    match fault {
        Unfit::Memory => Err(AllocError),
        other => Ok(Some(other)),
    }
}

/// What is wrong with the first group that is wrong, found by halves: where some groups fit, those in front of them do.
fn first_fault(
    alloc: Global,
    catalog: &Catalog,
    groups: &[Group<'_>],
    fault: Unfit,
) -> Result<Unfit, Memory>
    requires headers { HaveTables catalog.now groups.now }
    requires wrong { HasTableFault fault catalog.now groups.now }
    ensures { IfOk result (λ first. IsUnfit first catalog.now groups.now) }
{
    let tables = catalog.tables();
    let mut fault = fault;
    let mut low = 0;
    let mut high = groups.len();
    while low + 1 < high {
        let middle = low + (high - low) / 2;
        if let Some(other) = table_fault(alloc, tables, &groups[..middle])? {
            high = middle;
            fault = other;
        } else {
            low = middle;
        }
    }
    Ok(fault)
}

/// The normal form of a changeset by a catalog, which stays in the bytes of the changeset. An `Err` tells what is wrong with
/// the first group that is wrong, as `normalise` does. `Memory` says nothing of the changeset. (Profile of this project over
/// SQLite's "changeset format".)
pub fn normalise_lent<'b, 'a>(
    alloc: Global,
    catalog: &Catalog,
    changeset: &'b Changeset<'a>,
) -> Result<LentNormal<'b, 'a>, Unfit>
    // The changeset is one that the reader takes.
    requires { FitsChangeset changeset.now }

    // The changeset fits, and at each key of each table stands the normal form of the change that was read.
    ensures normal { IfOk result (λ normal. IsNormalFormOf catalog.now changeset.now normal) }

    // The first group that is wrong, in the order of the bytes: its table, then its changes.
    ensures fault { IfErr result (λ fault. IsUnfit fault catalog.now changeset.now) }

    ensures shorter { IfOk result (λ normal.
        length (normal_spelling normal) ≤ length (changeset_spelling changeset.now)) }
{
    let groups = changeset.as_slice();
    let (count, stop) = count_fitting(alloc, catalog, groups)?;
    let front = &groups[..count];
    match (lend_table_forms(alloc, catalog.tables(), front), stop) {
        (Ok(tables), None) => Ok(LentNormal::from_tables(tables)),
        (Ok(_), Some(fault)) => Err(fault),
        (Err(Unfit::Memory), _) => Err(Unfit::Memory),
        (Err(fault), _) => Err(first_fault(alloc, catalog, front, fault)?),
    }
}

/// The normal form of a changeset by a catalog. It has each table's changes over all its groups, one change a key, in
/// the order of the keys' bytes. An `Err` tells what is wrong with the first group that is wrong. `Memory` says nothing
/// of the changeset. (Profile of this project over SQLite's "changeset format".)
pub fn normalise(
    alloc: Global,
    catalog: &Catalog,
    changeset: &Changeset<'_>,
) -> Result<Normal, Unfit>
    // The changeset is one that the reader takes.
    requires { FitsChangeset changeset.now }

    // The changeset fits, and at each key of each table stands the normal form of the change that was read.
    ensures normal { IfOk result (λ normal. IsNormalFormOf catalog.now changeset.now normal) }

    // The first group that is wrong, in the order of the bytes: its table, then its changes.
    ensures fault { IfErr result (λ fault. IsUnfit fault catalog.now changeset.now) }

    ensures shorter { IfOk result (λ normal.
        length (normal_spelling normal) ≤ length (changeset_spelling changeset.now)) }
{
    let lent = normalise_lent(alloc, catalog, changeset)?;
    Ok(lent.written(alloc)?)
}
