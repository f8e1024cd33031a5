//! The tables that the command line names.

ghost use Rattle.std.specs.Prelude.{◌≡◌, ◌≢◌, [], ◌++◌, ◌∷◌, Bool, List, All, IfOk, IfErr, MatchOption, map};
ghost use Rattle.clap.specs.Words.{subcommand_rows_of};
ghost use Rattle.cs_value.specs.declared.catalog.TableDef.{TableDef as Table};
ghost use Rattle.cs_command.specs.TableWord.{mark_digit, SpellsTable};
ghost use Rattle.cs_command.specs.CommandLine.{tables_in};
ghost use Rattle.cs_command.specs.CatalogWords.{IsCatalogOf, IsFirstRefused};

use clap::ArgMatches;
use cs_text::parse::read_text;
use cs_value::{Catalog, Items, Memory, TableDef};
use std::alloc::Global;

/// Why table words are no catalog.
#[derive(Clone, Copy, Debug)]
pub enum TableFault<'w> {
    /// Memory was refused.
    Memory,
    /// The first word with which the words up to it are no catalog.
    Word(&'w str),
}

/// The catalog of the table words of a command line that the parser took, in their order, or the first of them that is refused.
pub fn catalog_of<'a>(alloc: Global, matches: &ArgMatches<'a>) -> Result<Catalog, TableFault<'a>>
    ensures ok { IfOk result (λ catalog. IsCatalogOf (tables_in (subcommand_rows_of matches.now)) catalog) }
    ensures refused { IfErr result (λ refused. IsFirstRefused refused (tables_in (subcommand_rows_of matches.now))) }
{
    match matches.subcommand() {
        Some((name, found)) => match found.get_strs("TABLE") {
            Some(words) => catalog(alloc, words),
            None => no_tables(alloc),
        },
        None => no_tables(alloc),
    }
}

// The catalog without a table.
fn no_tables<'w>(alloc: Global) -> Result<Catalog, TableFault<'w>>
    ensures ok { IfOk result (IsCatalogOf []) }
    ensures refused { IfErr result (λ refused. IsFirstRefused refused []) }
{
    match Catalog::new(Vec::new(alloc)) {
        Ok(catalog) => Ok(catalog),
        Err(_) => Err(TableFault::Memory),
    }
}

// The catalog of these words, in their order, or the first of them that is refused.
fn catalog<'w>(alloc: Global, words: &[&'w str]) -> Result<Catalog, TableFault<'w>>
    ensures ok { IfOk result (λ catalog. IsCatalogOf (map (λ word. word.now) words.now) catalog) }
    ensures refused { IfErr result (λ refused. IsFirstRefused refused (map (λ word. word.now) words.now)) }
{
    let Ok(whole) = try_catalog(alloc, words) else {
        return Err(TableFault::Memory);
    };
    if let Some(catalog) = whole {
        return Ok(catalog);
    }
    for (place, word) in words.iter().enumerate() {
        match try_catalog(alloc, &words[..place + 1]) {
            Ok(Some(_)) => {}
            Ok(None) => return Err(TableFault::Word(*word)),
            Err(_) => return Err(TableFault::Memory),
        }
    }
    unreachable!()
}

// The catalog of these words, if they are one.
fn try_catalog(alloc: Global, words: &[&str]) -> Result<Option<Catalog>, Memory>
    ensures { IfOk result (λ found. MatchOption found
        ((tables : List Table) → IsCatalogOf (map (λ word. word.now) words.now) tables → ⊥)
        (λ catalog. IsCatalogOf (map (λ word. word.now) words.now) catalog)) }
{
    let mut tables = Vec::new(alloc);
    for word in words {
        match read_table(alloc, word)? {
            Some(table) => tables.push(table)?,
            None => return Ok(None),
        }
    }
    match Catalog::new(tables) {
        Ok(catalog) => Ok(Some(catalog)),
        Err(_) => Ok(None),
    }
}

// The table that a word spells.
fn read_table(alloc: Global, word: &str) -> Result<Option<TableDef>, Memory>
    ensures { IfOk result (λ found. MatchOption found
        ((table : Table) → SpellsTable word.now table → ⊥) (λ table. SpellsTable word.now table)) }
{
    let Some((text, digits)) = split_at_last_colon(word.as_bytes()) else {
        return Ok(None);
    };
    let Some(marks) = read_marks(alloc, digits)? else {
        return Ok(None);
    };
    let Some(name) = read_text(alloc, text)? else {
        return Ok(None);
    };
    Ok(Some(TableDef {
        name,
        key_marks: Items::from_vec(marks),
    }))
}

fn split_at_last_colon(word: &[u8]) -> Option<(&[u8], &[u8])>
    ensures { MatchOption result (All (λ byte. byte ≢ 58) word.now)
        (λ parts. (word.now ≡ parts.0.now ++ 58 ∷ parts.1.now) × All (λ byte. byte ≢ 58) parts.1.now) }
{
    let at = word.iter().rposition(|byte| *byte == b':')?;
    Some((&word[..at], &word[at + 1..]))
}

fn read_marks(alloc: Global, digits: &[u8]) -> Result<Option<Vec<bool>>, Memory>
    ensures { IfOk result (λ found. MatchOption found
        ((marks : List Bool) → map mark_digit marks ≢ digits.now) (λ marks. map mark_digit marks.items ≡ digits.now)) }
{
    let mut marks = Vec::with_capacity(alloc, digits.len())?;
    for digit in digits {
        let Some(mark) = read_mark(*digit) else {
            return Ok(None);
        };
        marks.push(mark)?;
    }
    Ok(Some(marks))
}

fn read_mark(digit: u8) -> Option<bool>
    ensures { MatchOption result ((mark : Bool) → mark_digit mark ≢ digit) (λ mark. mark_digit mark ≡ digit) }
{
    match digit {
        b'0' => Some(false),
        b'1' => Some(true),
        _ => None,
    }
}
