//! The tables that the caller declares.

ghost use Rattle.cs_embed.specs.Tables.{GivesCatalog, GivesTables, ReadsDeclaring};

use crate::answer::Answer;
use cs_changeset::{Changeset, CodecFault, read};
use cs_normal::catalog_of;
use cs_value::Catalog;
use std::alloc::Global;
use std::slice;

/// The changeset whose headers declare tables.
fn read_declaring(alloc: Global, declared: &[u8]) -> Result<Changeset<'_>, Answer>
    ensures { ReadsDeclaring declared.now result }
{
    match read(alloc, declared) {
        Ok(changeset) => Ok(changeset),
        Err(CodecFault::Memory) => Err(Answer::no_memory()),
        Err(CodecFault::At { .. }) => Err(Answer::no_tables()),
    }
}

/// The catalog of the tables that its headers tell of.
fn catalog_alone(alloc: Global, declaring: &Changeset<'_>) -> Result<Catalog, Answer>
    ensures { GivesCatalog declaring.now result }
{
    match catalog_of(alloc, slice::from_ref(declaring)) {
        Ok(catalog) => {
            // That they are a catalog's tables, for the proof.
            let _ = catalog.tables();
            Ok(catalog)
        }
        Err(fault) => Err(Answer::from(fault)),
    }
}

/// The catalog of the tables that the headers of a changeset tell of.
pub fn declared_tables(alloc: Global, declared: &[u8]) -> Result<Catalog, Answer>
    ensures { GivesTables declared.now result }
{
    let declaring = match read_declaring(alloc, declared) {
        Ok(declaring) => declaring,
        Err(answer) => return Err(answer),
    };
    match catalog_alone(alloc, &declaring) {
        Ok(catalog) => Ok(catalog),
        Err(answer) => Err(answer),
    }
}
