//! Bringing a changeset into normal form.

ghost use Rattle.cs_ffi.specs.NormalAnswers.{AnswersNormal, GivesForm, GivesNormal, GivesTables, IsFitInput, ReadsDeclaring, TellsNoFault};

use crate::answer::Answer;
use crate::reading::hand_over_normal;
use cs_changeset::laws::changesets;
use cs_changeset::{Changeset, CodecFault, read};
use cs_normal::laws::normal_is_taken;
use cs_normal::{Normal, catalog_of};
use cs_normalising::laws::no_fault_where_fit;
use cs_normalising::normalise;
use cs_value::Catalog;
use std::alloc::Global;
use std::slice;

/// The changeset whose headers declare tables.
pub(crate) fn read_declaring(alloc: Global, declared: &[u8]) -> Result<Changeset<'_>, Answer>
    ensures { ReadsDeclaring declared.now result }
{
    match read(alloc, declared) {
        Ok(changeset) => Ok(changeset),
        Err(CodecFault::Memory) => Err(Answer::no_memory()),
        Err(CodecFault::At { .. }) => Err(Answer::no_tables()),
    }
}

/// The catalog of the tables that the headers of a changeset tell of.
pub(crate) fn catalog_alone(alloc: Global, declaring: &Changeset<'_>) -> Result<Catalog, Answer>
    ensures { GivesTables declaring.now result }
{
    match catalog_of(alloc, slice::from_ref(declaring)) {
        Ok(catalog) => {
            // That they are a catalog's tables, for the proof.
            let _ = catalog.tables();
            Ok(catalog)
        }
        Err(fault) => Err(Answer::undeclared(fault)),
    }
}

/// The normal form of the changeset that the input spells, by the catalog.
pub(crate) fn read_form(alloc: Global, catalog: &Catalog, input: &[u8]) -> Result<Normal, Answer>
    ensures { GivesForm catalog.now input.now result }
{
    match read(alloc, input) {
        Ok(changeset) => match normalise(alloc, catalog, &changeset) {
            Ok(normal) => Ok(normal),
            Err(fault) => Err(Answer::unfit(fault)),
        },
        Err(fault) => Err(Answer::refused(fault)),
    }
}

/// The normal form of the changeset that the input spells, by the declared tables.
fn read_normal(alloc: Global, declared: &[u8], input: &[u8]) -> Result<Normal, Answer>
    ensures { GivesNormal declared.now input.now result }
{
    // The reader takes what is in normal form: a law, for the proof.
    normal_is_taken();
    let declaring = read_declaring(alloc, declared)?;
    let catalog = catalog_alone(alloc, &declaring)?;
    read_form(alloc, &catalog, input)
}

/// Brings a changeset into normal form by the tables that the headers of another declare, and writes it into the
/// caller's memory. Where it has no room there, nothing is written, and the count says how many bytes it takes.
/// (Profile of this project over SQLite's "changeset format".)
pub fn write_normal(alloc: Global, declared: &[u8], input: &[u8], output: &mut [u8]) -> Answer
    ensures answers { AnswersNormal declared.now input.now output.old output.new result }

    // What fits is brought into normal form, or memory is wanting.
    ensures fit { IsFitInput declared.now input.now → TellsNoFault result }
{
    // What fits has no fault: laws, for the proof.
    changesets();
    no_fault_where_fit();
    match read_normal(alloc, declared, input) {
        Ok(normal) => hand_over_normal(alloc, &normal, output),
        Err(answer) => answer,
    }
}
