//! Writing a changeset for SQLite's own `apply`.

ghost use Rattle.cs_ffi.specs.SqliteAnswers.{AnswersForSqlite, CanSpellForSqlite, GivesForSqlite, GivesHeaders};
ghost use Rattle.cs_ffi.specs.NormalAnswers.{TellsNoFault};

use crate::answer::Answer;
use crate::normal::{catalog_alone, read_declaring, read_form};
use crate::reading::hand_over;
use cs_changeset::Changeset;
use cs_changeset::laws::changesets;
use cs_column_bytes::laws::{heads_of_catalog, one_order_or_two, same_length, stays_the_same};
use cs_column_bytes::{Header, encode, has_one_order, put_headers};
use cs_normal::laws::normal_is_taken;
use cs_normalising::laws::no_fault_where_fit;
use std::alloc::Global;

/// The headers of a changeset, where those of each table have the same column bytes.
fn headers_in_order<'a>(
    alloc: Global,
    declaring: &'a Changeset<'_>,
) -> Result<Vec<Header<'a>>, Answer>
    ensures { GivesHeaders declaring.now result }
{
    let mut headers = Vec::new(alloc);
    put_headers(declaring.as_slice(), &mut headers)?;
    if has_one_order(alloc, headers.as_slice())? {
        Ok(headers)
    } else {
        Err(Answer::key_order())
    }
}

/// The spelling of the normal form of the changeset that the input spells, with the column bytes of the headers that
/// declare its tables.
fn bytes_for_sqlite(alloc: Global, declared: &[u8], input: &[u8]) -> Result<Vec<u8>, Answer>
    ensures { GivesForSqlite declared.now input.now result }
{
    // Only the column bytes change: laws, for the proof.
    normal_is_taken();
    heads_of_catalog();
    stays_the_same();
    same_length();
    let declaring = read_declaring(alloc, declared)?;
    let catalog = catalog_alone(alloc, &declaring)?;
    let headers = headers_in_order(alloc, &declaring)?;
    let normal = read_form(alloc, &catalog, input)?;
    let mut bytes = Vec::new(alloc);
    encode(alloc, &normal, headers.as_slice(), &mut bytes)?;
    Ok(bytes)
}

/// Brings a changeset into normal form by the tables that the headers of another declare. It writes it with the column
/// bytes of those headers into the caller's memory. Where it has no room there, nothing is written, and the count says
/// how many bytes it takes. (Profile of this project over SQLite's "changeset format".)
pub fn write_for_sqlite(alloc: Global, declared: &[u8], input: &[u8], output: &mut [u8]) -> Answer
    ensures answers { AnswersForSqlite declared.now input.now output.old output.new result }

    // What fits tables of one order is written, or memory is wanting.
    ensures fit { CanSpellForSqlite declared.now input.now → TellsNoFault result }
{
    // What fits has no fault: laws, for the proof.
    changesets();
    no_fault_where_fit();
    one_order_or_two();
    match bytes_for_sqlite(alloc, declared, input) {
        Ok(bytes) => hand_over(&bytes, output),
        Err(answer) => answer,
    }
}
