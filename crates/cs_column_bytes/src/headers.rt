//! Headers, and whether those of one table have the same column bytes.

ghost use Rattle.std.specs.Prelude.{◌≡◌, ◌↔◌, ◌++◌, ℕ, List, IfOk, IsTrue, MatchBool, OnOk, length, map, take};
ghost use Rattle.std.specs.Cmp.Lexicographic.{slice_cmp};
ghost use Rattle.std.specs.Ordering.{nat_cmp};
ghost use Rattle.cs_change.specs.Spelling.{flag_byte, is_nonzero};
ghost use Rattle.cs_column_bytes.specs.KeyPlaces.{HaveOneOrder, HasTwoOrders};
ghost use Rattle.cs_column_bytes.specs.Steps.{flags_of, head_of, heads_behind, kind_cmp, DifferInOrder, FirstColumns, NeighboursAgree};

use cs_blob::BlobGroup;
use cs_change::Group;
use cs_value::Memory;
use std::alloc::Global;
use std::cmp::Ordering;
use std::collections::BTreeMap;

/// A header where it stands: a table's name and its column bytes.
#[derive(Clone, Copy)]
pub struct Header<'a> {
    /// The table's name.
    pub name: &'a str,
    /// One byte a column: of a key column its place in the PRIMARY KEY from 1 on, of another 0.
    pub marks: &'a [u8],
}

/// A group that begins with a header: of a changeset, or of a rebase blob.
pub trait Headed: Drop {
    ghost head: { Self → List ℕ × List ℕ };

    /// Its header.
    fn header(&self) -> Header<'_>
        ensures { head_of result ≡ head self.now };
}

impl<'b> Headed for Group<'b> {
    ghost head = { λ group. (group.name, group.marks) };

    fn header(&self) -> Header<'_> {
        Header {
            name: self.name.as_str(),
            marks: self.marks.as_slice(),
        }
    }
}

impl<'b> Headed for BlobGroup<'b> {
    ghost head = { λ group. (group.name, group.marks) };

    fn header(&self) -> Header<'_> {
        Header {
            name: self.name.as_str(),
            marks: self.marks.as_slice(),
        }
    }
}

/// Appends the headers of groups. At an `Err` what stood there stands in front of what was appended.
pub fn put_headers<'a, G: Headed>(
    groups: &'a [G],
    headers: &mut Vec<Header<'a>>,
) -> Result<(), Memory>
    ensures ok { OnOk result (heads_behind headers.new.items ≡ heads_behind headers.old.items ++ map G.head groups.now) }
    ensures kept { take (length headers.old.items) headers.new.items ≡ headers.old.items }
{
    for group in groups {
        headers.push(group.header())?;
    }
    Ok(())
}

/// The column bytes of the first header of each name.
pub(crate) fn first_columns<'a>(
    alloc: Global,
    headers: &[Header<'a>],
) -> Result<BTreeMap<&'a str, &'a [u8]>, Memory>
    ensures { IfOk result (λ columns. FirstColumns (heads_behind headers.now) columns) }
{
    let mut columns = BTreeMap::new(alloc);
    for header in headers {
        if !columns.contains_key(header.name) {
            columns.insert(header.name, header.marks)?;
        }
    }
    Ok(columns)
}

/// 1 for the byte of a key column, and 0 for that of another.
fn flag(mark: &u8) -> u8
    ensures { result ≡ flag_byte (is_nonzero mark.now) }
{
    u8::from(*mark != 0)
}

/// Compares which columns are key columns.
fn compare_keys(left: &[u8], right: &[u8]) -> Ordering
    ensures { result ≡ slice_cmp nat_cmp (flags_of left.now) (flags_of right.now) }
{
    left.iter().map(flag).cmp(right.iter().map(flag))
}

/// Compares two headers: by the table's name, and then by which columns are key columns.
fn compare(left: &Header<'_>, right: &Header<'_>) -> Ordering
    ensures { result ≡ kind_cmp (head_of left.now) (head_of right.now) }
{
    left.name
        .cmp(right.name)
        .then_with(|| compare_keys(left.marks, right.marks))
}

/// Whether two headers are of one table with the same key columns, and have other column bytes.
fn differ_in_order(left: &Header<'_>, right: &Header<'_>) -> bool
    ensures { IsTrue result ↔ DifferInOrder (head_of left.now) (head_of right.now) }
{
    compare(left, right).is_eq() && left.marks != right.marks
}

/// Whether no two neighbours differ in the order of their key columns.
fn neighbours_agree(headers: &[Header<'_>]) -> bool
    ensures { MatchBool result (NeighboursAgree headers.now) (HasTwoOrders (heads_behind headers.now)) }
{
    for at in 1..headers.len() {
        if differ_in_order(&headers[at - 1], &headers[at]) {
            return false;
        }
    }
    true
}

/// Whether the headers of each table with the same key columns have the same column bytes. It looks at neighbours in the
/// order of names and key columns.
pub fn has_one_order(alloc: Global, headers: &[Header<'_>]) -> Result<bool, Memory>
    ensures { IfOk result (λ one.
        MatchBool one (HaveOneOrder (heads_behind headers.now)) (HasTwoOrders (heads_behind headers.now))) }
{
    let mut sorted = Vec::from_slice(alloc, headers)?;
    sorted.sort_unstable_by(|left, right| compare(left, right));
    Ok(neighbours_agree(&sorted))
}
