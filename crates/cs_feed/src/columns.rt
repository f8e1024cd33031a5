//! Reading the columns of a record as far as they came.

ghost use Rattle.std.specs.Prelude.{◌≡◌, ◌+◌, ◌^◌, ◌<◌};
ghost use Rattle.cs_feed.specs.Steps.{IsLater, IsWithin, NewReached, OldReached, ReadsNewOn, ReadsOldOn, ReadsRowOn, RowReached, part};

use crate::stage::Span;
use cs_changeset::{Fault, FirstFault, read_new, read_old, read_value};
use cs_record::Record;

/// The bytes of a span.
#[inline(always)]
pub fn bytes_of(bytes: &[u8], span: Span) -> &[u8]
    requires { IsWithin bytes.now span }
    ensures { result.now ≡ part bytes.now span }
{
    &bytes[span.start..span.end]
}

/// The same fault, told behind so many bytes; none where the bytes end early, since more may come.
#[inline(always)]
pub fn later(told: FirstFault, at: usize) -> Option<FirstFault>
    requires { at + told.offset < 2 ^ 64 }
    ensures { IsLater told at result }
{
    match told.fault {
        Fault::Truncated => None,
        fault => Some(fault.at(at + told.offset)),
    }
}

/// Reads the columns of a row that are left, and tells how far and how many are left then.
#[inline(always)]
pub fn read_row_on(
    bytes: &[u8],
    from: usize,
    marks: &[u8],
    left: usize,
) -> Result<(usize, usize), FirstFault>
    requires { RowReached bytes.now marks.now left from }
    ensures { ReadsRowOn bytes.now marks.now from result }
{
    cs_changeset::laws::columns();
    let mut at = from;
    let (_, mut rest) = marks.split_at(marks.len() - left);
    while let Some((_, more)) = rest.split_first() {
        match read_value(&bytes[at..]) {
            Ok((_, len)) => at += len,
            Err(told) => {
                return match later(told, at) {
                    None => Ok((at, rest.len())),
                    Some(fault) => Err(fault),
                };
            }
        }
        rest = more;
    }
    Ok((at, 0))
}

/// Reads the columns of an old record that are left, and tells where it stands then and how many are left.
#[inline(always)]
pub fn read_old_on(
    bytes: &[u8],
    old: Span,
    marks: &[u8],
    left: usize,
) -> Result<(Span, usize), FirstFault>
    requires { OldReached bytes.now marks.now left old }
    ensures { ReadsOldOn bytes.now marks.now old result }
{
    cs_changeset::laws::columns();
    let start = old.start;
    let mut end = old.end;
    let (_, mut rest) = marks.split_at(marks.len() - left);
    while let Some((mark, more)) = rest.split_first() {
        match read_old(&bytes[end..], *mark != 0) {
            Ok((_, len)) => end += len,
            Err(told) => {
                return match later(told, end) {
                    None => Ok((Span { start, end }, rest.len())),
                    Some(fault) => Err(fault),
                };
            }
        }
        rest = more;
    }
    Ok((Span { start, end }, 0))
}

/// Reads the columns of a new record that are left, beside those of the old one. It tells how far, how many are left then,
/// and where those of the old one stand.
#[inline(always)]
pub fn read_new_on(
    bytes: &[u8],
    from: usize,
    marks: &[u8],
    left: usize,
    old: Span,
) -> Result<(usize, usize, Span), FirstFault>
    requires { NewReached bytes.now marks.now left old from }
    ensures { ReadsNewOn bytes.now marks.now from result }
{
    cs_changeset::laws::columns();
    let end = old.end;
    let mut at = from;
    let (_, mut rest) = marks.split_at(marks.len() - left);
    let mut fields = Record::new(bytes_of(bytes, old));
    while let (Some((mark, more)), Some((before, behind))) = (
        rest.split_first(),
        fields.split_first(),
    ) {
        match read_new(&bytes[at..], *mark != 0, &before) {
            Ok((_, len)) => at += len,
            Err(told) => {
                let start = end - fields.bytes().len();
                return match later(told, at) {
                    None => Ok((at, rest.len(), Span { start, end })),
                    Some(fault) => Err(fault),
                };
            }
        }
        rest = more;
        fields = behind;
    }
    Ok((at, 0, Span { start: end, end }))
}
