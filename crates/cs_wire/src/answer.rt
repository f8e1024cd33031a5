//! Answers: what the hub tells a replica.

ghost use Rattle.std.specs.Prelude.{◌≡◌, ◌<◌, ◌∷◌, ◌++◌, length, MatchOption};
ghost use Rattle.cs_wire.specs.Answers.{ReadsAnswer, accepted_numbers, accepted_tag, entries_numbers, entries_tag, merged_tag, refused_tag, stale_tag};

use crate::changeset_bytes::ChangesetBytes;
use crate::entries::Entries;
use crate::fault::WireFault;
use crate::numbers::{split_sized, split_u32, split_u64};
use crate::short_answer::{ACCEPTED, REFUSED, STALE, ShortAnswer};
use crate::writing::{ENTRIES, MERGED};

/// An answer, with entries and a changeset that stay in their bytes.
#[derive(Drop)]
pub enum Answer<'a> {
    /// What became of a push, or a refusal.
    Short(ShortAnswer),
    /// The entries of the log from `first` on.
    Entries {
        first: u64,
        entries: Entries<'a>,
    },
    /// What the entries of the log from `first` on do together, up to the one at `next`, as one changeset. It answers a Catch of `origin`.
    Merged {
        origin: u32,
        first: u64,
        next: u64,
        changeset: ChangesetBytes<'a>,
    },
}

/// The numbers of Accepted: origin, number, version; and the rest.
fn split_accepted(bytes: &[u8]) -> Option<(u32, u64, u64, &[u8])>
    ensures { MatchOption result (length bytes.now < 20)
        (λ split. bytes.now ≡ accepted_numbers split.0 split.1 split.2 split.3.now) }
{
    let (origin, rest) = split_u32(bytes)?;
    let (number, rest) = split_u64(rest)?;
    let (version, rest) = split_u64(rest)?;
    Some((origin, number, version, rest))
}

/// The numbers before entries: first, count; and the rest.
fn split_entries(bytes: &[u8]) -> Option<(u64, u32, &[u8])>
    ensures { MatchOption result (length bytes.now < 12)
        (λ split. bytes.now ≡ entries_numbers split.0 split.1 split.2.now) }
{
    let (first, rest) = split_u64(bytes)?;
    let (count, rest) = split_u32(rest)?;
    Some((first, count, rest))
}

/// Accepted behind its tag.
fn read_accepted(rest: &[u8]) -> Result<Answer<'_>, WireFault>
    ensures { ReadsAnswer (accepted_tag ∷ rest.now) result }
{
    let Some((origin, number, version, more)) = split_accepted(rest) else {
        return Err(WireFault::Truncated);
    };
    if !more.is_empty() {
        return Err(WireFault::TooLong);
    }
    Ok(Answer::Short(ShortAnswer::Accepted {
        origin,
        number,
        version,
    }))
}

/// Stale behind its tag.
fn read_stale(rest: &[u8]) -> Result<Answer<'_>, WireFault>
    ensures { ReadsAnswer (stale_tag ∷ rest.now) result }
{
    let Some((newest, more)) = split_u64(rest) else {
        return Err(WireFault::Truncated);
    };
    if !more.is_empty() {
        return Err(WireFault::TooLong);
    }
    Ok(Answer::Short(ShortAnswer::Stale { newest }))
}

/// Refused behind its tag.
fn read_refused(rest: &[u8]) -> Result<Answer<'_>, WireFault>
    ensures { ReadsAnswer (refused_tag ∷ rest.now) result }
{
    let Some((code, more)) = rest.split_first() else {
        return Err(WireFault::Truncated);
    };
    if !more.is_empty() {
        return Err(WireFault::TooLong);
    }
    Ok(Answer::Short(ShortAnswer::Refused(*code)))
}

/// Entries behind their tag.
fn read_entries(rest: &[u8]) -> Result<Answer<'_>, WireFault>
    ensures { ReadsAnswer (entries_tag ∷ rest.now) result }
{
    let Some((first, count, behind)) = split_entries(rest) else {
        return Err(WireFault::Truncated);
    };
    let entries = Entries::decode(count, behind)?;
    Ok(Answer::Entries { first, entries })
}

/// Merged behind its tag.
fn read_merged(rest: &[u8]) -> Result<Answer<'_>, WireFault>
    ensures { ReadsAnswer (merged_tag ∷ rest.now) result }
{
    let Some((origin, first, next, size, changeset)) = split_sized(rest) else {
        return Err(WireFault::Truncated);
    };
    if changeset.len() < size as usize {
        return Err(WireFault::Truncated);
    }
    if changeset.len() > size as usize {
        return Err(WireFault::TooLong);
    }
    let changeset = ChangesetBytes::new(changeset);
    Ok(Answer::Merged {
        origin,
        first,
        next,
        changeset,
    })
}

/// Reads an answer: the whole of the bytes.
fn read_answer(bytes: &[u8]) -> Result<Answer<'_>, WireFault>
    ensures { ReadsAnswer bytes.now result }
{
    match bytes.split_first() {
        None => Err(WireFault::Truncated),
        Some((&ACCEPTED, rest)) => read_accepted(rest),
        Some((&STALE, rest)) => read_stale(rest),
        Some((&REFUSED, rest)) => read_refused(rest),
        Some((&ENTRIES, rest)) => read_entries(rest),
        Some((&MERGED, rest)) => read_merged(rest),
        Some(_) => Err(WireFault::BadTag),
    }
}

impl<'a> Answer<'a> {
    ghost use Rattle.std.specs.Prelude.{◌≡◌, ◌≢◌, ◌↔◌, ◌++◌, [], ℕ, List, Ok, Err, IfOk, IsErrOf};
    ghost use Rattle.cs_wire.specs.Answers.{FitsAnswer, IsAnswerFault, answer_spelling};
    ghost use Rattle.cs_wire.specs.declared.answer.Answer.{Answer as Told};
    ghost use Rattle.cs_wire.specs.declared.fault.WireFault.{WireFault as Wrong};
    ghost use Rattle.cs_wire.specs.declared.fault.WireFault.TheVariants.{Truncated};

    /// Reads an answer: the whole of the bytes. It takes no memory; entries and a changeset stay where they are.
    ///
    /// # Errors
    ///
    /// The fault that the bytes have first, from the left.
    pub fn decode(bytes: &'a [u8]) -> Result<Answer<'a>, WireFault>
        // What is read is in range, and is spelled by the bytes.
        ensures found { IfOk result (λ answer. FitsAnswer answer × (bytes.now ≡ answer_spelling answer)) }

        // What the bytes spell is read.
        ensures only { (answer : Told) → FitsAnswer answer → bytes.now ≡ answer_spelling answer → result ≡ Ok answer }

        // A fault is told exactly where the bytes have it.
        ensures fault { (fault : Wrong) → IsErrOf result fault ↔ IsAnswerFault fault bytes.now }

        // A front of an answer that isn't the whole of it is Truncated.
        ensures front { (answer : Told) (rest : List ℕ) → FitsAnswer answer → rest ≢ []
            → answer_spelling answer ≡ bytes.now ++ rest → result ≡ Err Truncated }
    {
        crate::laws::one_told_answer();
        crate::laws::front_of_answer();
        read_answer(bytes)
    }
}
