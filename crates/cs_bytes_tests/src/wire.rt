//! Messages beside bytes that were written by hand.

use cs_value::{Memory, Text};
use cs_wire::*;
use std::alloc::Global;

/// The head of the push of replica 7 that is told of below.
const HEAD: PushHead = PushHead {
    origin: 7,
    number: 1,
    base: 0,
};

/// A Push: 7, 1, base 0, and the changeset that inserts a row with the key 1 and the text `v1` into `t1`.
const PUSH: [u8; 47] = [
    1, 0, 0, 0, 7, 0, 0, 0, 0, 0, 0, 0, 1, 0, 0, 0, 0, 0, 0, 0, 0, 0, 0, 0, 0x16, 0x54, 2, 1, 0,
    0x74, 0x31, 0, 0x12, 0, 1, 0, 0, 0, 0, 0, 0, 0, 1, 3, 2, 0x76, 0x31,
];

/// A Pull: from entry 0, at most 10.
const PULL: [u8; 13] = [2, 0, 0, 0, 0, 0, 0, 0, 0, 0, 0, 0, 0x0a];

/// A Catch: of replica 9, from entry 0, at most 10.
const CATCH: [u8; 17] = [3, 0, 0, 0, 9, 0, 0, 0, 0, 0, 0, 0, 0, 0, 0, 0, 0x0a];

/// A Widen: 1, base 1, three columns, `t1`.
const WIDEN: [u8; 27] = [
    4, 0, 0, 0, 0, 0, 0, 0, 1, 0, 0, 0, 0, 0, 0, 0, 1, 0, 0, 0, 3, 0, 0, 0, 2, 0x74, 0x31,
];

/// Accepted: 7, 1, version 1.
const ACCEPTED: [u8; 21] = [
    0x11, 0, 0, 0, 7, 0, 0, 0, 0, 0, 0, 0, 1, 0, 0, 0, 0, 0, 0, 0, 1,
];

/// Stale: newest 1.
const STALE: [u8; 9] = [0x12, 0, 0, 0, 0, 0, 0, 0, 1];

/// Refused: code 41.
const REFUSED: [u8; 2] = [0x13, 0x29];

/// Entries: from 0, one, which is the push above.
const ENTRIES: [u8; 52] = [
    0x14, 0, 0, 0, 0, 0, 0, 0, 0, 0, 0, 0, 1, 0, 0, 0, 0, 7, 0, 0, 0, 0, 0, 0, 0, 1, 0, 0, 0, 0x16,
    0x54, 2, 1, 0, 0x74, 0x31, 0, 0x12, 0, 1, 0, 0, 0, 0, 0, 0, 0, 1, 3, 2, 0x76, 0x31,
];

/// Entries: from 1, one, which is the Widen above.
const WIDENED: [u8; 36] = [
    0x14, 0, 0, 0, 0, 0, 0, 0, 1, 0, 0, 0, 1, 1, 0xff, 0xff, 0xff, 0xff, 0, 0, 0, 0, 0, 0, 0, 1, 0,
    0, 0, 6, 0, 0, 0, 3, 0x74, 0x31,
];

/// Merged: for replica 9, from 0 to 2, the changeset of the push above.
const MERGED: [u8; 47] = [
    0x15, 0, 0, 0, 9, 0, 0, 0, 0, 0, 0, 0, 0, 0, 0, 0, 0, 0, 0, 0, 2, 0, 0, 0, 0x16, 0x54, 2, 1, 0,
    0x74, 0x31, 0, 0x12, 0, 1, 0, 0, 0, 0, 0, 0, 0, 1, 3, 2, 0x76, 0x31,
];

/// Whether the bytes are read as the push above.
fn is_the_push(bytes: &[u8]) -> bool {
    match Request::decode(bytes) {
        Ok(Request::Push { head, changeset }) => head == HEAD && changeset == &PUSH[25..],
        _ => false,
    }
}

/// Whether the bytes are read as the pull above.
fn is_the_pull(bytes: &[u8]) -> bool {
    match Request::decode(bytes) {
        Ok(Request::Pull { first, limit }) => first == 0 && limit == 10,
        _ => false,
    }
}

/// Whether the bytes are read as the catch above.
fn is_the_catch(bytes: &[u8]) -> bool {
    match Request::decode(bytes) {
        Ok(
            Request::Catch {
                origin,
                first,
                limit,
            },
        ) => origin == 9 && first == 0 && limit == 10,
        _ => false,
    }
}

/// Whether the bytes are read as the widening above.
fn is_the_widen(bytes: &[u8]) -> bool {
    match Request::decode(bytes) {
        Ok(
            Request::Widen {
                number,
                base,
                width,
                table,
            },
        ) => number == 1 && base == 1 && width == 3 && table == "t1",
        _ => false,
    }
}

#[test]
fn requests_are_read(rt: HostRuntime) {
    assert!(rt; is_the_push(&PUSH));
    assert!(rt; is_the_pull(&PULL));
    assert!(rt; is_the_catch(&CATCH));
    assert!(rt; is_the_widen(&WIDEN));
}

/// Whether these are the bytes.
fn are(written: Result<Vec<u8>, Memory>, bytes: &[u8]) -> bool {
    match written {
        Ok(written) => written.as_slice() == bytes,
        Err(_) => false,
    }
}

/// The push above, written.
fn written_push(alloc: Global) -> Result<Vec<u8>, Memory> {
    let mut out = Vec::new(alloc);
    let push = Request::Push {
        head: HEAD,
        changeset: &PUSH[25..],
    };
    push.encode(&mut out)?;
    Ok(out)
}

/// The pull above, written.
fn written_pull(alloc: Global) -> Result<Vec<u8>, Memory> {
    let mut out = Vec::new(alloc);
    let pull = Request::Pull {
        first: 0,
        limit: 10,
    };
    pull.encode(&mut out)?;
    Ok(out)
}

/// The catch above, written.
fn written_catch(alloc: Global) -> Result<Vec<u8>, Memory> {
    let mut out = Vec::new(alloc);
    let catch = RequestBuf::Catch {
        origin: 9,
        first: 0,
        limit: 10,
    };
    catch.encode(&mut out)?;
    Ok(out)
}

/// The push above, written out of a request that owns its changeset.
fn written_owned_push(alloc: Global) -> Result<Vec<u8>, Memory> {
    let mut out = Vec::new(alloc);
    let push = RequestBuf::Push {
        head: HEAD,
        changeset: Vec::from_slice(alloc, &PUSH[25..])?,
    };
    push.encode(&mut out)?;
    Ok(out)
}

/// The widening above, written out of a request that owns its name.
fn written_widen(alloc: Global) -> Result<Vec<u8>, Memory> {
    let mut out = Vec::new(alloc);
    let widen = RequestBuf::Widen {
        number: 1,
        base: 1,
        width: 3,
        table: Text::from_string(String::from_str(alloc, "t1")?),
    };
    widen.encode(&mut out)?;
    Ok(out)
}

#[test]
fn requests_are_written(rt: HostRuntime) {
    assert!(rt; are(written_push(rt.alloc()), &PUSH));
    assert!(rt; are(written_owned_push(rt.alloc()), &PUSH));
    assert!(rt; are(written_pull(rt.alloc()), &PULL));
    assert!(rt; are(written_catch(rt.alloc()), &CATCH));
    assert!(rt; are(written_widen(rt.alloc()), &WIDEN));
}

/// Whether the bytes are no request, for this fault.
fn is_no_request(bytes: &[u8], fault: WireFault) -> bool {
    match Request::decode(bytes) {
        Ok(_) => false,
        Err(told) => told == fault,
    }
}

/// Whether the bytes are no answer, for this fault.
fn is_no_answer(bytes: &[u8], fault: WireFault) -> bool {
    match Answer::decode(bytes) {
        Ok(_) => false,
        Err(told) => told == fault,
    }
}

#[test]
fn faults_of_requests(rt: HostRuntime) {
    let longer_pull = [2, 0, 0, 0, 0, 0, 0, 0, 0, 0, 0, 0, 0x0a, 0];
    let longer_catch = [3, 0, 0, 0, 9, 0, 0, 0, 0, 0, 0, 0, 0, 0, 0, 0, 0x0a, 0];
    let mut longer_push = PUSH;
    longer_push[24] = 0x15;
    assert!(rt; is_no_request(&[], WireFault::Truncated));
    assert!(rt; is_no_request(&[0x99], WireFault::BadTag));
    assert!(rt; is_no_request(&longer_pull, WireFault::TooLong));
    assert!(rt; is_no_request(&longer_catch, WireFault::TooLong));
    assert!(rt; is_no_request(&longer_push, WireFault::TooLong));
    assert!(rt; is_no_request(&ACCEPTED, WireFault::BadTag));
    let mut longer_widen = WIDEN;
    longer_widen[24] = 1;
    let mut endless_widen = WIDEN;
    endless_widen[21] = 0xff;
    let mut no_text = WIDEN;
    no_text[26] = 0xff;
    // A name that is no text is told where neither bytes lack nor stand behind.
    let mut longer = no_text;
    longer[24] = 1;
    assert!(rt; is_no_request(&longer_widen, WireFault::TooLong));
    assert!(rt; is_no_request(&endless_widen, WireFault::Truncated));
    assert!(rt; is_no_request(&no_text, WireFault::NotUtf8));
    assert!(rt; is_no_request(&longer, WireFault::TooLong));
    assert!(rt; is_no_request(&no_text[..26], WireFault::Truncated));
}

/// Whether each front of the bytes is a Truncated request.
fn are_truncated_requests(bytes: &[u8]) -> bool {
    let mut all = true;
    for end in 0..bytes.len() {
        all = all && is_no_request(&bytes[..end], WireFault::Truncated);
    }
    all
}

/// Whether each front of the bytes is a Truncated answer.
fn are_truncated_answers(bytes: &[u8]) -> bool {
    let mut all = true;
    for end in 0..bytes.len() {
        all = all && is_no_answer(&bytes[..end], WireFault::Truncated);
    }
    all
}

#[test]
fn fronts(rt: HostRuntime) {
    assert!(rt; are_truncated_requests(&PUSH));
    assert!(rt; are_truncated_requests(&PULL));
    assert!(rt; are_truncated_requests(&CATCH));
    assert!(rt; are_truncated_requests(&WIDEN));
    assert!(rt; are_truncated_answers(&ACCEPTED));
    assert!(rt; are_truncated_answers(&STALE));
    assert!(rt; are_truncated_answers(&REFUSED));
    assert!(rt; are_truncated_answers(&ENTRIES));
    assert!(rt; are_truncated_answers(&WIDENED));
    assert!(rt; are_truncated_answers(&MERGED));
}

/// Whether the bytes are read as this answer.
fn is_short(bytes: &[u8], answer: ShortAnswer) -> bool {
    match Answer::decode(bytes) {
        Ok(Answer::Short(told)) => told == answer,
        _ => false,
    }
}

/// The answers above but entries.
const ACCEPTED_ANSWER: ShortAnswer = ShortAnswer::Accepted {
    origin: 7,
    number: 1,
    version: 1,
};

const STALE_ANSWER: ShortAnswer = ShortAnswer::Stale { newest: 1 };

const REFUSED_ANSWER: ShortAnswer = ShortAnswer::Refused(0x29);

#[test]
fn short_answers_are_read(rt: HostRuntime) {
    assert!(rt; is_short(&ACCEPTED, ACCEPTED_ANSWER));
    assert!(rt; is_short(&STALE, STALE_ANSWER));
    assert!(rt; is_short(&REFUSED, REFUSED_ANSWER));
}

/// The bytes of the answer, for which the room is taken first.
fn written(alloc: Global, answer: ShortAnswer) -> Result<Vec<u8>, Memory> {
    let mut out = Vec::with_capacity(alloc, SHORT)?;
    answer.put(&mut out);
    Ok(out)
}

#[test]
fn short_answers_are_written(rt: HostRuntime) {
    assert!(rt;
        are(
            written(rt.alloc(), ShortAnswer::accepted(HEAD, 1)),
            &ACCEPTED
        )
    );
    assert!(rt; are(written(rt.alloc(), STALE_ANSWER), &STALE));
    assert!(rt; are(written(rt.alloc(), REFUSED_ANSWER), &REFUSED));
}

/// Whether the entry is the push above.
fn is_the_entry(entry: &WireEntry<'_>) -> bool {
    entry.kind() == 0 && entry.origin() == 7 && entry.number() == 1 && entry.body() == &PUSH[25..]
}

/// Whether there is one entry, the push above.
fn is_one(entries: &Entries<'_>) -> bool {
    match entries.split_first() {
        Some((entry, others)) => is_the_entry(&entry) && others.split_first().is_none(),
        None => false,
    }
}

/// Whether the bytes tell one entry from 0 on, the push above.
fn tells_the_push(bytes: &[u8]) -> bool {
    match Answer::decode(bytes) {
        Ok(Answer::Entries { first, entries }) => first == 0 && is_one(&entries),
        _ => false,
    }
}

/// Whether the bytes tell one entry from 1 on, the widening above.
fn tells_the_widen(bytes: &[u8]) -> bool {
    let Ok(Answer::Entries { first, entries }) = Answer::decode(bytes) else {
        return false;
    };
    let Some((entry, others)) = entries.split_first() else {
        return false;
    };
    let body: [u8; 6] = [0, 0, 0, 3, 0x74, 0x31];
    let is_of_hub = entry.kind() == 1 && entry.origin() == 4_294_967_295 && entry.number() == 1;
    first == 1 && is_of_hub && entry.body() == body.as_slice() && others.split_first().is_none()
}

#[test]
fn entries_are_read(rt: HostRuntime) {
    assert!(rt; tells_the_push(&ENTRIES));
    assert!(rt; tells_the_widen(&WIDENED));
}

/// Whether the bytes tell replica 9 what two entries from 0 on do together, the changeset of the push above.
fn tells_together(bytes: &[u8]) -> bool {
    match Answer::decode(bytes) {
        Ok(
            Answer::Merged {
                origin,
                first,
                next,
                changeset,
            },
        ) => origin == 9 && first == 0 && next == 2 && changeset.bytes() == &PUSH[25..],
        _ => false,
    }
}

#[test]
fn merged_is_read(rt: HostRuntime) {
    assert!(rt; tells_together(&MERGED));
}

#[test]
fn faults_of_answers(rt: HostRuntime) {
    let mut longer_merged = MERGED;
    longer_merged[24] = 0x15;
    let mut other_kind = ENTRIES;
    other_kind[13] = 2;
    let mut one_more = ENTRIES;
    one_more[12] = 2;
    let mut none = ENTRIES;
    none[12] = 0;
    assert!(rt; is_no_answer(&[], WireFault::Truncated));
    assert!(rt; is_no_answer(&[0x99], WireFault::BadTag));
    assert!(rt; is_no_answer(&[0x13, 0x29, 0], WireFault::TooLong));
    assert!(rt; is_no_answer(&other_kind, WireFault::BadKind));
    // The kind is told before the entry's end is missed.
    assert!(rt; is_no_answer(&other_kind[..14], WireFault::BadKind));
    assert!(rt; is_no_answer(&one_more, WireFault::Truncated));
    assert!(rt; is_no_answer(&none, WireFault::TooLong));
    assert!(rt; is_no_answer(&longer_merged, WireFault::TooLong));
    assert!(rt; is_no_answer(&PUSH, WireFault::BadTag));
}

/// The answer that tells the push above as the one entry of a log.
fn told_of_log(alloc: Global) -> Result<Vec<u8>, Memory> {
    let mut answer = entries_head(alloc, 0, 1)?;
    put_entry(0, 7, 1, &PUSH[25..], &mut answer)?;
    Ok(answer)
}

/// The answer that tells replica 9 what two entries do together, with the changeset put behind its head.
fn told_together(alloc: Global) -> Result<Vec<u8>, Memory> {
    let mut answer = merged_head(alloc, 9, 0, 2, 22)?;
    answer.extend_from_slice(&PUSH[25..])?;
    Ok(answer)
}

/// The answer that tells the widening above as the second entry of a log.
fn told_widen(alloc: Global) -> Result<Vec<u8>, Memory> {
    let mut answer = entries_head(alloc, 1, 1)?;
    put_entry(1, 4_294_967_295, 1, &[0, 0, 0, 3, 0x74, 0x31], &mut answer)?;
    Ok(answer)
}

#[test]
fn entries_are_written(rt: HostRuntime) {
    assert!(rt; are(told_of_log(rt.alloc()), &ENTRIES));
    assert!(rt; are(told_widen(rt.alloc()), &WIDENED));
    assert!(rt; are(told_together(rt.alloc()), &MERGED));
}

/// Whether the fault has this name and this code.
fn is_told(alloc: Global, fault: WireFault, text: &str, code: u8) -> Result<bool, Memory> {
    let name = format!(in alloc; "{fault}")?;
    Ok(name.as_str() == text && fault.code() == code)
}

#[test]
fn names_and_codes(rt: HostRuntime) {
    let faults: [(WireFault, &str, u8); 5] = [
        (WireFault::Truncated, "Truncated", 2),
        (WireFault::BadTag, "BadTag", 20),
        (WireFault::TooLong, "TooLong", 21),
        (WireFault::BadKind, "BadKind", 23),
        (WireFault::NotUtf8, "NotUtf8", 6),
    ];
    for (fault, text, code) in faults {
        assert!(rt; is_told(rt.alloc(), fault, text, code) == Ok(true));
    }
}
