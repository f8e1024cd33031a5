//! Changesets and rebase blobs, read and written again.

use cs_changeset::CodecFault;
use std::alloc::Global;

/// A changeset. Of `t1`, whose key column is marked by 2, it has an INSERT, an indirect DELETE, and an UPDATE that names its key twice. Of
/// `t2`, of four columns, it has an UPDATE with each kind of field and one that modifies nothing. Last comes `t1` again, without changes.
const CHANGESET: &[u8] = b"\x54\x02\x02\0t1\0\
    \x12\0\x01\0\0\0\0\0\0\0\x01\x03\x02v1\
    \x09\x01\x01\0\0\0\0\0\0\0\x01\x05\
    \x17\x01\x01\0\0\0\0\0\0\0\x01\x03\x02v1\x01\0\0\0\0\0\0\0\x01\x03\x02v2\
    \x54\x04\x01\0\0\0t2\0\
    \x17\0\x01\0\0\0\0\0\0\0\x01\x03\0\x05\0\0\x04\0\x03\0\0\
    \x17\0\x01\0\0\0\0\0\0\0\x01\x03\x02v1\x05\0\0\0\0\0\
    \x54\x02\x01\0t1\0";

/// A blob. Of `t1` it has a change that was answered OMIT and a DELETE that was answered REPLACE. Of `t2` it has a change of no column
/// that was answered REPLACE. Of `t`, whose one column is marked by 2, it has a change of NULL.
const BLOB: &[u8] = b"\x54\x02\x01\0t1\0\
    \x12\0\x01\0\0\0\0\0\0\0\x01\x03\x02v2\
    \x09\x01\x01\0\0\0\0\0\0\0\x01\x03\x02v1\
    \x54\x04\x01\0\0\0t2\0\
    \x12\x01\x01\0\0\0\0\0\0\0\x01\0\0\0\
    \x54\x01\x02t\0\
    \x12\x01\x05";

/// The changeset as it is read and written again, behind a 7.
fn changeset_again(alloc: Global) -> Result<Vec<u8>, CodecFault> {
    let mut out = Vec::new(alloc);
    out.push(7)?;
    cs_changeset::encode(&cs_changeset::read(alloc, CHANGESET)?, &mut out)?;
    Ok(out)
}

/// The same of the blob.
fn blob_again(alloc: Global) -> Result<Vec<u8>, CodecFault> {
    let mut out = Vec::new(alloc);
    out.push(7)?;
    cs_blob::encode(&cs_blob::read(alloc, BLOB)?, &mut out)?;
    Ok(out)
}

/// Whether they are these bytes behind the 7.
fn are(again: Result<Vec<u8>, CodecFault>, bytes: &[u8]) -> bool {
    match again {
        Ok(out) => crate::given::is_joined(&out, &[&[7], bytes]),
        Err(_) => false,
    }
}

#[test]
fn what_is_read_is_written_again(rt: HostRuntime) {
    assert!(rt; are(changeset_again(rt.alloc()), CHANGESET));
    assert!(rt; are(blob_again(rt.alloc()), BLOB));
}

/// Whether want of memory is told by its name.
fn tells_memory(alloc: Global) -> bool {
    match CodecFault::Memory.to_string(alloc) {
        Ok(text) => text.as_str() == "Memory",
        Err(_) => false,
    }
}

#[test]
fn want_of_memory_is_told_by_name(rt: HostRuntime) {
    assert!(rt; tells_memory(rt.alloc()));
}
