//! The column bytes that are written where the headers lack a table or have two orders of one, which no line of the program asks.

use cs_changeset::read;
use cs_column_bytes::*;
use cs_normal::{Normal, catalog_of};
use cs_normalising::normalise;
use cs_value::Memory;
use std::alloc::Global;
use std::slice;

/// Headers by table name and column bytes.
type Spelled<'s> = &'s [(&'s str, &'s [u8])];

/// A changeset that inserts the row 1, 2 into `t1`, whose key's columns stand in turned order, and into `t2`. First with the column bytes
/// that came in, then with those of the normal form, then with a 7 of another header of `t2`.
const CAME: &[u8] =
    b"\x54\x02\x02\x01t1\0\x12\0\x01\0\0\0\0\0\0\0\x01\x01\0\0\0\0\0\0\0\x02\x54\x02\0\x01t2\0\x12\0\x01\0\0\0\0\0\0\0\x01\x01\0\0\0\0\0\0\0\x02";

const NORMAL: &[u8] =
    b"\x54\x02\x01\x01t1\0\x12\0\x01\0\0\0\0\0\0\0\x01\x01\0\0\0\0\0\0\0\x02\x54\x02\0\x01t2\0\x12\0\x01\0\0\0\0\0\0\0\x01\x01\0\0\0\0\0\0\0\x02";

const SEVENTH: &[u8] =
    b"\x54\x02\x01\x01t1\0\x12\0\x01\0\0\0\0\0\0\0\x01\x01\0\0\0\0\0\0\0\x02\x54\x02\0\x07t2\0\x12\0\x01\0\0\0\0\0\0\0\x01\x01\0\0\0\0\0\0\0\x02";

/// Headers, and what is written by them.
const WRITTEN: [(Spelled<'static>, &[u8]); 4] = [
    (&[("t1", &[2, 1]), ("t2", &[0, 1])], CAME),
    (&[], NORMAL),
    (&[("t2", &[0, 7])], SEVENTH),
    (&[("t1", &[2, 1]), ("t1", &[1, 2])], CAME),
];

fn headers_of<'s>(alloc: Global, tables: Spelled<'s>) -> Result<Vec<Header<'s>>, Memory> {
    let mut headers = Vec::new(alloc);
    for (name, marks) in tables {
        headers.push(Header {
            name: *name,
            marks: *marks,
        })?;
    }
    Ok(headers)
}

/// The normal form of what came, by its own headers.
fn normal_of_came(alloc: Global) -> Option<Normal> {
    let changeset = read(alloc, CAME).ok()?;
    let catalog = catalog_of(alloc, slice::from_ref(&changeset)).ok()?;
    normalise(alloc, &catalog, &changeset).ok()
}

/// The normal form, written by these headers behind a byte.
fn written(alloc: Global, normal: &Normal, tables: Spelled<'_>) -> Result<Vec<u8>, Memory> {
    let headers = headers_of(alloc, tables)?;
    let mut out = vec![in alloc; 0xff]?;
    encode(alloc, normal, headers.as_slice(), &mut out)?;
    Ok(out)
}

/// Whether it is written so.
fn is_written(alloc: Global, tables: Spelled<'_>, want: &[u8]) -> Option<bool> {
    let normal = normal_of_came(alloc)?;
    let out = written(alloc, &normal, tables).ok()?;
    Some(crate::given::is_joined(&out, &[&[0xff], want]))
}

#[test]
fn columns_of_the_first_header(rt: HostRuntime) {
    for (tables, want) in &WRITTEN {
        assert!(rt; is_written(rt.alloc(), tables, want) == Some(true));
    }
}
