//! Requests: what a replica asks of the hub.

ghost use Rattle.std.specs.Prelude.{◌≡◌, ◌<◌, ◌^◌, ◌∷◌, ◌++◌, length, MatchOption, OnOk, OnErr};
ghost use Rattle.cs_wire.specs.Requests.{ReadsRequest, asked_of, catch_spelling, catch_tag, pull_numbers, pull_spelling, pull_tag, push_spelling, push_tag, widen_numbers, widen_request_spelling, widen_tag};

use crate::entry::split_numbers;
use crate::fault::WireFault;
use crate::numbers::{put, put_u8, put_u32, put_u64, split_sized, split_u32, split_u64};
use crate::push_head::PushHead;
use cs_value::{Memory, Text};

/// The first bytes of requests.
const PUSH: u8 = 1;

const PULL: u8 = 2;

const CATCH: u8 = 3;

const WIDEN: u8 = 4;

/// A request, whose changeset or name stands elsewhere.
#[derive(Clone, Copy, Debug)]
pub enum Request<'a> {
    /// Take the changeset that a replica made on the tables of the version `base`.
    Push {
        head: PushHead,
        changeset: &'a [u8],
    },
    /// Tell the entries from `first` on, at most `limit`.
    Pull {
        first: u64,
        limit: u32,
    },
    /// Tell what the entries from `first` on do together, at most `limit`, up to the first that is of this origin.
    Catch {
        origin: u32,
        first: u64,
        limit: u32,
    },
    /// Give the table so many columns, behind those that it has. This was asked for as number `number`, on the tables of the version
    /// `base`.
    Widen {
        number: u64,
        base: u64,
        width: u32,
        table: &'a str,
    },
}

/// A request that owns its changeset or its name.
#[derive(Drop)]
pub enum RequestBuf {
    /// Take the changeset that a replica made on the tables of the version `base`.
    Push {
        head: PushHead,
        changeset: Vec<u8>,
    },
    /// Tell the entries from `first` on, at most `limit`.
    Pull {
        first: u64,
        limit: u32,
    },
    /// Tell what the entries from `first` on do together, at most `limit`, up to the first that is of this origin.
    Catch {
        origin: u32,
        first: u64,
        limit: u32,
    },
    /// Give the table so many columns, behind those that it has. This was asked for as number `number`, on the tables of the version
    /// `base`.
    Widen {
        number: u64,
        base: u64,
        width: u32,
        table: Text,
    },
}

/// The numbers of a Pull: first, limit; and the rest.
fn split_pull(bytes: &[u8]) -> Option<(u64, u32, &[u8])>
    ensures { MatchOption result (length bytes.now < 12) (λ split. bytes.now ≡ pull_numbers split.0 split.1 split.2.now) }
{
    let (first, rest) = split_u64(bytes)?;
    let (limit, rest) = split_u32(rest)?;
    Some((first, limit, rest))
}

/// The Push behind its tag.
fn read_push(rest: &[u8]) -> Result<Request<'_>, WireFault>
    ensures { ReadsRequest (push_tag ∷ rest.now) (asked_of result) }
{
    let Some((origin, number, base, size, changeset)) = split_sized(rest) else {
        return Err(WireFault::Truncated);
    };
    let head = PushHead {
        origin,
        number,
        base,
    };
    if changeset.len() < size as usize {
        return Err(WireFault::Truncated);
    }
    if changeset.len() > size as usize {
        return Err(WireFault::TooLong);
    }
    Ok(Request::Push { head, changeset })
}

/// The Pull behind its tag.
fn read_pull(rest: &[u8]) -> Result<Request<'_>, WireFault>
    ensures { ReadsRequest (pull_tag ∷ rest.now) (asked_of result) }
{
    let Some((first, limit, more)) = split_pull(rest) else {
        return Err(WireFault::Truncated);
    };
    if !more.is_empty() {
        return Err(WireFault::TooLong);
    }
    Ok(Request::Pull { first, limit })
}

/// The Catch behind its tag. Its numbers stand as those of an entry do.
fn read_catch(rest: &[u8]) -> Result<Request<'_>, WireFault>
    ensures { ReadsRequest (catch_tag ∷ rest.now) (asked_of result) }
{
    let Some((origin, first, limit, more)) = split_numbers(rest) else {
        return Err(WireFault::Truncated);
    };
    if !more.is_empty() {
        return Err(WireFault::TooLong);
    }
    Ok(Request::Catch {
        origin,
        first,
        limit,
    })
}

/// The numbers of a Widen: number, base, width, the length of the name; and the rest.
fn split_named(bytes: &[u8]) -> Option<(u64, u64, u32, u32, &[u8])>
    ensures { MatchOption result (length bytes.now < 24)
        (λ split. bytes.now ≡ widen_numbers split.0 split.1 split.2 split.3 split.4.now) }
{
    let (number, rest) = split_u64(bytes)?;
    let (base, rest) = split_u64(rest)?;
    let (width, rest) = split_u32(rest)?;
    let (size, rest) = split_u32(rest)?;
    Some((number, base, width, size, rest))
}

/// The Widen behind its tag.
fn read_widen(rest: &[u8]) -> Result<Request<'_>, WireFault>
    ensures { ReadsRequest (widen_tag ∷ rest.now) (asked_of result) }
{
    let Some((number, base, width, size, name)) = split_named(rest) else {
        return Err(WireFault::Truncated);
    };
    if name.len() < size as usize {
        return Err(WireFault::Truncated);
    }
    if name.len() > size as usize {
        return Err(WireFault::TooLong);
    }
    let Ok(table) = str::from_utf8(name) else {
        return Err(WireFault::NotUtf8);
    };
    Ok(Request::Widen {
        number,
        base,
        width,
        table,
    })
}

/// Reads a request: the whole of the bytes.
fn read_request(bytes: &[u8]) -> Result<Request<'_>, WireFault>
    ensures { ReadsRequest bytes.now (asked_of result) }
{
    match bytes.split_first() {
        None => Err(WireFault::Truncated),
        Some((&PUSH, rest)) => read_push(rest),
        Some((&PULL, rest)) => read_pull(rest),
        Some((&CATCH, rest)) => read_catch(rest),
        Some((&WIDEN, rest)) => read_widen(rest),
        Some(_) => Err(WireFault::BadTag),
    }
}

/// Appends a Push. An `Err` changes nothing.
fn put_push(head: PushHead, changeset: &[u8], out: &mut Vec<u8>) -> Result<(), Memory>
    requires { length changeset.now < 2 ^ 32 }
    ensures ok { OnOk result (out.new.items ≡ out.old.items ++ push_spelling head changeset.now) }
    ensures err { OnErr result (out.new.items ≡ out.old.items) }
{
    out.reserve(25 + changeset.len())?;
    put_u8(PUSH, out);
    put_u32(head.origin, out);
    put_u64(head.number, out);
    put_u64(head.base, out);
    put_u32(changeset.len() as u32, out);
    put(changeset, out);
    Ok(())
}

/// Appends a Pull. An `Err` changes nothing.
fn put_pull(first: u64, limit: u32, out: &mut Vec<u8>) -> Result<(), Memory>
    ensures ok { OnOk result (out.new.items ≡ out.old.items ++ pull_spelling first limit) }
    ensures err { OnErr result (out.new.items ≡ out.old.items) }
{
    out.reserve(13)?;
    put_u8(PULL, out);
    put_u64(first, out);
    put_u32(limit, out);
    Ok(())
}

/// Appends a Catch. An `Err` changes nothing.
fn put_catch(origin: u32, first: u64, limit: u32, out: &mut Vec<u8>) -> Result<(), Memory>
    ensures ok { OnOk result (out.new.items ≡ out.old.items ++ catch_spelling origin first limit) }
    ensures err { OnErr result (out.new.items ≡ out.old.items) }
{
    out.reserve(17)?;
    put_u8(CATCH, out);
    put_u32(origin, out);
    put_u64(first, out);
    put_u32(limit, out);
    Ok(())
}

/// Appends a Widen. An `Err` changes nothing.
fn put_widen(
    number: u64,
    base: u64,
    width: u32,
    table: &[u8],
    out: &mut Vec<u8>,
) -> Result<(), Memory>
    requires { length table.now < 2 ^ 32 }
    ensures ok { OnOk result (out.new.items ≡ out.old.items ++ widen_request_spelling number base width table.now) }
    ensures err { OnErr result (out.new.items ≡ out.old.items) }
{
    out.reserve(25 + table.len())?;
    put_u8(WIDEN, out);
    put_u64(number, out);
    put_u64(base, out);
    put_u32(width, out);
    put_u32(table.len() as u32, out);
    put(table, out);
    Ok(())
}

impl<'a> Request<'a> {
    ghost use Rattle.std.specs.Prelude.{◌≡◌, ◌≢◌, ◌↔◌, ◌++◌, [], ℕ, List, Ok, Err, IfOk, IsErrOf, OnOk, OnErr};
    ghost use Rattle.cs_wire.specs.Requests.{Asked, FitsRequest, HasShortBytes, IsRequestFault, asked_by, asked_of, request_spelling};
    ghost use Rattle.cs_wire.specs.declared.fault.WireFault.{WireFault as Wrong};
    ghost use Rattle.cs_wire.specs.declared.fault.WireFault.TheVariants.{Truncated};

    /// Reads a request: the whole of the bytes. It takes no memory. A changeset and a name stay where they are.
    ///
    /// # Errors
    ///
    /// The fault that the bytes have first, from the left.
    pub fn decode(bytes: &'a [u8]) -> Result<Request<'a>, WireFault>
        // What is read is in range, and is spelled by the bytes.
        ensures found { IfOk result (λ request. FitsRequest (asked_by request) × (bytes.now ≡ request_spelling (asked_by request))) }

        // What the bytes spell is read.
        ensures only { (asked : Asked) → FitsRequest asked → bytes.now ≡ request_spelling asked → asked_of result ≡ Ok asked }

        // A fault is told exactly where the bytes have it.
        ensures fault { (fault : Wrong) → IsErrOf result fault ↔ IsRequestFault fault bytes.now }

        // A front of a request that isn't the whole of it is Truncated.
        ensures front { (asked : Asked) (rest : List ℕ) → FitsRequest asked → rest ≢ []
            → request_spelling asked ≡ bytes.now ++ rest → asked_of result ≡ Err Truncated }
    {
        crate::laws::one_request();
        crate::laws::front_of_request();
        read_request(bytes)
    }

    /// Appends the request. An `Err` changes nothing.
    ///
    /// # Errors
    ///
    /// Memory was refused.
    pub fn encode(&self, out: &mut Vec<u8>) -> Result<(), Memory>
        requires { HasShortBytes (asked_by self.now) }
        ensures ok { OnOk result (out.new.items ≡ out.old.items ++ request_spelling (asked_by self.now)) }
        ensures err { OnErr result (out.new.items ≡ out.old.items) }
    {
        match self {
            Request::Push { head, changeset } => put_push(*head, changeset, out),
            Request::Pull { first, limit } => put_pull(*first, *limit, out),
            Request::Catch {
                origin,
                first,
                limit,
            } => put_catch(*origin, *first, *limit, out),
            Request::Widen {
                number,
                base,
                width,
                table,
            } => put_widen(*number, *base, *width, table.as_bytes(), out),
        }
    }
}

impl RequestBuf {
    ghost use Rattle.std.specs.Prelude.{◌≡◌, ◌++◌, OnOk, OnErr};
    ghost use Rattle.cs_wire.specs.Requests.{HasShortBytes, asked_by, asked_by_owned, request_spelling};

    /// The same request, with its changeset or its name where they are.
    pub fn as_request(&self) -> Request<'_>
        ensures { asked_by result ≡ asked_by_owned self.now }
    {
        match self {
            RequestBuf::Push { head, changeset } => Request::Push {
                head: *head,
                changeset: changeset.as_slice(),
            },
            RequestBuf::Pull { first, limit } => Request::Pull {
                first: *first,
                limit: *limit,
            },
            RequestBuf::Catch {
                origin,
                first,
                limit,
            } => Request::Catch {
                origin: *origin,
                first: *first,
                limit: *limit,
            },
            RequestBuf::Widen {
                number,
                base,
                width,
                table,
            } => Request::Widen {
                number: *number,
                base: *base,
                width: *width,
                table: table.as_str(),
            },
        }
    }

    /// Appends the request. An `Err` changes nothing.
    ///
    /// # Errors
    ///
    /// Memory was refused.
    pub fn encode(&self, out: &mut Vec<u8>) -> Result<(), Memory>
        requires { HasShortBytes (asked_by_owned self.now) }
        ensures ok { OnOk result (out.new.items ≡ out.old.items ++ request_spelling (asked_by_owned self.now)) }
        ensures err { OnErr result (out.new.items ≡ out.old.items) }
    {
        self.as_request().encode(out)
    }
}
