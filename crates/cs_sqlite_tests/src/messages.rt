//! Requests and answers that several tests give, in their bytes.

/// Push 1 of replica 7, of an INSERT of (1, 'v1') onto version 0.
pub(crate) const FIRST_PUSH: &[u8] =
    b"\x01\0\0\0\x07\0\0\0\0\0\0\0\x01\0\0\0\0\0\0\0\0\0\0\0\x16\x54\x02\x01\0\x74\x31\0\x12\0\x01\0\0\0\0\0\0\0\x01\x03\x02\x76\x31";

/// Its push 2, of an INSERT of (2, 'v1') onto version 1.
pub(crate) const SECOND_PUSH: &[u8] =
    b"\x01\0\0\0\x07\0\0\0\0\0\0\0\x02\0\0\0\0\0\0\0\x01\0\0\0\x16\x54\x02\x01\0\x74\x31\0\x12\0\x01\0\0\0\0\0\0\0\x02\x03\x02\x76\x31";

/// The answer that replica 7's push 1 was taken, as version 1.
pub(crate) const ACCEPTED: &[u8] = b"\x11\0\0\0\x07\0\0\0\0\0\0\0\x01\0\0\0\0\0\0\0\x01";
