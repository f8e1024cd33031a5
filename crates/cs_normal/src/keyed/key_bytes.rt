//! The bytes of a key.

ghost use Rattle.std.specs.Prelude.{◌≡◌, ◌++◌, IfOk, OnOk};
ghost use Rattle.cs_normal.specs.keyed.Changes.{key_bytes};

use cs_change::Bytes;
use cs_record::encode_value;
use cs_value::{Items, Memory, Value};
use std::alloc::Global;

/// The record of a key: the fields of its values, one after another. (SQLite's "changeset format", record.)
pub fn encode_key(alloc: Global, key: &[Value]) -> Result<Bytes, Memory>
    ensures { IfOk result (λ bytes. bytes ≡ key_bytes key.now) }
{
    let mut bytes = Vec::new(alloc);
    for value in key {
        encode_value(value, &mut bytes)?;
    }
    Ok(Items::from_vec(bytes))
}
