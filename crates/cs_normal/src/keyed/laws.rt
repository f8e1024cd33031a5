//! The law of the bytes of keys, the contract of a function that does nothing.

ghost use Rattle.cs_normal.specs.keyed.Laws.{BytesTellKeys};

/// No two keys that have spellings have the same bytes.
pub fn bytes_tell_keys()
    ensures { BytesTellKeys }
{
    cs_record::laws::records();
}
