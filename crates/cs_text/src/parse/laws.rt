//! The laws of words, each the contract of a function that does nothing.

ghost use Rattle.cs_text.specs.parse.Laws.{WrittenIsRead};

/// What is written of a value is read as that value.
pub fn written_is_read()
    ensures { WrittenIsRead }
{}
