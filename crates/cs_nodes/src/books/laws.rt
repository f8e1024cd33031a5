//! The laws of what books answer, each the contract of a function that does nothing.

ghost use Rattle.cs_nodes.specs.books.Laws.{OneKnownAnswer};

/// On one list of entries a request has one answer, whichever book gives it and however far that has come, where no device fails.
pub fn one_known_answer()
    ensures { OneKnownAnswer }
{
    cs_hub::laws::one_service();
}
