//! The laws of catching up, each the contract of a function that does nothing.

ghost use Rattle.cs_hub.specs.catching.Laws.{CatchHasAnswer, CaughtAreOthers, CaughtIsShort, ConsolidatedLeads, OneCatch, OneConsolidated, OthersAsLogGrows, SameEntries};

/// Entries of a log are, taken together, one changeset; and the same entries stand in it as it grows.
pub fn one_consolidated()
    ensures one { OneConsolidated }
    ensures same { SameEntries }
{
    cs_group::laws::one_join();
}

/// A replica that asks to catch up is told one thing.
pub fn one_catch()
    ensures { OneCatch }
{
    cs_group::laws::one_join();
}

/// And something.
pub fn catch_has_answer()
    ensures { CatchHasAnswer }
{
    cs_group::laws::one_join();
    cs_group::laws::some_join();
}

/// The entries of a log between two versions, where none widens a table, lead together from the tables at the one to those at the other.
pub fn consolidated_leads()
    ensures { ConsolidatedLeads }
{
    cs_group::laws::join_leads();
    cs_store::log::laws::plain_slices();
    cs_store::log::laws::log_states();
    cs_store::log::laws::catalogs_are_tables();
}

/// What a replica that asks to catch up is told as one are entries of others', and the log's, also as that grows. It fits a message.
pub fn caught_are_others()
    ensures told { CaughtAreOthers }
    ensures grows { OthersAsLogGrows }
    ensures short { CaughtIsShort }
{
    cs_group::laws::one_join();
}
