//! The laws of stores that show a hub's log, each the contract of a function that does nothing.

ghost use Rattle.cs_hub.specs.log_store.Laws.{AppendShows, FirstLogCanBe, OneLog};

use cs_store::laws::commits;
use cs_store::log::laws::{
    appended_is_log, catalog_next, empty_is_log, entry_leads, log_states, longer_log,
    one_stored_log,
};

/// A store shows one log at most.
pub fn one_log()
    ensures { OneLog }
{
    one_stored_log();
}

/// A commit of the next entry, with the edits that make of the rows what it makes of them, shows the longer log.
pub fn append_shows()
    ensures { AppendShows }
{
    appended_is_log();
    log_states();
    longer_log();
    catalog_next();
    entry_leads();
    commits();
}

/// A store of a hub without entries can be.
pub fn first_log_can_be()
    ensures { FirstLogCanBe }
{
    empty_is_log();
}
