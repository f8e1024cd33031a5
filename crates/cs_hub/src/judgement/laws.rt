//! The laws of pushes and of new columns, each the contract of a function that does nothing.

ghost use Rattle.std.specs.Prelude.{◌≡◌};
ghost use Rattle.cs_hub.specs.judgement.Laws.{OneAnswer, OneWidenAnswer, PushHasAnswer, WidenHasAnswer, WidenIsEntry, WidenedAgain, WidensKeepLog};
ghost use Rattle.cs_hub.specs.declared.judgement.widen.TheConstants.{WIDEN_ORIGIN};

use crate::appending::laws::{defined_or_conflict, one_first_conflict};
use cs_store::log::laws::{
    appended_is_log, catalogs_are_tables, defined_or_not, most_bytes, one_body,
};

/// The answer to a push, and the hub after it, are determined by the hub and the push.
pub fn one_answer()
    ensures { OneAnswer }
{
    one_first_conflict();
}

/// There is an answer to each push that fits the catalog, and a hub after it. Each guard is decided, and where a change isn't defined
/// there is a first that isn't.
pub fn push_has_answer()
    ensures { PushHasAnswer }
{
    defined_or_not();
    defined_or_conflict();
    one_body();
    catalogs_are_tables();
}

/// There is one answer to a request that a table gets more columns, and one hub after it; there is one at all.
pub fn widen_answers()
    ensures one { OneWidenAnswer }
    ensures some { WidenHasAnswer }
{
    cs_widening::laws::can_widen_or_not();
}

/// The log stays one where a table gets more columns, and a repeat counts once.
pub fn widens_keep_log()
    ensures log { WidensKeepLog }
    ensures again { WidenedAgain }
{
    appended_is_log();
}

/// The origin of an entry that widens a table, and that it is one of the tables.
pub fn widen_is_entry()
    ensures origin { WIDEN_ORIGIN ≡ 4294967295 }
    ensures entry { WidenIsEntry }
{
    catalogs_are_tables();
    most_bytes();
}
