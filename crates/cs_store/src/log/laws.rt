//! The laws of logs, each the contract of a function that does nothing.

ghost use Rattle.std.specs.Prelude.{◌≡◌};
ghost use Rattle.cs_store.specs.log.Laws.{AppendedIsLog, CatalogNext, CatalogsAreTables, DefinedOrNot, EmptyIsLog, EntryLeads, FrontIsLog, LogIsApplied, LogStates, LongerLog, NextOrNot, OneBody, OneStateAVersion, OneStoredLog, PlainSlices, Slices};
ghost use Rattle.cs_store.specs.log.Widens.{CatalogByWidens, WidensGrow};
ghost use Rattle.cs_store.specs.declared.log.entry.TheConstants.{MAX_CHANGESET, MAX_ENTRIES};

use cs_changeset::laws::changesets;
use cs_normal::laws::{applied_is_net, normal_is_taken};
use cs_normalising::laws::{normal_again, one_normal_form};
use cs_widening::laws::{can_widen_or_not, widened_are_tables, widened_is_state};

/// How many bytes an entry's changeset may have.
pub fn most_bytes()
    ensures { MAX_CHANGESET ≡ 4294967295 }
{}

/// How many entries a log may have.
pub fn most_entries()
    ensures { MAX_ENTRIES ≡ 1048576 }
{}

/// A log without entries is one of any tables.
pub fn empty_is_log()
    ensures { EmptyIsLog }
{}

/// An entry that is defined on the tables of a log, behind it, makes a log.
pub fn appended_is_log()
    ensures { AppendedIsLog }
{}

/// The first entries of a log are one.
pub fn front_is_log()
    ensures { FrontIsLog }
{}

/// A longer log has the catalog and the tables that it had, at the versions that it had.
pub fn longer_log()
    ensures { LongerLog }
{}

/// There is one state a version: where each of its first entries is defined on what the earlier ones left, that is what
/// they leave.
pub fn one_state_a_version()
    ensures { OneStateAVersion }
{}

/// The entries between two versions lead from the tables at the one to those at the other: each is defined on what the
/// earlier ones left.
pub fn slices()
    ensures { Slices }
{}

/// Where none of them widens a table, their changesets are applied one after another by one catalog.
pub fn plain_slices()
    ensures { PlainSlices }
{}

/// The state that a log makes is that of its entries, each applied to what the earlier ones left: each is defined there.
pub fn log_is_applied()
    ensures { LogIsApplied }
{}

/// The tables at each version are a state of the catalog's tables.
pub fn log_states()
    ensures { LogStates }
{
    applied_is_net();
    widened_are_tables();
    widened_is_state();
}

/// The tables at each version are a catalog.
pub fn catalogs_are_tables()
    ensures { CatalogsAreTables }
{
    applied_is_net();
    widened_are_tables();
    widened_is_state();
}

/// A changeset is defined on a state or it isn't: its own places decide.
pub fn defined_or_not()
    ensures { DefinedOrNot }
{}

/// An entry whose changeset is normal is the next of a log or it isn't.
pub fn next_or_not()
    ensures { NextOrNot }
{
    defined_or_not();
    can_widen_or_not();
}

/// No two bodies of a catalog's tables are stored as the same bytes.
pub fn one_body()
    ensures { OneBody }
{
    changesets();
    normal_is_taken();
    normal_again();
    one_normal_form();
}

/// The catalog at a version is told by the tables that the log widens below it.
pub fn catalog_by_widens()
    ensures { CatalogByWidens }
{}

/// An entry more is one widened table more, or none.
pub fn widens_grow()
    ensures { WidensGrow }
{}

/// What an entry makes of the tables at its version are those at the next one.
pub fn entry_leads()
    ensures { EntryLeads }
{}

/// What an entry makes of the catalog at its version is the next one.
pub fn catalog_next()
    ensures { CatalogNext }
{}

/// No two logs of the same opening tables are stored alike.
pub fn one_stored_log()
    ensures { OneStoredLog }
{
    one_body();
    catalogs_are_tables();
}
