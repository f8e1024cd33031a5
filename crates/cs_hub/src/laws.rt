//! The laws of what a hub answers, each the contract of a function that does nothing.

ghost use Rattle.std.specs.Prelude.{◌≡◌};
ghost use Rattle.cs_hub.specs.Laws.{OneHubRun, OneService, OpenedShows, RequestHasAnswer, RunsByLog, ServedAgain, StaleBehindAnother};
ghost use Rattle.cs_store.specs.declared.log.entry.TheConstants.{MAX_ENTRIES};

use crate::catching::laws::{catch_has_answer, one_catch};
use crate::hub::Hub;
use crate::judgement::laws::{one_answer, push_has_answer, widen_answers, widens_keep_log};
use cs_changeset::laws::changesets;
use cs_normalising::laws::{form_or_unfit, no_fault_where_fit, one_normal_form, one_unfit};
use cs_store::RowStore;
use cs_store::log::laws::{
    appended_is_log, catalog_next, catalogs_are_tables, empty_is_log, longer_log,
};
use cs_wire::laws::{asks_something, one_request};

/// What is opened shows the log that the store showed, or none where it held nothing.
pub fn opened_shows()
    ensures { OpenedShows }
{
    crate::log_opening::laws::hub_is_opened();
}

/// There is an answer to each request, whatever its bytes.
pub fn request_has_answer()
    ensures { RequestHasAnswer }
{
    asks_something();
    push_has_answer();
    widen_answers();
    catch_has_answer();
    changesets();
    form_or_unfit();
    catalogs_are_tables();
    catalog_next();
}

/// The hub and the bytes of a request determine the answer to them and the hub after it, where memory is not wanting.
pub fn one_service()
    ensures { OneService }
{
    one_request();
    one_answer();
    widen_answers();
    one_catch();
    changesets();
    no_fault_where_fit();
    one_unfit();
    one_normal_form();
    catalogs_are_tables();
}

/// What a hub answered it answers again, also a push that it appended, and then stays as it is.
pub fn served_again()
    ensures { ServedAgain }
{
    longer_log();
    widens_keep_log();
}

/// A push that would be appended behind a log is stale where another entry came there.
pub fn stale_behind_another()
    ensures { StaleBehindAnother }
{
    longer_log();
}

/// The lines that a new hub answers have one list of answers, up to want of memory.
pub fn one_run()
    ensures { OneHubRun MAX_ENTRIES }
{
    one_service();
    appended_is_log();
    widens_keep_log();
    empty_is_log();
}

/// Lines that are answered over a store that doesn't fail are answered by the log that it shows. The hub at hand changes nothing: it
/// names whose store it is.
pub fn runs_by_log<S: RowStore>(_hub: &Hub<S>)
    ensures { RunsByLog S.RowStore }
{}
