//! The laws of worlds, each the contract of a function that does nothing.

ghost use Rattle.cs_replica.specs.Laws.{AnswerHasResult};
ghost use Rattle.cs_world.specs.Laws.{AnswersFit, AskHasStep, CatchHasStep, CatchesMerge, DeliverHasStep, EditHasStep, EventsMerge, FirstIsSound, OneRun, OneStep, OrderHasStep, PullsMerge, PushHasStep, ResendHasStep, RestartHasStep, SoundHasHeadline, StepsAreSound, WishesPickOnce};
ghost use Rattle.cs_world.specs.StopsLaws.{FoundIsStep, FoundIsStepOfHub, OpensAsLeft, RunWithStops, RunsWhole, StopOfHub, StopOfReplica};

use cs_conflict::Picker;
use cs_conflict::wish_list::Wishes;

/// A world in which nothing has happened is sound.
pub fn first_is_sound()
    ensures { FirstIsSound }
{
    cs_store::log::laws::empty_is_log();
    cs_replica::laws::first_stands();
}

/// Each event keeps a world sound, and hands no replica a bad entry.
pub fn steps_are_sound()
    ensures { StepsAreSound }
{
    cs_changeset::laws::changesets();
    cs_normalising::laws::one_normal_form();
    cs_normalising::laws::no_fault_where_fit();
    cs_normal::laws::normal_is_taken();
    cs_normalising::laws::normal_again();
    cs_store::log::laws::most_bytes();
    cs_pending::position::laws::last_number();
    cs_store::log::laws::appended_is_log();
    cs_store::log::laws::longer_log();
    cs_store::log::laws::one_body();
    cs_store::log::laws::catalogs_are_tables();
    cs_store::log::laws::catalog_next();
    cs_wire::laws::one_request();
    cs_wire::laws::one_told_answer();
    cs_wire::laws::told_are_read();
    cs_exchange::taking::laws::one_contents();
    cs_exchange::pulling::laws::one_read();
    let wishes = Wishes::new(&[]);
    cs_exchange::pulling::laws::pulled_leads(&wishes);
    cs_replica::laws::stands_longer();
    cs_replica::laws::edit_stands();
    cs_replica::laws::steps_stand();
    cs_replica::laws::flight_fits();
    cs_hub::catching::laws::caught_are_others();
    cs_hub::catching::laws::consolidated_leads();
    cs_hub::judgement::laws::widen_is_entry();
}

/// What is sound has the headline.
pub fn sound_has_headline()
    ensures { SoundHasHeadline }
{
    cs_change::laws::net_takes();
    cs_normal::laws::one_key_stands();
    cs_replica::laws::flight_fits();
    cs_replica::laws::equal_at_rest();
}

/// By wishes in a list each clash has one answer.
pub fn wishes_pick_once()
    ensures { WishesPickOnce }
{}

/// What the hub of a sound world answers to what was asked of it spells an answer.
pub fn answers_fit()
    ensures { AnswersFit }
{
    cs_changeset::laws::changesets();
    cs_normalising::laws::one_normal_form();
    cs_normalising::laws::no_fault_where_fit();
    cs_normal::laws::normal_is_taken();
    cs_normalising::laws::normal_again();
    cs_store::log::laws::appended_is_log();
    cs_store::log::laws::longer_log();
    cs_store::log::laws::catalogs_are_tables();
    cs_store::log::laws::catalog_next();
    cs_store::log::laws::most_bytes();
    cs_wire::laws::one_request();
    cs_wire::laws::one_told_answer();
    cs_wire::laws::told_are_read();
    cs_hub::catching::laws::caught_are_others();
    cs_hub::judgement::laws::widen_is_entry();
}

/// In a sound world each entry that is pulled is a three-way merge. It merges the log's tables at the replica's version, its own rows, and
/// the log's tables at the next version. What is told taken together is so at once, over the log's tables at the version to which it leads.
pub fn pulls_merge()
    ensures each { PullsMerge }
    ensures together { CatchesMerge }
{
    cs_normal::laws::normal_is_taken();
    cs_normalising::laws::normal_again();
    cs_store::log::laws::one_body();
    cs_store::log::laws::catalogs_are_tables();
    cs_store::log::laws::catalog_next();
    cs_pending::laws::one_view();
    cs_exchange::taking::laws::one_contents();
    cs_exchange::pulling::laws::one_read();
    let wishes = Wishes::new(&[]);
    cs_exchange::pulling::laws::pulled_leads(&wishes);
    cs_rebaser::laws::merge_alike();
    cs_replica::laws::steps_stand();
    cs_replica::laws::flight_fits();
    cs_changeset::laws::changesets();
    cs_normalising::laws::one_normal_form();
    cs_hub::catching::laws::consolidated_leads();
}

/// In a sound world an event has one outcome, and leaves one world: but where memory was refused or a device failed.
pub fn one_step()
    ensures { OneStep }
{
    cs_hub::laws::one_service();
    cs_replica::laws::one_edited();
    cs_replica::laws::one_pushed();
    cs_replica::laws::one_resent();
    cs_replica::laws::one_heard();
    cs_wire::laws::one_told_answer();
}

/// In a sound world events one after another have one list of outcomes, and leave one world, where none is a refusal.
pub fn one_run()
    ensures { OneRun }
{
    one_step();
    steps_are_sound();
}

/// In a sound world an edit has an outcome that is no refusal.
pub fn edit_has_step()
    ensures { EditHasStep }
{
    cs_replica::laws::edit_has_result();
}

/// So does each event that makes its step behind others.
pub fn events_merge()
    ensures { EventsMerge }
{
    pulls_merge();
    steps_are_sound();
}

/// So has a push.
pub fn push_has_step()
    ensures { PushHasStep }
{
    cs_replica::laws::push_has_result();
}

/// So has a push that is to be sent once more.
pub fn resend_has_step()
    ensures { ResendHasStep }
{}

/// So has a question for entries, and one for entries taken together.
pub fn ask_has_step()
    ensures pull { AskHasStep }
    ensures catch { CatchHasStep }
{}

/// So has a wider table that is asked for.
pub fn order_has_step()
    ensures { OrderHasStep }
{}

/// So has a store that is read again.
pub fn restart_has_step()
    ensures { RestartHasStep }
{}

/// An answer has a result by such a picker.
fn answer_has_result_by<P: Picker>(_picker: &P)
    ensures { AnswerHasResult P.picks P.is_ready }
{
    cs_replica::laws::answer_has_result::<P>();
}

/// So has, in a sound world, a message that arrives.
pub fn deliver_has_step()
    ensures { DeliverHasStep }
{
    answers_fit();
    cs_conflict::laws::guarded_is_lawful();
    cs_hub::catching::laws::catch_has_answer();
    cs_hub::judgement::laws::widen_answers();
    cs_hub::judgement::laws::push_has_answer();
    cs_store::log::laws::catalogs_are_tables();
    cs_store::log::laws::catalog_next();
    cs_normal::laws::normal_is_taken();
    cs_normalising::laws::normal_again();
    let wishes = Wishes::new(&[]);
    answer_has_result_by(&wishes);
}

// ---- stops

/// A run with stops is a run without, and has the headline.
pub fn run_with_stops()
    ensures { RunWithStops }
{
    steps_are_sound();
    sound_has_headline();
}

/// Each run without stops is one in which none came.
pub fn runs_whole()
    ensures { RunsWhole }
{}

/// What a commit that failed may yet have left in a replica's store shows what a step of its event makes of the replica.
pub fn found_is_step()
    ensures { FoundIsStep }
{}

/// The same of the hub of a sound world.
pub fn found_is_step_of_hub()
    ensures { FoundIsStepOfHub }
{
    answers_fit();
}

/// Behind a stop of one replica's store, or of the hub's, the stores show a world that has the headline.
pub fn stops_keep_headline()
    ensures replica { StopOfReplica }
    ensures hub { StopOfHub }
{
    answers_fit();
    steps_are_sound();
    sound_has_headline();
}

/// What a stop leaves of a replica's store is opened as it stands.
pub fn opens_as_left()
    ensures { OpensAsLeft }
{
    cs_opening::moving::laws::store_openings();
    cs_opening::laws::openings();
}
