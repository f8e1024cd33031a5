//! The laws of replicas that stand on a log, of answers, and of a replica's steps, each the contract of a function that does nothing.

ghost use Rattle.cs_replica.specs.Laws.{AnswerHasResult, EditStands, EntryStands, EqualAtRest, FirstStands, FlightFits, KeptStands, LeadStands, OneAnswered, StandsLonger};
ghost use Rattle.cs_replica.specs.StepLaws.{EditHasResult, OneEdited, OneEditedAll, OneHeard, OnePushed, OneResent, PushHasResult};

use cs_conflict::Picker;
use cs_conflict::wish_list::Wishes;

/// A new replica stands on every log.
pub fn first_stands()
    ensures { FirstStands }
{}

/// One that stands on a log stands on it as it grows.
pub fn stands_longer()
    ensures { StandsLonger }
{
    cs_store::log::laws::longer_log();
}

/// An edit leaves it there.
pub fn edit_stands()
    ensures { EditStands }
{
    cs_pending::laws::edit_keeps_before();
}

/// What keeps version and log's rows leaves it there. What makes of the log's rows what the next entry makes of them leads to the
/// next version. So does what makes of them what leads to another version, at that version.
pub fn steps_stand()
    ensures kept { KeptStands }
    ensures entry { EntryStands }
    ensures lead { LeadStands }
{
    cs_store::log::laws::entry_leads();
}

/// What is under way is defined on the log's tables at the version.
pub fn flight_fits()
    ensures { FlightFits }
{
    cs_normal::laws::net_is_applied();
}

/// Replicas at one version with nothing under way and nothing pending have the same rows.
pub fn equal_at_rest()
    ensures { EqualAtRest }
{}

/// Where a picker has one answer to each clash, an answer of the hub has one result. It leaves one list of tables, one position, one
/// thing in the store, and one state of the picker.
pub fn one_answered<P: Picker>()
    ensures { OneAnswered P.picks }
{
    cs_pending::laws::one_view();
    cs_exchange::taking::laws::one_contents();
    cs_exchange::pulling::laws::one_list::<P>();
    cs_exchange::pulling::laws::one_told::<P>();
}

/// Where a picker has a lawful answer to each clash, an answer of the hub in bytes has a result. There is a store that holds what is
/// left.
pub fn answer_has_result<P: Picker>()
    ensures { AnswerHasResult P.picks P.is_ready }
{
    cs_exchange::taking::laws::one_contents();
    cs_exchange::pulling::laws::list_has_result::<P>();
    cs_exchange::pulling::laws::told_has_result::<P>();
}

/// But for faults of the store an edit has one result, and leaves one replica.
pub fn one_edited()
    ensures { OneEdited }
{
    cs_exchange::taking::laws::one_contents();
}

/// But for faults of the store edits one behind another have one result, and leave one replica.
pub fn one_edited_all()
    ensures { OneEditedAll }
{
    cs_exchange::taking::laws::one_contents();
}

/// An edit of a replica that some store shows has a result, and some store shows what it leaves.
pub fn edit_has_result()
    ensures { EditHasResult }
{
    cs_value::laws::catalogs();
    cs_normal::laws::one_key_stands();
    cs_normal::laws::set_columns_fit();
    cs_change::laws::net_takes();
}

/// But for want of memory and a device that fails a push asks one thing or has one fault, and leaves one replica.
pub fn one_pushed()
    ensures { OnePushed }
{
    cs_pending::outgoing::laws::one_pending();
    cs_exchange::pushing::laws::one_push();
}

/// A push of a replica that some store shows has a result, and some store shows what it leaves.
pub fn push_has_result()
    ensures { PushHasResult }
{
    cs_exchange::pushing::laws::made_or_push_fault();
}

/// But for want of memory the push under way asks one thing once more, or there is none.
pub fn one_resent()
    ensures { OneResent }
{}

/// What a picker answers an answer with, of which there is one.
fn one_answered_by<P: Picker>(_picker: &P)
    ensures { OneAnswered P.picks }
{
    one_answered::<P>();
}

/// But for want of memory and a device that fails an answer that is heard by a list of wishes has one result. It leaves one replica.
pub fn one_heard()
    ensures { OneHeard }
{
    cs_pending::laws::one_view();
    cs_exchange::taking::laws::one_contents();
    let wishes = Wishes::new(&[]);
    one_answered_by(&wishes);
}
