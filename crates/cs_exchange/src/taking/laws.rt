//! The laws of taking another's entry, each the contract of a function that does nothing.

ghost use Rattle.cs_exchange.specs.taking.Laws.{BadIsNeither, NextIsShown, NoStopWhereTaken, OneClash, OneContents, OneLogRows, OneStopTaking, OneTaken, OneTakenIn, OneWidened, TakenInOrStopped, TakenOrStopped, TakerTakes, WidenCanBeTaken, WidenedLeads};

use cs_conflict::Picker;

/// A change, a row of the log and an own row have one clash.
pub fn one_clash()
    ensures { OneClash }
{}

/// What shows one view at one position holds one thing, and shows one state of the log's rows there. What a store shows can be
/// shown at another version.
pub fn one_contents()
    ensures contents { OneContents }
    ensures log_rows { OneLogRows }
    ensures next { NextIsShown }
{
    cs_pending::laws::one_view();
}

/// Where a picker has one answer to each clash, an entry that is taken from what one store shows leaves one view. It leaves one state
/// of the picker, and that store then holds one thing.
pub fn one_taken<P: Picker>()
    ensures view { OneTaken P.picks }
    ensures contents { OneTakenIn P.picks }
{
    cs_value::laws::catalogs();
    cs_normal::keyed::laws::bytes_tell_keys();
    cs_normal::laws::set_columns_fit();
    cs_change::laws::normal_is_net();
    cs_rebaser::laws::merge_alike();
    cs_pending::laws::one_view();
}

/// Where a picker has one answer to each clash, it stops at one conflict, in one state.
pub fn one_stop_taking<P: Picker>()
    ensures { OneStopTaking P.picks }
{}

/// Where a picker has one answer to each clash, it doesn't stop at an entry that is taken.
pub fn no_stop_where_taken<P: Picker>()
    ensures { NoStopWhereTaken P.picks }
{}

/// An entry that isn't defined on the log's rows is neither taken nor stopped at.
pub fn bad_is_neither<P: Picker>()
    ensures { BadIsNeither P.picks }
{
    cs_normal::laws::defined_is_applied();
}

/// Where a picker has a lawful answer to each clash, each entry that is defined on the log's rows is taken, or stopped at. Where it
/// is taken, there is a store that holds what is left.
pub fn taken_or_stopped<P: Picker>()
    ensures view { TakenOrStopped P.picks P.is_ready }
    ensures contents { TakenInOrStopped P.picks P.is_ready }
{
    cs_value::laws::catalogs();
    cs_normal::keyed::laws::bytes_tell_keys();
    cs_normal::laws::set_columns_fit();
    cs_normal::laws::one_key_stands();
    cs_normal::laws::defined_is_applied();
    cs_normal::laws::applied_is_net();
    cs_change::laws::net_takes();
    cs_change::laws::normal_is_net();
    cs_conflict::laws::kind_tells();
    cs_conflict::laws::made_as_replaced();
    cs_conflict::laws::replaces_unless_not_found();
    cs_rebaser::laws::diamond();
    cs_pending::laws::one_view();
}

/// A picker that takes where it can is one of those that the laws speak of. It takes each entry that is defined on the log's rows.
pub fn taker_takes()
    ensures { TakerTakes }
{
    cs_value::laws::catalogs();
    cs_normal::keyed::laws::bytes_tell_keys();
    cs_normal::laws::set_columns_fit();
    cs_normal::laws::one_key_stands();
    cs_normal::laws::defined_is_applied();
    cs_normal::laws::applied_is_net();
    cs_change::laws::net_takes();
    cs_change::laws::normal_is_net();
    cs_conflict::laws::kind_tells();
    cs_conflict::laws::made_as_replaced();
    cs_conflict::laws::replaces_unless_not_found();
    cs_conflict::laws::not_found_is_covered();
    cs_rebaser::laws::diamond();
    cs_pending::laws::one_view();
}

/// An entry that widens a table, and is taken, leaves the log's rows with the new columns, and what is pending sound over them.
pub fn widened_leads()
    ensures { WidenedLeads }
{
    cs_padding::laws::sound_widens();
}

/// Taken from what one store shows it leaves one view.
pub fn one_widened()
    ensures { OneWidened }
{
    cs_pending::laws::one_view();
    one_contents();
}

/// Where a table may be widened so, there is a store that holds what such an entry leaves.
pub fn widen_can_be_taken()
    ensures { WidenCanBeTaken }
{
    cs_padding::laws::wide_store_can_be();
    taker_takes();
}
