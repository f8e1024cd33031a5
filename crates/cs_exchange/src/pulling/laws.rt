//! The laws of entries that are pulled, each the contract of a function that does nothing.

ghost use Rattle.cs_exchange.specs.pulling.Laws.{FormOrNot, ListHasResult, MergedOrRefused, NoMergeFaultWhereTaken, NoPullFaultWherePulled, OneForm, OneList, OneMergeFault, OnePull, OnePullFault, OnePullIn, OneRead, OneTold, PulledLeads, PulledOrRefused, ReadOrNot, ToldHasResult};

use cs_conflict::Picker;

/// Bytes are read as one changeset.
pub fn one_form()
    ensures { OneForm }
{
    cs_changeset::laws::changesets();
    cs_normalising::laws::one_normal_form();
}

/// Bytes are read as a changeset, or can't be read.
pub fn form_or_not()
    ensures { FormOrNot }
{
    cs_changeset::laws::changesets();
    cs_normalising::laws::form_or_unfit();
    cs_normalising::laws::no_fault_where_fit();
}

/// An answer's entry is read as one entry of the log.
pub fn one_read()
    ensures { OneRead }
{
    cs_store::log::laws::one_body();
    one_form();
}

/// An answer's entry in bytes is read as an entry of the log, or can't be read.
pub fn read_or_not()
    ensures { ReadOrNot }
{
    cs_store::log::laws::next_or_not();
    form_or_not();
}

/// An entry that is pulled leads from the log's rows to those that it leaves of them.
pub fn pulled_leads<P: Picker>(_picker: &P)
    ensures { PulledLeads P.picks }
{
    cs_normal::laws::net_is_applied();
    crate::taking::laws::widened_leads();
}

/// Where a picker has one answer to each clash, an entry that is pulled from what one store shows leaves one view. It leaves one state
/// of the picker, and that store then holds one thing.
pub fn one_pull<P: Picker>()
    ensures view { OnePull P.picks }
    ensures contents { OnePullIn P.picks }
{
    cs_pending::laws::one_view();
    crate::taking::laws::one_taken::<P>();
    crate::taking::laws::one_widened();
    crate::taking::laws::one_contents();
}

/// Where a picker has one answer to each clash, an entry that is told at an index has one fault. One that is pulled has none.
pub fn one_pull_fault<P: Picker>()
    ensures one { OnePullFault P.picks }
    ensures pulled { NoPullFaultWherePulled P.picks }
{
    crate::taking::laws::one_stop_taking::<P>();
    crate::taking::laws::no_stop_where_taken::<P>();
    crate::taking::laws::bad_is_neither::<P>();
}

/// Where a picker has a lawful answer to each clash, each entry that is told at an index is pulled or has a fault. Where it is pulled,
/// there is a store that holds what is left.
pub fn pulled_or_refused<P: Picker>()
    ensures { PulledOrRefused P.picks P.is_ready }
{
    cs_store::log::laws::defined_or_not();
    cs_store::log::laws::next_or_not();
    cs_store::log::laws::one_body();
    cs_normal::laws::net_is_applied();
    cs_normal::laws::defined_is_applied();
    crate::taking::laws::widen_can_be_taken();
    crate::taking::laws::one_contents();
    crate::taking::laws::taken_or_stopped::<P>();
}

/// Where a picker has one answer to each clash, a list of entries has one result. It leaves one catalog, one position, one thing in
/// the store, and one state of the picker.
pub fn one_list<P: Picker>()
    ensures { OneList P.picks }
{
    cs_widening::laws::widened_are_tables();
    one_read();
    one_pull::<P>();
    cs_pending::laws::one_view();
    crate::taking::laws::one_contents();
    crate::taking::laws::one_stop_taking::<P>();
    crate::taking::laws::no_stop_where_taken::<P>();
    crate::taking::laws::bad_is_neither::<P>();
}

/// Where a picker has a lawful answer to each clash, a list of entries in bytes has a result. There is a store that holds what is left.
pub fn list_has_result<P: Picker>()
    ensures { ListHasResult P.picks P.is_ready }
{
    cs_widening::laws::widened_are_tables();
    one_read();
    read_or_not();
    pulled_or_refused::<P>();
}

/// Where a picker has one answer to each clash, entries that are told at once have one fault, and those that are taken have none.
pub fn one_merge_fault<P: Picker>()
    ensures one { OneMergeFault P.picks }
    ensures taken { NoMergeFaultWhereTaken P.picks }
{
    crate::taking::laws::one_stop_taking::<P>();
    crate::taking::laws::no_stop_where_taken::<P>();
    crate::taking::laws::bad_is_neither::<P>();
}

/// Where a picker has a lawful answer to each clash, entries that are told at once are taken or have a fault. Where they are taken,
/// there is a store that holds what is left.
pub fn merged_or_refused<P: Picker>()
    ensures { MergedOrRefused P.picks P.is_ready }
{
    cs_store::log::laws::defined_or_not();
    crate::taking::laws::taken_or_stopped::<P>();
}

/// Where a picker has one answer to each clash, bytes that are told to lead to a version have one result. They leave one position,
/// one thing in the store, and one state of the picker.
pub fn one_told<P: Picker>()
    ensures { OneTold P.picks }
{
    one_form();
    cs_pending::laws::one_view();
    crate::taking::laws::one_contents();
    crate::taking::laws::one_taken::<P>();
    crate::taking::laws::one_stop_taking::<P>();
    crate::taking::laws::no_stop_where_taken::<P>();
    crate::taking::laws::bad_is_neither::<P>();
}

/// Where a picker has a lawful answer to each clash, bytes that are told to lead to a version above the position's have a result.
/// There is a store that holds what is left.
pub fn told_has_result<P: Picker>()
    ensures { ToldHasResult P.picks P.is_ready }
{
    one_form();
    form_or_not();
    merged_or_refused::<P>();
}
