//! The laws of replicas that stand on what is known, each the contract of a function that does nothing.

ghost use Rattle.cs_nodes.specs.following.Laws.{EqualWhereMet, FreshStands, KnownPullHasResult, OneKnownPull, OneKnownPush, StandsWider};

use cs_conflict::Picker;
use cs_store::RowStore;

/// A new replica stands on whatever is known.
pub fn fresh_stands()
    ensures { FreshStands }
{
    cs_store::log::laws::empty_is_log();
    cs_replica::laws::first_stands();
}

/// One that stands on what is known stands there as more gets known.
pub fn stands_wider<S: RowStore>()
    ensures { StandsWider S.RowStore }
{
    cs_replica::laws::stands_longer();
}

/// Replicas at rest at one version have the same rows, where what is known under them is the same up to there.
pub fn equal_where_met()
    ensures { EqualWhereMet }
{
    cs_replica::laws::equal_at_rest();
}

/// Where a picker has one answer to each clash, a pull of what is known has one result. It leaves one catalog, one position, one thing in
/// the store, and one state of the picker.
pub fn one_known_pull<P: Picker>()
    ensures { OneKnownPull P.picks }
{
    cs_widening::laws::widened_are_tables();
    cs_pending::laws::one_view();
    cs_exchange::taking::laws::one_contents();
    cs_exchange::taking::laws::one_stop_taking::<P>();
    cs_exchange::pulling::laws::one_pull::<P>();
    cs_exchange::pulling::laws::one_pull_fault::<P>();
}

/// Where a picker has a lawful answer to each clash, a pull of what is known has a result. There is a store that holds what is left.
pub fn known_pull_has_result<P: Picker>()
    ensures { KnownPullHasResult P.picks P.is_ready }
{
    cs_widening::laws::widened_are_tables();
    cs_exchange::pulling::laws::pulled_or_refused::<P>();
}

/// Where a picker has one answer to each clash, a push has one outcome, given the entry of the cell that it is offered for. It leaves one
/// catalog, one position, one thing in the store, and one state of the picker.
pub fn one_known_push<P: Picker>()
    ensures { OneKnownPush P.picks }
{
    cs_widening::laws::widened_are_tables();
    cs_pending::laws::one_view();
    cs_exchange::taking::laws::one_contents();
    cs_exchange::taking::laws::one_stop_taking::<P>();
    cs_exchange::pulling::laws::one_pull::<P>();
    cs_exchange::pulling::laws::one_pull_fault::<P>();
    cs_exchange::pushing::laws::one_push();
}
