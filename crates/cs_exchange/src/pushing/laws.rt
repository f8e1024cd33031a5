//! The laws of pushes, each the contract of a function that does nothing.

ghost use Rattle.cs_exchange.specs.pushing.Laws.{MadeOrPushFault, NoFaultWhereMade, OnePush, OnePushFault};

/// Pushes that are made of one view have one changeset, and so lead to one position. A push has one fault, and one that is made has
/// none.
pub fn one_push()
    ensures one { OnePush }
    ensures fault { OnePushFault }
    ensures made { NoFaultWhereMade }
{
    cs_pending::outgoing::laws::one_pending();
}

/// A push of a replica that some contents show can be made or has a fault, which isn't want of memory or a failed device.
pub fn made_or_push_fault()
    ensures { MadeOrPushFault }
{
    cs_pending::outgoing::laws::pending_is_outgoing();
}
