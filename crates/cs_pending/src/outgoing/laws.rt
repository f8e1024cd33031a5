//! The laws of what is pending, each the contract of a function that does nothing.

ghost use Rattle.cs_pending.specs.outgoing.Outgoing.{OnePending, PendingIsOutgoing};

/// There is one changeset of what is pending.
pub fn one_pending()
    ensures { OnePending }
{
    cs_normal::laws::one_normal();
}

/// What contents show as pending has an answer: a changeset, that there is nothing, or that it has too many bytes.
pub fn pending_is_outgoing()
    ensures { PendingIsOutgoing }
{
    cs_value::laws::catalogs();
    cs_normal::laws::one_key_stands();
    cs_normal::laws::headers_fit();
    cs_normal::laws::catalog_is_apart();
    cs_normal::laws::fitting_is_normal();
    cs_change::laws::net_takes();
}
