//! The laws of opening a hub, each the contract of a function that does nothing.

ghost use Rattle.cs_hub.specs.log_opening.Laws.{HubIsOpened, HubOpensOrFails, NoHubFaultWhereOpened, OneHubFault, OneHubOpening};

/// What a store held is opened with one count of entries, or has one fault, and never both, and there is one of the two.
pub fn hub_openings()
    ensures one { OneHubOpening }
    ensures fault { OneHubFault }
    ensures opened { NoHubFaultWhereOpened }
    ensures found { HubOpensOrFails }
{
    crate::log_store::laws::first_log_can_be();
}

/// A store that shows a log is opened, and as it is.
pub fn hub_is_opened()
    ensures { HubIsOpened }
{
    cs_value::laws::catalogs();
    cs_store::laws::decoding();
    cs_store::log::laws::catalogs_are_tables();
}
