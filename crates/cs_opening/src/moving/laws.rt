//! The laws of opening any store, the contract of a function that does nothing.

ghost use Rattle.cs_opening.specs.moving.Laws.{NoStoreFaultWhereOpened, OneStoreFault, OneStoreOpening, OneValue, StoreOpensOrFails};

/// What a store held is opened at one position or has one fault. There is one of the two, and never both. A store keeps one value of
/// what is pending.
pub fn store_openings()
    ensures value { OneValue }
    ensures one { OneStoreOpening }
    ensures fault { OneStoreFault }
    ensures opened { NoStoreFaultWhereOpened }
    ensures found { StoreOpensOrFails }
{
    cs_store::log::laws::one_body();
    crate::laws::openings();
    cs_pending::position::laws::one_position();
}
