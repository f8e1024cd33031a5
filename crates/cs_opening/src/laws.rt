//! The laws of opening, each the contract of a function that does nothing.

ghost use Rattle.cs_opening.specs.WiderLaws.{NoneRefusedWhereOpened, NothingByHanded, OneOpened, OneOpensBy, OneRefused, OpenedOrRefused, SomeOpensBy, WiderAgain};
ghost use Rattle.cs_opening.specs.Laws.{FirstCanBe, NoFaultWhereOpened, NothingShowsNone, OneOpenFault, OneOpening, OpensOrFails, ShownIsWhole};

/// What a store held is opened at one position, or has one fault, and never both, and there is one of the two. A store that shows a
/// replica holds something, and there are contents at the first position.
pub fn openings()
    ensures one { OneOpening }
    ensures fault { OneOpenFault }
    ensures opened { NoFaultWhereOpened }
    ensures found { OpensOrFails }
    ensures some { NothingShowsNone }
    ensures first { FirstCanBe }
{
    cs_pending::position::laws::one_position();
}

/// A store is opened by one list of tables: the handed ones where it holds nothing. Tables are as wide as themselves.
pub fn tables_kept()
    ensures again { WiderAgain }
    ensures one { OneOpensBy }
    ensures some { SomeOpensBy }
    ensures handed { NothingByHanded }
{
    cs_changeset::laws::changesets();
    cs_normal::laws::headers_fit();
}

/// By the tables that it keeps, what a store held is opened at one position or has one fault. There is one of the two, and never both.
pub fn openings_by_kept()
    ensures one { OneOpened }
    ensures fault { OneRefused }
    ensures opened { NoneRefusedWhereOpened }
    ensures found { OpenedOrRefused }
{
    tables_kept();
    crate::moving::laws::store_openings();
}

/// Where a store shows a replica, all that it holds is what its place says.
pub fn shown_is_whole()
    ensures { ShownIsWhole }
{
    cs_value::laws::catalogs();
    cs_normal::laws::one_key_stands();
    cs_change::laws::net_takes();
}
