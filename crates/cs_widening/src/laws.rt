//! The laws of tables that get more columns, each the contract of a function that does nothing.

ghost use Rattle.cs_widening.specs.Laws.{AppliedWidens, BytesWiden, CanWidenOrNot, NetWidens, WidenedAreTables, WidenedFits, WidenedIsState, WideningCanBe};

/// A table of two columns can get a third.
pub fn widening_can_be()
    ensures { WideningCanBe }
{}

/// A table can get so many columns, or none of the name can.
pub fn can_widen_or_not()
    ensures { CanWidenOrNot }
{}

/// The tables of which one gets more columns are a catalog.
pub fn widened_are_tables()
    ensures { WidenedAreTables }
{}

/// What stood at the place of a key stands at it with the new columns.
pub fn widened_fits()
    ensures { WidenedFits }
{}

/// The net change of two rows with the new columns is their net change, with the new columns.
pub fn net_widens()
    ensures { NetWidens }
{}

/// A state of the tables is, with the new columns, one of the tables that have them.
pub fn widened_is_state()
    ensures { WidenedIsState }
{}

/// A changeset that is defined on a state is so with the new columns, and leaves what it left, with them.
pub fn applied_widens()
    ensures { AppliedWidens }
{
    cs_normal::laws::applied_is_net();
    cs_normal::laws::net_is_applied();
    cs_normal::laws::one_key_stands();
}

/// A row's bytes get those of NULL behind them, and those of an UPDATE's record get undefined fields.
pub fn bytes_widen()
    ensures { BytesWiden }
{}
