//! The law of rows as a list, the contract of a function that does nothing.

ghost use Rattle.cs_pending.specs.rows.Rows.{OneTableOfRows};

/// What stands at the places of a table is one list of rows.
pub fn one_table_of_rows()
    ensures { OneTableOfRows }
{}
