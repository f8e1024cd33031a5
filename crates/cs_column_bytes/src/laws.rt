//! The laws of changesets with SQLite's column bytes, each the contract of a function that does nothing.

ghost use Rattle.cs_column_bytes.specs.Laws.{HeadsOfCatalog, OneOrderOrTwo, SameLength, SomeOrder, StaysTheSame};

/// No headers have one order of a key's columns and two.
pub fn one_order_or_two()
    ensures { OneOrderOrTwo }
{}

/// Headers have one order of a key's columns or two.
pub fn some_order()
    ensures { SomeOrder }
{}

/// With headers of its tables a changeset stays the same but for the column bytes, and the reader takes it.
pub fn stays_the_same()
    ensures { StaysTheSame }
{
    cs_normal::laws::normal_is_taken();
}

/// Groups that are the same but for the column bytes take as many bytes.
pub fn same_length()
    ensures { SameLength }
{}

/// The headers that a catalog was made of are headers of the tables of each changeset of that catalog. Changesets that
/// were taken together by it are such.
pub fn heads_of_catalog()
    ensures { HeadsOfCatalog }
{}
