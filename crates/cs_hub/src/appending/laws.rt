//! The laws of appending, each the contract of a function that does nothing.

ghost use Rattle.std.specs.Prelude.{◌≡◌};
ghost use Rattle.cs_hub.specs.appending.Laws.{DefinedOrConflict, OneFirstConflict};
ghost use Rattle.cs_conflict.specs.declared.conflict.Resolution.TheVariants.{Abort};

use cs_conflict::{Conflict, Resolution};

/// A changeset has one first conflict with the rows.
pub fn one_first_conflict()
    ensures { OneFirstConflict }
{}

/// The same as below, by what any closure is asked.
fn defined_or_asked<H: FnMut(&Conflict<'_>) -> Resolution>(_answer: &H)
    ensures { DefinedOrConflict }
{
    cs_conflict::laws::kind_tells();
    cs_apply::laws::normal_asks::<H>();
}

/// A changeset of the tables is defined on the rows, or has a first conflict with them.
pub fn defined_or_conflict()
    ensures { DefinedOrConflict }
{
    defined_or_asked(
        &|_shown: &Conflict<'_>| -> Resolution
            ensures { result ≡ Abort }
        { Resolution::Abort },
    )
}
