//! The laws of views, each the contract of a function that does nothing.

ghost use Rattle.cs_pending.specs.Laws.{EditKeepsBefore, NewShows, OneEdits, OneView};

/// A store shows one view. A new store shows that there are such.
pub fn one_view()
    ensures one { OneView }
    ensures some { NewShows }
{
    cs_store::laws::states();
    cs_changeset::laws::changesets();
}

/// An edit keeps the rows before what is pending.
pub fn edit_keeps_before()
    ensures { EditKeepsBefore }
{
    cs_value::laws::catalogs();
    cs_normal::laws::one_key_stands();
    cs_change::laws::net_takes();
}

/// Edits one behind another leave one view.
pub fn one_edits()
    ensures { OneEdits }
{}
