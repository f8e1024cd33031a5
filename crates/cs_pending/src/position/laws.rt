//! The laws of positions, each the contract of a function that does nothing.

ghost use Rattle.std.specs.Prelude.{◌≡◌};
ghost use Rattle.cs_pending.specs.position.Laws.{CommitShows, CommitShowsOthers, OnePosition};
ghost use Rattle.cs_pending.specs.declared.position.position.TheConstants.{LAST_NUMBER};

/// The last number that a push may have.
pub fn last_number()
    ensures { LAST_NUMBER ≡ 9223372036854775807 }
{}

/// Where a commit's edits of rows and pending changes make a view, and its values lead to another position, it shows a
/// replica there.
pub fn commit_shows()
    ensures { CommitShows }
{
    cs_store::laws::commits();
}

/// The same where its values lead to other tables too, of which there are as many.
pub fn commit_shows_others()
    ensures { CommitShowsOthers }
{
    cs_store::laws::commits();
}

/// Contents show a replica at one position, and one view.
pub fn one_position()
    ensures { OnePosition }
{
    crate::laws::one_view();
    cs_store::log::laws::one_body();
}
