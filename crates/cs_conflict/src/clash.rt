//! A conflict of another's change with an own one.

ghost use Rattle.std.specs.Prelude.{◌≡◌, Some, true};
ghost use Rattle.cs_change.specs.Action.{action, is_delete};
ghost use Rattle.cs_conflict.specs.Conflict.{kind};
ghost use Rattle.cs_conflict.specs.Kinds.{kind-prop};
ghost use Rattle.cs_conflict.specs.Lawful.{covers as covers_of, includes};
ghost use Rattle.cs_conflict.specs.declared.kind.Kind.TheVariants.{NotFound};

use crate::conflict::Conflict;
use cs_change::Change;
use cs_record::{Cell, Record};

/// Another's change that can't be made on the own row, beside the own change of its place. What the ghost fields say is so
/// of each clash.
#[derive(Drop)]
pub struct Clash<'a> {
    /// The other's change, why it can't be made, and the own row or none.
    pub conflict: Conflict<'a>,
    /// The own change of that place, which leads to the own row or none.
    pub local: Change<'a>,
    /// Whether the own change touches each column that the other's does. It is false exactly where both are UPDATEs, and
    /// the other's modifies a column that the own one doesn't.
    pub covers: bool,
    pub ghost covers_is: { covers ≡ covers_of (action local) (action conflict.change) },
    pub ghost kind_is: { kind (action conflict.change) conflict.row ≡ Some conflict.kind } by { kind-prop (action conflict.change) conflict.row conflict.kind },
    pub ghost not_found: { conflict.kind ≡ NotFound → is_delete (action local) ≡ true },
}

/// Whether each column that the second record modifies, the first modifies too.
#[tactic(auto, unfolding(crate::specs::Lawful::includes))]
fn touches_all(mine: &Record<'_>, theirs: &Record<'_>) -> bool
    ensures { result ≡ includes mine.now theirs.now }
{
    let mut mine = mine.again();
    let mut theirs = theirs.again();
    while let (Some((m, more_mine)), Some((t, more_theirs))) = (
        mine.split_first(),
        theirs.split_first(),
    ) {
        if Cell::of_column(&m).is_none() && Cell::of_column(&t).is_some() {
            return false;
        }
        mine = more_mine;
        theirs = more_theirs;
    }
    true
}

/// Whether the local change touches each column that the remote one does. It takes no memory.
#[tactic(auto, unfolding(crate::specs::Lawful::covers))]
pub fn covers(local: &Change<'_>, remote: &Change<'_>) -> bool
    ensures { result ≡ covers_of (action local.now) (action remote.now) }
{
    match (local, remote) {
        (
            Change::Update {
                new_fields: mine,
                ..
            },
            Change::Update {
                new_fields: theirs,
                ..
            },
        ) => touches_all(mine, theirs),
        _ => true,
    }
}

impl<'a> Clash<'a> {
    ghost use Rattle.std.specs.Prelude.{◌≡◌, Some, true};
    ghost use Rattle.cs_change.specs.Action.{action, is_delete};

    /// The clash of a conflict with the own change of its place. It takes no memory.
    pub fn new(conflict: Conflict<'a>, local: Change<'a>) -> Clash<'a>
        // The conflict is that of its change with its row.
        requires kind { kind (action conflict.change) conflict.row ≡ Some conflict.kind }
        // Where there is no own row, the own change took it away.
        requires not_found { conflict.kind ≡ NotFound → is_delete (action local) ≡ true }
        ensures conflict { result.conflict ≡ conflict.entry }
        ensures local { result.local ≡ local.entry }
    {
        let covers = covers(&local, &conflict.change);
        Clash {
            conflict,
            local,
            covers,
        }
    }
}
