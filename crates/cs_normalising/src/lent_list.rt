//! The changes of a table as they were read.

use cs_change::Change;
use std::alloc::Global;
use std::marker::Model;

/// The changes of a table as they were read, over all its groups, in the bytes where they stand. They are those of its only
/// group, or those of many groups, gathered.
#[derive(Drop)]
pub(crate) struct LentList<'b, 'a> {
    group: &'b [Change<'a>],
    gathered: Vec<Change<'a>>,
}

impl<'b, 'a> Model for LentList<'b, 'a> {
    ghost use Rattle.std.specs.Prelude.{List};
    ghost use Rattle.cs_change.specs.declared.change.Change.{Change as One};
    ghost use Rattle.cs_normalising.specs.Steps.Standing.{gathered_or};

    ghost Value = { List One };

    ghost view = { λ list. gathered_or list.group.now list.gathered.items };
}

impl<'b, 'a> LentList<'b, 'a> {
    ghost use Rattle.std.specs.Prelude.{◌≡◌};

    /// The changes of the only group. It takes no memory.
    pub fn of_group(alloc: Global, changes: &'b [Change<'a>]) -> LentList<'b, 'a>
        ensures { result ≡ changes.now }
    {
        LentList {
            group: changes,
            gathered: Vec::new(alloc),
        }
    }

    /// The changes of many groups.
    pub fn of_groups(changes: Vec<Change<'a>>) -> LentList<'b, 'a>
        ensures { result ≡ changes.entry.items }
    {
        LentList {
            group: &[],
            gathered: changes,
        }
    }

    /// The changes, in the order in which they came.
    #[inline(always)]
    pub fn as_slice(&self) -> &[Change<'a>]
        ensures { result.now ≡ self.now }
    {
        if self.gathered.is_empty() {
            self.group
        } else {
            self.gathered.as_slice()
        }
    }
}
