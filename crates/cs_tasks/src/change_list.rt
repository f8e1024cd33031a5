//! The changes that are applied, without what is found of them.

ghost use Rattle.std.specs.Prelude.{◌≡◌, ◌++◌, map, IfOk, OnOk};
ghost use Rattle.cs_tasks.specs.Tasks.{table_of, tasks, tasks_at};

use crate::tasks::count_of;
use cs_change::{Change, Changeset, Group};
use cs_value::{Catalog, Memory};
use std::alloc::Global;
use std::marker::Model;

/// Changes in order. Those of one group are lent by it, and take no memory.
#[derive(Drop)]
pub struct ChangeList<'a> {
    /// The list, where there is one.
    listed: Option<Vec<Change<'a>>>,
    /// The changes, where there is none.
    lent: &'a [Change<'a>],
}

impl<'a> Model for ChangeList<'a> {
    ghost use Rattle.std.specs.Prelude.{List, option_map};
    ghost use Rattle.cs_change.specs.declared.change.Change.{Change as One};
    ghost use Rattle.cs_tasks.specs.Tasks.{listed_or};

    ghost Value = { List One };

    ghost view = { λ list. listed_or (option_map (λ listed. listed.items) list.listed) list.lent.now };
}

impl<'a> ChangeList<'a> {
    ghost use Rattle.std.specs.Prelude.{◌≡◌};

    /// These changes, lent.
    pub(crate) fn lend(changes: &'a [Change<'a>]) -> ChangeList<'a>
        ensures { result ≡ changes.now }
    {
        ChangeList {
            listed: None,
            lent: changes,
        }
    }

    /// The changes.
    #[inline(always)]
    pub fn as_slice(&self) -> &[Change<'a>]
        ensures { result.now ≡ self.now }
    {
        match &self.listed {
            Some(listed) => listed.as_slice(),
            None => self.lent,
        }
    }
}

/// How many changes there are, those included that aren't applied.
fn count_all(changeset: &Changeset<'_>) -> usize {
    let mut count = 0usize;
    for group in changeset.as_slice() {
        count = count.saturating_add(group.changes.as_slice().len());
    }
    count
}

/// Puts the changes of a group behind the others where the group fits a table.
fn list_group<'a>(
    catalog: &Catalog,
    group: &Group<'a>,
    changes: &mut Vec<Change<'a>>,
) -> Result<(), Memory>
    ensures { OnOk result (changes.new.items
        ≡ changes.old.items ++ map (λ t. t.change) (tasks_at (table_of group.now catalog.now) group.now)) }
{
    if count_of(catalog, group) == 0 {
        return Ok(());
    }
    for change in group.changes.as_slice() {
        changes.push(change.again())?;
    }
    Ok(())
}

/// The changes that are applied, in a list of their own.
pub(crate) fn list_changes<'a>(
    alloc: Global,
    catalog: &Catalog,
    changeset: &Changeset<'a>,
) -> Result<ChangeList<'a>, Memory>
    ensures { IfOk result (λ changes. changes ≡ map (λ t. t.change) (tasks catalog.now changeset.now)) }
{
    let mut changes = Vec::with_capacity(alloc, count_all(changeset))?;
    for group in changeset.as_slice() {
        list_group(catalog, group, &mut changes)?;
    }
    Ok(ChangeList {
        listed: Some(changes),
        lent: &[],
    })
}
