//! Closures whose answers are lawful: one decides by the kind of the conflict, one by its row, and one looks into the local
//! changeset. Each is used through the law `lawful_are_given`: what is applied with it closes the diamond.

ghost use Rattle.std.specs.Prelude.{◌≡◌, ◌≢◌, IfOk};
ghost use Rattle.std.specs.Fn.{CalledAt};
ghost use Rattle.cs_change.specs.Action.{action_any};
ghost use Rattle.cs_conflict.specs.declared.conflict.Resolution.TheVariants.{Abort};
ghost use Rattle.cs_normal.specs.Normal.{FitsCatalog};
ghost use Rattle.cs_normal.specs.State.{State, IsApplied};
ghost use Rattle.cs_rebaser.specs.DiamondOfTables.{AnswersLawfully, local_beside};
ghost use Rattle.cs_operations_tests.specs.Answers.{by_kind, by_row, over};
ghost use Rattle.cs_operations_tests.specs.Closes.{Closes};

use cs_apply::{Applied, ApplyFault, apply};
use cs_change::Change;
use cs_conflict::{Conflict, Kind, Resolution};
use cs_normal::keyed::put_key;
use cs_normal::{Normal, changes_of};
use cs_store::RowStore;
use cs_value::{Catalog, Memory};
use std::alloc::Global;

/// A local changeset, and the remote one that is applied to what it left.
#[derive(Clone, Copy)]
pub struct Sides<'a> {
    pub local: &'a Normal,
    pub remote: &'a Normal,
}

/// Applies the remote changeset to what the local one left, with a closure whose answers are lawful there.
fn apply_lawfully<S: RowStore, H: FnMut(&Conflict<'_>) -> Resolution>(
    alloc: Global,
    store: &mut S,
    catalog: &Catalog,
    sides: &Sides<'_>,
    answer: &mut H,
) -> Result<Applied, ApplyFault>
    requires callable { H.IsAlwaysCallable answer.old }
    requires fits { FitsCatalog catalog.now sides.now.remote.now }
    requires lawful { (base mine : State) → IsApplied catalog.now sides.now.local.now base mine
        → AnswersLawfully (CalledAt H.FnMut) catalog.now sides.now.local.now mine answer.old }
    ensures closes { S.honest store.new → IfOk result (Closes catalog.now sides.now.local.now sides.now.remote.now (S.contents store.old)) }
{
    cs_rebaser::laws::lawful_are_given::<H>();
    cs_rebaser::laws::diamond_of_tables::<H>();
    let _tables = catalog.tables();
    let _local = sides.local.tables();
    let _remote = sides.remote.tables();
    let changeset = sides.remote.lend(alloc)?;
    apply(alloc, store, catalog, &changeset, answer)
}

/// By the kind: the remote change is made wherever it can be.
pub fn apply_by_kind<S: RowStore>(
    alloc: Global,
    store: &mut S,
    catalog: &Catalog,
    sides: &Sides<'_>,
) -> Result<Applied, ApplyFault>
    requires fits { FitsCatalog catalog.now sides.now.remote.now }
    ensures closes { S.honest store.new → IfOk result (Closes catalog.now sides.now.local.now sides.now.remote.now (S.contents store.old)) }
{
    apply_lawfully(
        alloc,
        store,
        catalog,
        sides,
        &mut |conflict: &Conflict<'_>| -> Resolution
            ensures { result ≡ by_kind conflict.now.kind }
        {
            match conflict.kind {
                Kind::NotFound => Resolution::Omit,
                _ => Resolution::Replace,
            }
        },
    )
}

/// By the row. Where there is none the change is left out, and a row that is too large stops it. Over any other the remote
/// change is made.
pub fn apply_by_row<S: RowStore>(
    alloc: Global,
    store: &mut S,
    catalog: &Catalog,
    sides: &Sides<'_>,
) -> Result<Applied, ApplyFault>
    requires fits { FitsCatalog catalog.now sides.now.remote.now }
    ensures closes { S.honest store.new → IfOk result (Closes catalog.now sides.now.local.now sides.now.remote.now (S.contents store.old)) }
{
    apply_lawfully(
        alloc,
        store,
        catalog,
        sides,
        &mut |conflict: &Conflict<'_>| -> Resolution
            ensures { result ≡ by_row conflict.now.row }
        {
            match &conflict.row {
                None => Resolution::Omit,
                Some(row) if row.bytes().len() > 1_000 => Resolution::Abort,
                Some(_) => Resolution::Replace,
            }
        },
    )
}

/// The local change at the place of a conflict, if there is one.
fn local_change<'a>(
    alloc: Global,
    catalog: &Catalog,
    local: &'a Normal,
    conflict: &Conflict<'_>,
) -> Result<Option<Change<'a>>, Memory>
    ensures { IfOk result (λ found. action_any found ≡ local_beside catalog.now local.now conflict.now) }
{
    let Some(table) = catalog.tables().get(conflict.table as usize) else {
        return Ok(None);
    };
    let mut key = Vec::new(alloc);
    put_key(table.key_marks.as_slice(), &conflict.change, &mut key)?;
    match changes_of(local.tables(), table.name.as_str()) {
        None => Ok(None),
        Some(changes) => Ok(changes.find(key.as_slice())),
    }
}

/// The answer over the local change: it stays where it put or took the row, else the remote one is made over the row. It
/// stops where memory is refused.
fn over_local(
    alloc: Global,
    catalog: &Catalog,
    local: &Normal,
    conflict: &Conflict<'_>,
) -> Resolution
    ensures { result ≢ Abort → result ≡ over (local_beside catalog.now local.now conflict.now) conflict.now.kind }
{
    let Ok(found) = local_change(alloc, catalog, local, conflict) else {
        return Resolution::Abort;
    };
    match (found, conflict.kind) {
        (Some(Change::Update { .. }), Kind::NotFound) => Resolution::Abort,
        (Some(Change::Update { .. }), _) => Resolution::Replace,
        _ => Resolution::Omit,
    }
}

/// By the local changeset, into which the closure looks.
pub fn apply_over_local<S: RowStore>(
    alloc: Global,
    store: &mut S,
    catalog: &Catalog,
    sides: &Sides<'_>,
) -> Result<Applied, ApplyFault>
    requires fits { FitsCatalog catalog.now sides.now.remote.now }
    ensures closes { S.honest store.new → IfOk result (Closes catalog.now sides.now.local.now sides.now.remote.now (S.contents store.old)) }
{
    let local = sides.local;
    apply_lawfully(
        alloc,
        store,
        catalog,
        sides,
        &mut |conflict: &Conflict<'_>| -> Resolution
            ensures { result ≢ Abort → result ≡ over (local_beside catalog.entry.now local.entry.now conflict.now) conflict.now.kind }
        { over_local(alloc, catalog, local, conflict) },
    )
}
