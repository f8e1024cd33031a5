//! A normal changeset, tried by a closure that always aborts: it is defined, or it is told which change conflicts with which
//! row.

ghost use Rattle.std.specs.Prelude.{◌≡◌, IfOk, IfErr};
ghost use Rattle.cs_conflict.specs.declared.conflict.Resolution.TheVariants.{Abort};
ghost use Rattle.std.specs.Fn.{CalledAt};
ghost use Rattle.cs_normal.specs.Normal.{FitsCatalog};
ghost use Rattle.cs_normal.specs.State.{State};
ghost use Rattle.cs_apply.specs.Laws.{AlwaysAborts};
ghost use Rattle.cs_store.specs.States.{Holds};
ghost use Rattle.cs_operations_tests.specs.Tried.{IsMade, IsNotMade};

use cs_apply::{Applied, ApplyFault, apply};
use cs_conflict::{Conflict, Resolution};
use cs_normal::Normal;
use cs_store::RowStore;
use cs_value::Catalog;
use std::alloc::Global;

/// Applies a normal changeset with a closure that always aborts.
fn try_with<S: RowStore, H: FnMut(&Conflict<'_>) -> Resolution>(
    alloc: Global,
    store: &mut S,
    catalog: &Catalog,
    push: &Normal,
    answer: &mut H,
) -> Result<Applied, ApplyFault>
    requires callable { H.IsAlwaysCallable answer.old }
    requires aborts { AlwaysAborts (CalledAt H.FnMut) }
    requires fits { FitsCatalog catalog.now push.now }
    ensures made { S.honest store.new → (before : State) → Holds catalog.now (S.contents store.old) before
        → IfOk result (IsMade catalog.now push.now (S.contents store.old) before) }
    ensures refused { S.honest store.new → (before : State) → Holds catalog.now (S.contents store.old) before
        → IfErr result (IsNotMade catalog.now push.now before) }
{
    cs_apply::laws::aborting_tries::<H>();
    let _push = push.tables();
    let changeset = push.lend(alloc)?;
    apply(alloc, store, catalog, &changeset, answer)
}

/// Tries a normal changeset on the rows of a store.
pub fn try_push<S: RowStore>(
    alloc: Global,
    store: &mut S,
    catalog: &Catalog,
    push: &Normal,
) -> Result<Applied, ApplyFault>
    requires fits { FitsCatalog catalog.now push.now }
    ensures made { S.honest store.new → (before : State) → Holds catalog.now (S.contents store.old) before
        → IfOk result (IsMade catalog.now push.now (S.contents store.old) before) }
    ensures refused { S.honest store.new → (before : State) → Holds catalog.now (S.contents store.old) before
        → IfErr result (IsNotMade catalog.now push.now before) }
{
    try_with(
        alloc,
        store,
        catalog,
        push,
        &mut |_shown: &Conflict<'_>| -> Resolution
            ensures { result ≡ Abort }
        { Resolution::Abort },
    )
}
