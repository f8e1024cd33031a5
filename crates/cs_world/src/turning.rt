//! A replica that reads its store again.

ghost use Rattle.std.specs.Prelude.{◌≡◌, Err};
ghost use Rattle.cs_replica.specs.Leaves.{CallLeaves, Counts};
ghost use Rattle.cs_opening.specs.declared.fault.OpenFault.TheVariants.{Device};
ghost use Rattle.cs_world.specs.Turns.{IsReloadedTo, Turns};

use cs_opening::OpenFault;
use cs_replica::Replica;
use cs_store::RowStore;
use std::alloc::Global;

/// Has a replica read its store again.
pub(crate) fn reload_replica<S: RowStore>(
    alloc: Global,
    replica: &mut Replica<S>,
) -> Result<(), OpenFault>
    ensures turned { Turns S.RowStore (IsReloadedTo result) replica.old replica.new }
    ensures left { CallLeaves S.RowStore (λ position now left. ⊥) replica.old replica.new }
    ensures counts { Counts S.RowStore (result ≡ Err Device) replica.old replica.new }
{
    replica.reload(alloc)
}
