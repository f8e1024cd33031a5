//! A world of two replicas over stores that are handed in.

ghost use Rattle.std.specs.Prelude.{◌≡◌, ◌∷◌, [], IfOk};
ghost use Rattle.cs_store.specs.Contents.{nothing};

use cs_store::RowStore;
use cs_value::{Catalog, Memory};
use cs_world::{World, WorldFault};
use std::alloc::Global;

fn two_of<T: Drop>(alloc: Global, one: T, other: T) -> Result<Vec<T>, Memory>
    ensures { IfOk result (λ all. all.items ≡ one ∷ other ∷ []) }
{
    let mut all = Vec::new(alloc);
    all.push(one)?;
    all.push(other)?;
    Ok(all)
}

/// A world of two replicas over these stores, each of which holds nothing.
pub(crate) fn opened<S: RowStore + Drop>(
    alloc: Global,
    catalog: &Catalog,
    hub: S,
    one: S,
    other: S,
) -> Result<World<S>, WorldFault>
    requires hub { S.contents hub ≡ nothing }
    requires one { S.contents one ≡ nothing }
    requires other { S.contents other ≡ nothing }
{
    let stores = two_of(alloc, one, other)?;
    World::new(alloc, catalog, hub, stores)
}
