//! Changesets taken together one by one, as long as they are short enough.

ghost use Rattle.std.specs.Prelude.{◌≡◌, ◌↔◌, ◌≤◌, All, IfOk, IsTrue, length};
ghost use Rattle.std.specs.List.{sum_by};
ghost use Rattle.cs_hub.specs.catching.Consolidated.{IsShort};
ghost use Rattle.cs_hub.specs.catching.Runs.{IsRunOf};
ghost use Rattle.cs_store.specs.log.Stored.{AreChangesOf};
ghost use Rattle.cs_store.specs.declared.log.entry.TheConstants.{MAX_CHANGESET};
ghost use Rattle.cs_normal.specs.Normal.{FitsCatalog, normal_spelling};

use cs_group::{join, then};
use cs_normal::Normal;
use cs_store::log::MAX_CHANGESET;
use cs_store::log::laws::most_bytes;
use cs_value::{Catalog, Memory};
use std::alloc::Global;

/// Whether a changeset has at most as many bytes as an entry's may have.
fn is_short(alloc: Global, changes: &Normal) -> Result<bool, Memory>
    ensures { IfOk result (λ is. IsTrue is ↔ IsShort changes.now) }
{
    most_bytes();
    let mut spelled = Vec::new(alloc);
    changes.encode(&mut spelled)?;
    Ok(spelled.len() as u64 <= MAX_CHANGESET)
}

/// How many first changesets of a list are together short enough, each front of them too. They come with it as one, which is made longer one
/// by one.
fn take_one_by_one(
    alloc: Global,
    catalog: &Catalog,
    list: &[Normal],
) -> Result<(usize, Normal), Memory>
    requires { All (AreChangesOf catalog.now) list.now }
    ensures { IfOk result (λ run. IsRunOf catalog.now list.now run.0 run.1) }
{
    most_bytes();
    cs_group::laws::one_join();
    cs_group::laws::some_join();
    let _tables = catalog.tables();
    let none: [Normal; 0] = [];
    let mut joined = join(alloc, catalog, &none)?;
    for at in 0..list.len() {
        let next = &list[at];
        let both = then(alloc, catalog, &joined, next)?;
        if !is_short(alloc, &both)? {
            return Ok((at, joined));
        }
        joined = both;
    }
    Ok((list.len(), joined))
}

/// How many first changesets of a list are together as short as one may be, each front of them too, and these as one. `bytes` says that the
/// list has so many together, where one may have as many. A join has no more bytes than what it is of: these are joined at once.
pub fn take_run(
    alloc: Global,
    catalog: &Catalog,
    list: &[Normal],
    bytes: u64,
) -> Result<(usize, Normal), Memory>
    requires fit { All (AreChangesOf catalog.now) list.now }
    requires counted { bytes ≤ MAX_CHANGESET → sum_by (λ changes. length (normal_spelling changes)) list.now ≤ MAX_CHANGESET }
    ensures { IfOk result (λ run. IsRunOf catalog.now list.now run.0 run.1) }
{
    most_bytes();
    cs_group::laws::one_join();
    cs_group::laws::some_join();
    let _tables = catalog.tables();
    if bytes <= MAX_CHANGESET {
        let all = join(alloc, catalog, list)?;
        return Ok((list.len(), all));
    }
    take_one_by_one(alloc, catalog, list)
}
