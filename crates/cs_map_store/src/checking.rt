//! Whether all that a `MapStore` holds is what its places say.

ghost use Rattle.std.specs.Prelude.{◌≡◌, ◌<◌, ◌↔◌, ◌&&◌, false, length, map, IfOk, IsTrue, MatchOption};
ghost use Rattle.std.specs.List.{AllByRecursion};
ghost use Rattle.cs_store.specs.Whole.{AreJudged, Decodes};
ghost use Rattle.cs_leaf.specs.Entries.{nth};
ghost use Rattle.cs_map_store.specs.Leaves.{flat};
ghost use Rattle.cs_map_store.specs.Checked.{IsGood};

use crate::log::PackedLog;
use cs_leaf::Leaf;
use cs_store::laws::decoding;
use cs_store::{Present, is_change, is_row};
use cs_value::Catalog;
use std::alloc::{AllocError, Global};

/// What leaves hold.
#[derive(Clone, Copy)]
pub enum Shelf {
    Rows,
    Pending,
}

/// Whether the body there is what its place says.
fn is_good(
    alloc: Global,
    catalog: &Catalog,
    shelf: Shelf,
    leaf: &Leaf,
    at: usize,
) -> Result<bool, AllocError>
    requires { at < length leaf.now }
    ensures { IfOk result (λ good. IsTrue good ↔ IsGood shelf catalog.now (nth leaf.now at)) }
{
    let table = leaf.table(at);
    let key = leaf.key(at);
    let body = leaf.row(at);
    let good = match shelf {
        Shelf::Rows => is_row(alloc, catalog, table, key, body)?,
        Shelf::Pending => is_change(alloc, catalog, table, key, body)?,
    };
    Ok(good)
}

/// Whether each body of a leaf is what its place says.
fn check_leaf(
    alloc: Global,
    catalog: &Catalog,
    shelf: Shelf,
    leaf: &Leaf,
) -> Result<bool, AllocError>
    ensures { IfOk result (λ good. IsTrue good ↔ AllByRecursion (IsGood shelf catalog.now) leaf.now) }
{
    for at in 0..leaf.len() {
        let good = is_good(alloc, catalog, shelf, leaf, at)?;
        if !good {
            return Ok(false);
        }
    }
    Ok(true)
}

/// Whether each body of all leaves is what its place says.
pub fn check_leaves(
    alloc: Global,
    catalog: &Catalog,
    shelf: Shelf,
    leaves: &[Leaf],
) -> Result<bool, AllocError>
    ensures { IfOk result (λ good. IsTrue good ↔ AllByRecursion (IsGood shelf catalog.now) (flat leaves.now)) }
{
    for leaf in leaves {
        let good = check_leaf(alloc, catalog, shelf, leaf)?;
        if !good {
            return Ok(false);
        }
    }
    Ok(true)
}

/// The catalog behind the last entry, if the bodies of the log decode. None of them is copied.
pub fn check_log<'a>(
    alloc: Global,
    catalog: &'a Catalog,
    log: &PackedLog,
) -> Result<Option<Present<'a>>, AllocError>
    ensures { IfOk result (λ behind. MatchOption behind
        (AreJudged catalog.now (map (λ item. item.body) log.now.items) false catalog.now)
        (λ present. Decodes catalog.now (map (λ item. item.body) log.now.items) present)) }
{
    decoding();
    let _ = catalog.tables();
    let mut present = Present::new(catalog);
    for at in 0..log.len() as usize {
        let good = present.judge_body(alloc, log.body(at))?;
        if !good {
            return Ok(None);
        }
    }
    Ok(Some(present))
}

/// Whether both hold.
pub fn both_hold(rows: bool, pending: bool) -> bool
    ensures { result ≡ (rows && pending) }
{
    rows && pending
}
