//! Two nodes beside one another.

ghost use Rattle.std.specs.Prelude.{◌≡◌, ◌↔◌, Contains, IsTrue, List, ℕ};
ghost use Rattle.cs_pending.specs.View.{View};
ghost use Rattle.cs_replica.specs.Holding.{Shows};
ghost use Rattle.cs_value.specs.declared.catalog.TableDef.{TableDef};
ghost use Rattle.cs_nodes.specs.Nodes.{AreMet, IsOfOpening};

use crate::following::laws::equal_where_met;
use crate::node::Node;
use cs_exchange::taking::laws::one_contents;
use cs_spine::Spine;
use cs_store::RowStore;

/// Whether both nodes are at one version, with nothing pending and nothing under way. Where they are, and they began with the same tables,
/// they have the same tables and the same rows. It takes no memory.
pub fn meet_nodes<S: RowStore, T: RowStore>(
    spine: &Spine,
    one: &Node<'_, S>,
    other: &Node<'_, T>,
) -> bool
    requires one { one.now.pass.spine ≡ spine.now }
    requires other { other.now.pass.spine ≡ spine.now }
    ensures met { IsTrue result ↔ AreMet one.now other.now }

    // Where they began with the same tables, they have the same then.
    ensures catalog { IsTrue result → (opening : List TableDef) → IsOfOpening opening one.now → IsOfOpening opening other.now
        → one.now.replica.catalog ≡ other.now.replica.catalog }

    // Where they have the same tables, they have the same rows.
    ensures rows { IsTrue result → one.now.replica.catalog ≡ other.now.replica.catalog → S.honest one.now.replica.store → T.honest other.now.replica.store
        → (view seen : View) → Shows S.contents one.now.replica view → Shows T.contents other.now.replica seen
        → (table : TableDef) (key : List ℕ) → Contains one.now.replica.catalog table → view.tables table.name key ≡ seen.tables table.name key }
{
    equal_where_met();
    one_contents();
    one.stands();
    other.stands();
    let _both = spine.meet(one.pass(), other.pass());
    if one.version() != other.version() {
        return false;
    }
    one.is_at_rest() && other.is_at_rest()
}
