//! The places of the entry, one after another: the picker is asked, and each is settled.

ghost use Rattle.std.specs.Prelude.{◌≡◌, ◌≢◌, ℕ, List, map, Err, IfErr, OnOk};
ghost use Rattle.cs_value.specs.Catalog.{AreTables};
ghost use Rattle.cs_value.specs.declared.catalog.TableDef.{TableDef as Table};
ghost use Rattle.cs_normal.specs.State.{State};
ghost use Rattle.cs_store.specs.Contents.{Contents};
ghost use Rattle.cs_pending.specs.Settling.{IsWithin, Settles};
ghost use Rattle.cs_pending.specs.View.{View};
ghost use Rattle.cs_exchange.specs.taking.Steps.{AreOn, AreSitesPlaced, IsDecided, IsReady, site_task};
ghost use Rattle.cs_exchange.specs.taking.Takes.{IfStopped, StopsAt};
ghost use Rattle.cs_exchange.specs.declared.taking.fault.TakeFault.TheVariants.{BadEntry, Device};

use crate::taking::asking::own_after;
use crate::taking::fault::TakeFault;
use crate::taking::reading::settle_at;
use crate::taking::site::Site;
use cs_conflict::Picker;
use cs_pending::Settling;
use std::alloc::Global;

/// Merges the own row at each place of the entry, and settles it over what the entry leaves of the log's row.
pub(crate) fn decide<P: Picker>(
    alloc: Global,
    sites: &[Site<'_>],
    picker: &mut P,
    settling: &mut Settling,
) -> Result<(), TakeFault>
    requires ready { P.is_ready picker.old }
    ensures ready { P.is_ready picker.new }
    ensures within { (tables : List Table) → AreSitesPlaced tables sites.now → IsWithin tables settling.old → OnOk result (IsWithin tables settling.new) }
    ensures decided { (tables : List Table) (contents : Contents) (begun : ℕ) (log own : State) (view : View)
        → AreTables tables
        → IsReady tables log own sites.now view
        → Settles tables contents begun settling.old view
        → OnOk result ((end : View) × Settles tables contents begun settling.new end
        × IsDecided P.picks tables log own (map site_task sites.now) view picker.old end picker.new) }
    ensures stopped { (log own : State) → AreOn log own sites.now
        → IfErr result (λ fault. IfStopped fault (λ conflict. StopsAt P.picks log own (map site_task sites.now) picker.old conflict picker.new)) }
    ensures good { result ≢ Err BadEntry }
    ensures steady { result ≢ Err Device }
{
    cs_value::laws::catalogs();
    cs_normal::laws::one_key_stands();
    cs_normal::laws::set_columns_fit();
    cs_normal::keyed::laws::bytes_tell_keys();
    cs_change::laws::net_takes();
    cs_change::laws::normal_is_net();
    cs_conflict::laws::made_as_replaced();
    cs_conflict::laws::kind_tells();
    cs_rebaser::laws::diamond();
    for site in sites {
        let merged = match own_after(alloc, site, picker) {
            Ok(merged) => merged,
            Err(fault) => return Err(fault),
        };
        settle_at(
            alloc,
            &site.at,
            &site.before,
            &site.theirs,
            &merged,
            settling,
        )?;
    }
    Ok(())
}
