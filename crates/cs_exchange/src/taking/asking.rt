//! One place of the entry: what its change leaves of the own row.

ghost use Rattle.std.specs.Prelude.{◌≡◌, ◌≢◌, Some, None, Err, IfOk, IfErr};
ghost use Rattle.cs_change.specs.Action.{action, after};
ghost use Rattle.cs_conflict.specs.Conflict.{kind as the_kind, answered as the_answered};
ghost use Rattle.cs_conflict.specs.Wishes.{resolution_of};
ghost use Rattle.cs_conflict.specs.declared.kind.Kind.TheVariants.{NotFound};
ghost use Rattle.cs_conflict.specs.declared.wish.Wish.TheVariants.{Stop, Take};
ghost use Rattle.cs_exchange.specs.taking.Steps.{IsAsked, LeavesOwn, site_task};
ghost use Rattle.cs_exchange.specs.taking.Takes.{IfStopped, StopsHere};
ghost use Rattle.cs_exchange.specs.declared.taking.fault.TakeFault.TheVariants.{BadEntry, Device};

use crate::taking::fault::TakeFault;
use crate::taking::rows::{local_of, replacing};
use crate::taking::site::Site;
use cs_change::outcome;
use cs_conflict::{Clash, Conflict, ConflictBuf, Kind, Picker, Wish, kind_of};
use cs_pending::{copied, lent};
use cs_record::RowBuf;
use std::alloc::Global;

/// Asks the picker about a change that conflicts with the own row.
fn ask<P: Picker>(
    alloc: Global,
    site: &Site<'_>,
    kind: Kind,
    picker: &mut P,
) -> Result<Wish, TakeFault>
    requires ready { P.is_ready picker.old }
    requires stuck { the_kind (action site.now.at.change) site.now.before.mine ≡ Some kind }
    ensures ready { P.is_ready picker.new }
    ensures asked { IfOk result (λ wish. (wish ≢ Stop)
        × IsAsked P.picks (site_task site.now) site.now.before.base site.now.before.mine picker.old wish picker.new) }
    ensures able { IfOk result (λ wish. wish ≡ Take → kind ≢ NotFound) }
    ensures stopped { IfErr result (λ fault. IfStopped fault (λ conflict.
        StopsHere P.picks (site_task site.now) site.now.before.base site.now.before.mine picker.old conflict picker.new)) }
    ensures good { result ≢ Err BadEntry }
    ensures steady { result ≢ Err Device }
{
    cs_conflict::laws::kind_tells();
    cs_conflict::laws::replaces_unless_not_found();
    let changes = local_of(alloc, site.at.table, &site.before.base, &site.before.mine)?;
    let Some(local) = changes.get(0) else {
        unreachable!()
    };
    let conflict = Conflict {
        kind,
        table: site.at.number,
        change: site.at.change.again(),
        row: lent(&site.before.mine),
    };
    let clash = Clash::new(conflict, local);
    let wish = picker.pick(&clash);
    if let Wish::Stop = wish {
        let shown = ConflictBuf::of_conflict(alloc, &clash.conflict)?;
        return Err(TakeFault::Stopped(shown));
    }
    Ok(wish)
}

/// What a change that conflicts leaves under a lawful wish.
fn wished(
    alloc: Global,
    site: &Site<'_>,
    kind: Kind,
    wish: Wish,
) -> Result<Option<RowBuf>, TakeFault>
    requires stuck { the_kind (action site.now.at.change) site.now.before.mine ≡ Some kind }
    requires able { wish ≡ Take → kind ≢ NotFound }
    requires on { wish ≢ Stop }
    ensures left { IfOk result (λ merged. the_answered (resolution_of wish) (action site.now.at.change) site.now.before.mine ≡ Some merged) }
    ensures stopped { IfErr result (λ fault. IfStopped fault (λ conflict. ⊥)) }
    ensures good { result ≢ Err BadEntry }
    ensures steady { result ≢ Err Device }
{
    cs_conflict::laws::replaces_unless_not_found();
    let row = lent(&site.before.mine);
    match wish {
        Wish::Stop => unreachable!(),
        Wish::Keep => Ok(copied(alloc, row.as_ref())?),
        Wish::Take => {
            let Some(left) = replacing(alloc, &site.at.change, row.as_ref())? else {
                unreachable!()
            };
            Ok(left)
        }
    }
}

/// What a change leaves of the own row, by the picker where it conflicts.
pub(crate) fn own_after<P: Picker>(
    alloc: Global,
    site: &Site<'_>,
    picker: &mut P,
) -> Result<Option<RowBuf>, TakeFault>
    requires ready { P.is_ready picker.old }
    ensures ready { P.is_ready picker.new }
    ensures left { IfOk result (λ merged.
        LeavesOwn P.picks (site_task site.now) site.now.before.base site.now.before.mine picker.old merged picker.new) }
    ensures stopped { IfErr result (λ fault. IfStopped fault (λ conflict.
        StopsHere P.picks (site_task site.now) site.now.before.base site.now.before.mine picker.old conflict picker.new)) }
    ensures good { result ≢ Err BadEntry }
    ensures steady { result ≢ Err Device }
{
    cs_conflict::laws::kind_tells();
    let row = lent(&site.before.mine);
    let Some(kind) = kind_of(&site.at.change, row.as_ref()) else {
        let Some(left) = outcome(alloc, &site.at.change, row.as_ref())? else {
            unreachable!()
        };
        return Ok(left);
    };
    let wish = match ask(alloc, site, kind, picker) {
        Ok(wish) => wish,
        Err(fault) => return Err(fault),
    };
    match wished(alloc, site, kind, wish) {
        Ok(merged) => Ok(merged),
        Err(fault) => Err(fault),
    }
}
