//! `exchange HUB FILE ID TABLE...`: a hub and a replica, each over a file, that meet.

ghost use Rattle.std.specs.Prelude.{◌≡◌, ◌<◌, ◌-◌, ◌^◌, OnOk};
ghost use Rattle.sync_cli.specs.Faults.{met_as, of_hub_store};
ghost use Rattle.sync_cli.specs.OverFiles.{EndsExchange};

use crate::fault::RunFault;
use crate::opener::Opener;
use cs_conflict::Wish;
use cs_lines::LineOutput;
use cs_meeting::{MeetingFault, meet};
use cs_opening::OpenFault;
use cs_store::StoreFault;
use cs_value::Catalog;
use std::alloc::Global;

/// Has the hub in the store for a file and the replica with this id in that for another meet, where the same is wished at each
/// clash.
pub fn exchange_files<'w, O: Opener, W: LineOutput>(
    alloc: Global,
    opener: &mut O,
    hub: &str,
    path: &str,
    id: u32,
    wish: Wish,
    catalog: &Catalog,
    writer: &mut W,
) -> Result<(), RunFault<'w>>
    requires { id < 2 ^ 32 - 1 }
    ensures ends { EndsExchange O.Store.RowStore O.Opener opener.new
        hub.now path.now id wish catalog.now (W.failed writer.new) (W.contents writer.old) (W.contents writer.new) result }
    ensures sent { OnOk result (W.sent writer.new) }
{
    let hub_store = match opener.open(hub) {
        Ok(store) => store,
        Err(fault) => return Err(unopened_hub(fault)),
    };
    let store = match opener.open(path) {
        Ok(store) => store,
        Err(fault) => {
            opener.close(hub_store);
            return Err(RunFault::from(fault));
        }
    };
    let (ended, hub_store, store) = meet(alloc, hub_store, store, catalog, id, wish, writer);
    opener.close(hub_store);
    opener.close(store);
    told_of(ended)
}

fn unopened_hub<'w>(fault: StoreFault) -> RunFault<'w>
    ensures { result ≡ of_hub_store fault }
{
    match fault {
        StoreFault::Memory => RunFault::Memory,
        StoreFault::Device => RunFault::Hub(OpenFault::Device),
    }
}

/// How the run ends where the meeting ended so.
fn told_of<'w>(ended: Result<bool, MeetingFault>) -> Result<(), RunFault<'w>>
    ensures { result ≡ met_as ended }
{
    match ended {
        Ok(true) => Ok(()),
        Ok(false) => Err(RunFault::NotAtRest),
        Err(fault) => Err(RunFault::from(fault)),
    }
}
