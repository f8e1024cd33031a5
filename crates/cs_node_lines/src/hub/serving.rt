//! One run of a hub.

ghost use Rattle.std.specs.Prelude.{OnOk};
ghost use Rattle.cs_node_lines.specs.hub.Endings.{EndsServingOn};

use crate::hub::fault::ServingFault;
use cs_hub::Hub;
use cs_hub::laws::runs_by_log;
use cs_lines::{LineInput, LineOutput, serve_lines};
use cs_store::RowStore;
use cs_value::Catalog;
use std::alloc::Global;

/// Opens the hub of these tables over a store. It answers each line of the reader, up to its end, by a line of lower case hex. It sends
/// each answer before it reads on, as `cs_lines::serve_lines` does (runs show when). The store comes back as the answers left it.
///
/// # Errors
///
/// Those of `Hub::open`, and nothing is read or written then; `Read` and `Write`.
pub fn serve_on<S: RowStore, R: LineInput, W: LineOutput>(
    alloc: Global,
    store: S,
    catalog: &Catalog,
    reader: &mut R,
    writer: &mut W,
) -> (Result<(), ServingFault>, S)
    ensures ends { EndsServingOn S.RowStore catalog.now store result.1
        (R.remaining reader.old) (R.remaining reader.new) (R.failed reader.new) (W.failed writer.new)
        (W.contents writer.old) (W.contents writer.new) result.0 }
    ensures sent { OnOk result.0 (W.sent writer.old → W.sent writer.new) }
{
    let mut hub = match Hub::open(alloc, store, catalog) {
        Ok(hub) => hub,
        Err((store, fault)) => return (Err(ServingFault::from(fault)), store),
    };
    runs_by_log(&hub);
    let ended = serve_lines(alloc, &mut hub, reader, writer);
    let store = hub.close();
    match ended {
        Ok(()) => (Ok(()), store),
        Err(stop) => (Err(ServingFault::from(stop)), store),
    }
}
