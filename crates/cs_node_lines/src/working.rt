//! A replica that is worked by lines, over any store, reader and writer: edits, pushes, the hub's answers, and a look at its
//! rows. It stands on `asks` for what lines ask, on `cs_replica` for what each call makes of the replica, and on `told` for what
//! is printed. `work_on` opens the replica and does what is asked, and `node_on` reads it first. Each promises how it ends
//! (`specs/working/Endings.antt`). The steps were made (`specs/working/LineStep.antt`, one case a line), and the replica's store
//! holds what they left. Their texts are written, each before the next line is worked on. A failed device is told only where its
//! count rose. Whatever stops it, what was done stays done. Its tests stand in `cs_replica_tests`.

mod dump;
mod fault;
pub mod laws;
mod names;
mod node;
mod reply;
mod working;

pub(crate) use dump::lines_of;
pub use dump::{flight_len, place_of};
pub use fault::NodeFault;
pub(crate) use names::{store_fault_name, wire_fault_name};
pub use node::{node_on, work_on};
pub(crate) use reply::put_text;
pub use reply::{Reply, write_reply};
pub(crate) use working::{ROOM, in_order, put_heard, work_ask};
