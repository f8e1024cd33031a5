//! What a replica pushes. `make_push` turns what is pending into the push that is under way and gives the request that tells the
//! hub of it; `resend` gives the same request again; `confirm` ends the push when it has become the next entry of the log. Each call
//! that writes is one commit. What it leaves is said of any store, also of one that fails or stops at any moment. No call writes a
//! row. It stands on positions (`cs_pending::position`), on what is pending (`cs_pending::outgoing`) and on requests (`cs_wire`).
//! `laws` says that a push has one changeset, or one fault.
//! Its tests stand in `cs_replica_tests`.

mod clearing;
mod confirming;
mod fault;
pub mod laws;
mod making;
mod requesting;
mod values;

pub use confirming::confirm;
pub use fault::PushFault;
pub use making::make_push;
pub use requesting::resend;
