//! A place of the entry.

ghost use Rattle.cs_exchange.specs.taking.Made.{IsMade, IsMade-prop};

use cs_apply::placement::Placed;
use cs_pending::Standing;
use cs_record::RowBuf;

/// A place of the entry: its change, what stands here and on the log, and what the change leaves of the log's row.
#[derive(Drop)]
pub(crate) struct Site<'a> {
    /// The change and its place.
    pub at: Placed<'a>,
    /// The own row or none, and the log's.
    pub before: Standing,
    /// What the change leaves of the log's row or none.
    pub theirs: Option<RowBuf>,
    pub ghost made: { IsMade at.change before.base theirs } by { IsMade-prop at.change before.base theirs },
}
