//! A changeset in pieces, read as one.

ghost use Rattle.std.specs.List.{flat_map};
ghost use Rattle.cs_feed.specs.Feeding.{GivesChangesetOrMemory};

use crate::changeset_buf::ChangesetBuf;
use crate::feed::Feed;
use cs_changeset::{CodecFault, laws};
use std::alloc::Global;

/// Reads a changeset that stands in pieces, cut anywhere.
pub fn read_pieces(alloc: Global, pieces: &[&[u8]]) -> Result<ChangesetBuf, CodecFault>
    // The pieces joined are given, which spell a changeset, or their fault is told, or memory is wanting.
    ensures { GivesChangesetOrMemory (flat_map (λ piece. piece.now) pieces.now) result }
{
    laws::changesets();
    let mut feed = Feed::new(alloc);
    for piece in pieces {
        feed.push(piece)?;
    }
    feed.finish()
}
