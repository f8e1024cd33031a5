//! The hub as a server of lines of hex.

use crate::hub::Hub;
use cs_lines::Serve;
use cs_store::RowStore;
use cs_value::Memory;

impl<S: RowStore> Serve for Hub<S> {
    ghost use Rattle.cs_hub.specs.Calls.{AnswersHub, StaysHub};
    ghost use Rattle.cs_store.specs.declared.log.entry.TheConstants.{MAX_ENTRIES};

    ghost serves = { AnswersHub S.RowStore MAX_ENTRIES };

    ghost stays = { StaysHub S.RowStore };

    fn serve(&mut self, request: &[u8]) -> Result<Vec<u8>, Memory> {
        Hub::serve(self, request)
    }
}
