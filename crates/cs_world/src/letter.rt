//! The messages of a world.

ghost use Rattle.std.specs.Prelude.{◌≡◌, IfOk};
ghost use Rattle.cs_wire.specs.Requests.{HasShortBytes, asked_by_owned, request_spelling};
ghost use Rattle.cs_world.specs.Short.{HasShortBytes-prop};

use cs_value::Memory;
use cs_wire::RequestBuf;
use std::alloc::Global;
use std::marker::Model;

/// A request that can be spelled. Contracts see it as what it asks.
#[derive(Drop)]
pub(crate) struct Posted {
    request: RequestBuf,
    ghost short: { HasShortBytes (asked_by_owned request) } by { HasShortBytes-prop (asked_by_owned request) },
}

impl Model for Posted {
    ghost use Rattle.cs_wire.specs.Requests.{Asked, asked_by_owned};

    ghost Value = { Asked };

    ghost view = { λ posted. asked_by_owned posted.request };
}

impl Posted {
    /// The request, to be sent. It takes no memory.
    pub(crate) fn new(request: RequestBuf) -> Posted
        requires { HasShortBytes (asked_by_owned request) }
        ensures { result ≡ asked_by_owned request }
    {
        Posted { request }
    }

    /// Its bytes.
    pub(crate) fn encode(&self, alloc: Global) -> Result<Vec<u8>, Memory>
        ensures { IfOk result (λ bytes. bytes.items ≡ request_spelling self.now) }
    {
        let mut bytes = Vec::new(alloc);
        self.request.encode(&mut bytes)?;
        Ok(bytes)
    }
}

/// A message that was sent: a request, of a replica or of none, or the bytes of the hub's answer to it.
#[derive(Drop)]
pub(crate) enum Letter {
    Asks { replica: u32, request: Posted },
    Tells { replica: u32, answer: Vec<u8> },
    Orders { request: Posted },
    Replies { answer: Vec<u8> },
}
