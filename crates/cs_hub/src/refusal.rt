//! What a request is refused for, and the code by which that is told.

ghost use Rattle.std.specs.Prelude.{◌≡◌};
ghost use Rattle.cs_hub.specs.Refusals.{refusal_code, refusal_of_codec, refusal_of_hub, refusal_of_unfit};

use crate::judgement::HubFault;
use cs_changeset::{CodecFault, Fault};
use cs_normalising::Unfit;
use cs_wire::WireFault;

/// Why a request is refused; or want of memory, of which no answer of the hub tells.
#[derive(Drop)]
pub(crate) enum Refusal {
    Memory,
    /// The bytes spell no request.
    NoRequest(WireFault),
    /// The bytes of the changeset spell none.
    NoChangeset(Fault),
    /// The changeset has no normal form by the catalog.
    NoForm(Unfit),
    /// The hub refuses the push, the pull, or the new columns.
    ByHub(HubFault),
}

impl Refusal {
    /// The code by which the refusal is told. Faults of a request's bytes (2, 20 and 21), of a changeset's (2 to 14) and of its
    /// form (30 to 33) bring their own.
    pub(crate) fn code(&self) -> u8
        ensures { result ≡ refusal_code self.now }
    {
        match self {
            Refusal::Memory => 1,
            Refusal::NoRequest(fault) => fault.code(),
            Refusal::NoChangeset(fault) => fault.code(),
            Refusal::NoForm(unfit) => unfit.code(),
            Refusal::ByHub(HubFault::Memory) => 1,
            Refusal::ByHub(HubFault::Ahead) => 40,
            Refusal::ByHub(HubFault::Conflict(_)) => 41,
            Refusal::ByHub(HubFault::Empty) => 42,
            Refusal::ByHub(HubFault::Full) => 43,
            Refusal::ByHub(HubFault::Device) => 44,
            Refusal::ByHub(HubFault::BadWiden) => 46,
        }
    }
}

impl From<CodecFault> for Refusal {
    ghost from_gives = { λ fault refusal. refusal ≡ refusal_of_codec fault };

    fn from(fault: CodecFault) -> Refusal {
        match fault {
            CodecFault::Memory => Refusal::Memory,
            CodecFault::At { fault, .. } => Refusal::NoChangeset(fault),
        }
    }
}

impl From<Unfit> for Refusal {
    ghost from_gives = { λ unfit refusal. refusal ≡ refusal_of_unfit unfit };

    fn from(unfit: Unfit) -> Refusal {
        match unfit {
            Unfit::Memory => Refusal::Memory,
            other => Refusal::NoForm(other),
        }
    }
}

impl From<HubFault> for Refusal {
    ghost from_gives = { λ fault refusal. refusal ≡ refusal_of_hub fault };

    fn from(fault: HubFault) -> Refusal {
        match fault {
            HubFault::Memory => Refusal::Memory,
            other => Refusal::ByHub(other),
        }
    }
}
