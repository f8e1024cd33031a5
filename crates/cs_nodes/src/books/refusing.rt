//! What a book tells of itself.

ghost use Rattle.std.specs.Prelude.{◌≡◌, ◌≢◌, ◌⊎◌, ◌+◌, ◌≤◌, [], IfOk, vec_capacity, vec_len};
ghost use Rattle.cs_hub.specs.declared.follow_fault.FollowFault.TheVariants.{Device, Full, Undefined};
ghost use Rattle.cs_nodes.specs.books.Answers.{device_answer, stuck_answer};

use cs_hub::FollowFault;
use cs_value::Memory;
use cs_wire::{SHORT, ShortAnswer};
use std::alloc::AllocError;

/// The code by which a book tells that the next entry doesn't fit behind those that it has taken.
const STUCK: u8 = 45;

/// The code by which a hub tells that its device failed.
const DEVICE: u8 = 44;

/// The answer that tells why a book doesn't go on, in room that was taken for it; want of memory is told as that.
pub(crate) fn refuse(fault: FollowFault, room: Vec<u8>) -> Result<Vec<u8>, Memory>
    requires fault { fault ≢ Full }
    requires room { vec_len room + SHORT ≤ vec_capacity room }
    requires empty { room.items ≡ [] }
    ensures { IfOk result (λ answer. ((fault ≡ Undefined) × (answer.items ≡ stuck_answer))
        ⊎ ((fault ≡ Device) × (answer.items ≡ device_answer))) }
{
    let code = match fault {
        FollowFault::Memory => return Err(AllocError),
        FollowFault::Undefined => STUCK,
        FollowFault::Device => DEVICE,
        FollowFault::Full => unreachable!(),
    };
    let mut answer = room;
    ShortAnswer::Refused(code).put(&mut answer);
    Ok(answer)
}
