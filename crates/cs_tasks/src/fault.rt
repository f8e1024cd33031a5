//! Why it isn't said which changes are applied.

ghost use Rattle.std.specs.Prelude.{◌≡◌};
ghost use Rattle.cs_tasks.specs.declared.fault.TasksFault.TheVariants.{Memory};

use std::alloc::{AllocError, AllocFailed};
use thiserror::Error;

/// Why it isn't said which changes of a changeset are applied. The text is the name that programs print.
#[derive(Clone, Copy, Debug, PartialEq, Eq, Error)]
pub enum TasksFault {
    /// Memory was refused. It may come before the other fault.
    #[error("Memory")]
    Memory,
    /// A change of a group that fits has NULL at a key column.
    #[error("NullKey")]
    NullKey,
}

impl From<AllocError> for TasksFault {
    ghost from_gives = { λ _ e. e ≡ Memory };

    fn from(_e: AllocError) -> TasksFault {
        TasksFault::Memory
    }
}

impl<T: Drop> From<AllocFailed<T>> for TasksFault {
    ghost from_gives = { λ _ e. e ≡ Memory };

    fn from(_e: AllocFailed<T>) -> TasksFault {
        TasksFault::Memory
    }
}
