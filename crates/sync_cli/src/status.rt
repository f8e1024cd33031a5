//! The statuses with which the program ends, and the line that tells of it.

ghost use Rattle.std.specs.Prelude.{◌≡◌};
ghost use Rattle.sync_cli.specs.Endings.{status_of};

use crate::fault::RunFault;
use std::io::Write;

/// All was done.
const DONE: u8 = 0;

/// The input was refused, or a read or write failed, or memory was refused.
const REFUSED_INPUT: u8 = 1;

/// The command line was refused.
const REFUSED_COMMAND: u8 = 2;

/// Tells why a run ended early by one line, whether or not that can be written, and answers the status with which the program
/// ends. Where all was done, nothing is told.
pub fn tell_end<E: Write>(ended: &Result<(), RunFault<'_>>, errors: &mut E) -> u8
    ensures { result ≡ status_of ended.now }
{
    match ended {
        Ok(()) => DONE,
        Err(fault) => {
            let _ = writeln!(errors, "sync: {fault}");
            match fault {
                RunFault::CommandLine | RunFault::Table(_) => REFUSED_COMMAND,
                _ => REFUSED_INPUT,
            }
        }
    }
}
