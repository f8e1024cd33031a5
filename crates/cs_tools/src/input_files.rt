//! Where files to be read come from.

ghost use Rattle.std.specs.Prelude.{◌≡◌, ◌⊎◌, List, ℕ, IfErr, IfOk};
ghost use Rattle.std.specs.IoError.{error_kind};

use cs_feed::PieceInput;
use std::io;
use std::io::ErrorKind;

/// Opens files to be read.
pub trait InputFiles {
    /// What reads a file.
    type Input: PieceInput + Drop;

    // It gave this reader of the file at a path.
    ghost opened: { Self → List ℕ → Self.Input → Type 0 };

    // It gave none of the file at a path.
    ghost unopened: { Self → List ℕ → Type 0 };

    /// The reader of the file at a path.
    fn open_input(&mut self, path: &str) -> io::Result<Self::Input>
        ensures opened { IfOk result (λ input. opened self.new path.now input) }
        ensures kept { (path : List ℕ) (input : Self.Input) → opened self.old path input → opened self.new path input }
        ensures unopened { IfErr result (λ error.
            (error_kind error ≡ ErrorKind.OutOfMemory) ⊎ unopened self.new path.now) };
}
