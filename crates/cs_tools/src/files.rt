//! Changesets and rebase blobs in files, as their bytes.

ghost use Rattle.std.specs.Prelude.{◌≡◌, ◌≢◌, ◌⊎◌, List, ℕ, IfErr, IfOk, map};
ghost use Rattle.std.specs.List.{AllZip};
ghost use Rattle.std.specs.IoError.{error_kind};
ghost use Rattle.cs_changeset.specs.Reading.{IsChangesetFault};
ghost use Rattle.cs_feed.specs.Feeding.{IsChangeset};
ghost use Rattle.cs_tools.specs.Files.{HasBadFile, HeldAt, IsBadFile, IsUnread};
ghost use Rattle.cs_tools.specs.Faults.{IsFailure};
ghost use Rattle.cs_tools.specs.declared.fault.ToolFault.TheVariants.{Memory, Read};

use crate::fault::ToolFault;
use crate::input_files::InputFiles;
use cs_feed::{ChangesetBuf, PieceInput, read_from};
use std::alloc::Global;
use std::io;
use std::io::ErrorKind;

/// What is told of a file that isn't opened, or of which a read failed.
fn told_of(error: &io::Error) -> ToolFault
    ensures { (result ≡ Memory) ⊎ ((result ≡ Read) × (error_kind error.now ≢ ErrorKind.OutOfMemory)) }
{
    match error.kind() {
        ErrorKind::OutOfMemory => ToolFault::Memory,
        _ => ToolFault::Read,
    }
}

/// The reader of the file at a path.
fn input_at<F: InputFiles>(files: &mut F, path: &str) -> Result<F::Input, ToolFault>
    ensures opened { IfOk result (λ input. F.opened files.new path.now input) }
    ensures kept { (path : List ℕ) (input : F.Input) → F.opened files.old path input → F.opened files.new path input }
    ensures unopened { IfErr result (IsFailure (F.unopened files.new path.now)) }
{
    match files.open_input(path) {
        Ok(input) => Ok(input),
        Err(error) => Err(told_of(&error)),
    }
}

/// The changeset in the file at a path, which is read through the buffer of its reader.
pub fn changeset_at<F: InputFiles>(
    alloc: Global,
    files: &mut F,
    path: &str,
) -> Result<ChangesetBuf, ToolFault>
    ensures held { IfOk result (λ bytes. HeldAt F.Input.PieceInput F.InputFiles files.new path.now bytes) }
    ensures spelled { IfOk result IsChangeset }
    ensures kept { (path : List ℕ) (input : F.Input) → F.opened files.old path input → F.opened files.new path input }
    ensures err { IfErr result
        (IsBadFile F.Input.PieceInput F.InputFiles files.new IsChangesetFault path.now) }
{
    let mut input = input_at(files, path)?;
    match read_from(alloc, &mut input) {
        Ok(owned) => Ok(owned),
        Err(fault) => Err(ToolFault::from(fault)),
    }
}

/// The bytes of the file at a path.
pub fn bytes_at<F: InputFiles>(
    alloc: Global,
    files: &mut F,
    path: &str,
) -> Result<Vec<u8>, ToolFault>
    ensures held { IfOk result (λ bytes. HeldAt F.Input.PieceInput F.InputFiles files.new path.now bytes.items) }
    ensures err { IfErr result
        (IsFailure (IsUnread F.Input.PieceInput F.InputFiles files.new path.now)) }
{
    let mut input = input_at(files, path)?;
    let mut bytes = Vec::new(alloc);
    match input.read_rest(&mut bytes) {
        Ok(_) => Ok(bytes),
        Err(error) => Err(told_of(&error)),
    }
}

/// The changesets in the files at these paths, in order.
pub fn changesets_at<F: InputFiles>(
    alloc: Global,
    files: &mut F,
    paths: &[&str],
) -> Result<Vec<ChangesetBuf>, ToolFault>
    ensures held { IfOk result (λ owned. AllZip
        (HeldAt F.Input.PieceInput F.InputFiles files.new) (map (λ path. path.now) paths.now) owned.items) }
    ensures err { IfErr result (λ told. (told ≡ Memory) ⊎ HasBadFile F.Input.PieceInput F.InputFiles files.new
        told (map (λ path. path.now) paths.now)) }
{
    let mut owned = Vec::with_capacity(alloc, paths.len())?;
    for path in paths {
        owned.push(changeset_at(alloc, files, path)?)?;
    }
    Ok(owned)
}
