//! Bytes into the caller's memory.

ghost use Rattle.std.specs.Prelude.{◌≡◌, length};
ghost use Rattle.sqlite_disk.specs.Memory.{memory_bytes};
ghost use Rattle.cs_embed.specs.Answers.{AreHanded, IsHanded, rooms_of};
ghost use Rattle.cs_embed.specs.Watched.{inner_of};

use crate::answer::Answer;
use crate::file::File;

/// What lines came to: their texts, and the file.
#[derive(Drop)]
pub struct Made {
    pub texts: Vec<u8>,
    pub file: File,
}

/// Copies the bytes to the front of the caller's memory if they have room there, and answers how many they are.
fn hand_over(bytes: &[u8], output: &mut [u8]) -> usize
    ensures handed { IsHanded bytes.now output.old output.new }
    ensures count { result ≡ length bytes.now }
{
    if bytes.len() <= output.len() {
        output[..bytes.len()].copy_from_slice(bytes);
    }
    bytes.len()
}

/// Hands over texts and a file, and tells how long they are.
pub fn hand_both(made: &Made, told: &mut [u8], left: &mut [u8]) -> Answer
    ensures { AreHanded made.now.texts.items (memory_bytes (inner_of made.now.file)) (rooms_of told.old told.new left.old left.new) result }
{
    let told_count = hand_over(made.texts.as_slice(), told);
    let left_count = hand_over(made.file.inner().bytes(), left);
    Answer::done(told_count, left_count)
}
