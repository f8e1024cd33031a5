//! Numbers among the words.

ghost use Rattle.std.specs.Prelude.{◌≡◌};
ghost use Rattle.cs_command.specs.CommandLine.{number_in};

use cs_text::parse::small;

/// The number that a word spells in decimal digits, behind a plus or not, where 32 bits hold it.
pub(crate) fn number_in(word: &str) -> Option<u32>
    ensures { result ≡ number_in word.now }
{
    match word.as_bytes() {
        [b'+', digits @ ..] => small(digits),
        digits => small(digits),
    }
}
