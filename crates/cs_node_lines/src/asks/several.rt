//! The line behind which several edits come.

ghost use Rattle.std.specs.Prelude.{◌≡◌};
ghost use Rattle.cs_node_lines.specs.asks.Several.{several_in};

use crate::asks::ask::read_limit;
use cs_text::parse::{Words, is_word};

/// How many edits come behind a line without its line feed, where it is `edits N`. It takes no memory.
pub(crate) fn read_several(line: &[u8]) -> Option<u32>
    ensures { result ≡ several_in line.now }
{
    let mut words = Words::new(line);
    let verb = words.next()?;
    if is_word(verb, b"edits") {
        read_limit(&mut words)
    } else {
        None
    }
}
