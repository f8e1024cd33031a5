//! Wishes as a word.

ghost use Rattle.std.specs.Prelude.{◌≡◌, IfOk};
ghost use Rattle.cs_text.specs.parse.Wishes.{letters_in, wish_in, wishes_in};

use crate::parse::words::is_word;
use cs_conflict::Wish;
use cs_value::{Items, Memory};
use std::alloc::Global;

/// The wishes that a word spells, if it spells any: `k`, `t` or `s` a wish, or `-` for none.
pub fn read_wishes(alloc: Global, word: &[u8]) -> Result<Option<Items<Wish>>, Memory>
    ensures { IfOk result (λ found. found ≡ wishes_in word.now) }
{
    if word.is_empty() {
        return Ok(None);
    }
    if is_word(word, b"-") {
        return Ok(Some(Items::from_vec(Vec::new(alloc))));
    }
    read_letters(alloc, word)
}

fn read_letters(alloc: Global, letters: &[u8]) -> Result<Option<Items<Wish>>, Memory>
    ensures { IfOk result (λ found. found ≡ letters_in letters.now) }
{
    let mut wishes = Vec::new(alloc);
    for letter in letters {
        let Some(wish) = wish_of(*letter) else {
            return Ok(None);
        };
        wishes.push(wish)?;
    }
    Ok(Some(Items::from_vec(wishes)))
}

fn wish_of(letter: u8) -> Option<Wish>
    ensures { result ≡ wish_in letter }
{
    match letter {
        b'k' => Some(Wish::Keep),
        b't' => Some(Wish::Take),
        b's' => Some(Wish::Stop),
        _ => None,
    }
}
