//! The words of a line.

ghost use Rattle.std.specs.Prelude.{◌≡◌, ◌↔◌, ◌==◌, [], ◌∷◌, IsTrue, MatchOption, position};
ghost use Rattle.std.specs.Str.{bytes_eq};
ghost use Rattle.cs_text.specs.parse.Words.{words_in};

use std::marker::Model;

/// Whether a word is this one.
pub fn is_word(word: &[u8], this: &[u8]) -> bool
    ensures { result ≡ bytes_eq word.now this.now }
{
    word == this
}

/// The words of a line that are left. Contracts see them as these words.
#[derive(Drop)]
pub struct Words<'a> {
    rest: Option<&'a [u8]>,
}

impl<'a> Model for Words<'a> {
    ghost use Rattle.std.specs.Prelude.{List, ℕ, option_map};
    ghost use Rattle.cs_text.specs.parse.Words.{words_left};

    ghost Value = { List (List ℕ) };

    ghost view = { λ words. words_left (option_map (λ line. line.now) words.rest) };
}

impl<'a> Words<'a> {
    /// The words of a line, without its line feed.
    pub fn new(line: &'a [u8]) -> Words<'a>
        ensures { result ≡ words_in line.now }
    {
        Words { rest: Some(line) }
    }

    /// The next word; none behind the last.
    pub fn next(&mut self) -> Option<&'a [u8]>
        ensures { MatchOption result ((self.old ≡ []) × (self.new ≡ [])) (λ word. self.old ≡ word.now ∷ self.new) }
    {
        let line = self.rest?;
        let (word, rest) = split_word(line);
        self.rest = rest;
        Some(word)
    }

    /// Whether no word is left.
    pub fn is_at_end(&self) -> bool
        ensures { IsTrue result ↔ (self.now ≡ []) }
    {
        self.rest.is_none()
    }
}

// The first word of what is left of a line, and what is left behind the space that ends it, if one does.
fn split_word(line: &[u8]) -> (&[u8], Option<&[u8]>)
    ensures { MatchOption result.1 (words_in line.now ≡ result.0.now ∷ [])
        (λ rest. words_in line.now ≡ result.0.now ∷ words_in rest.now) }
{
    match first_space(line) {
        Some(at) => (&line[..at], Some(&line[at + 1..])),
        None => (line, None),
    }
}

// Where the first space stands.
fn first_space(line: &[u8]) -> Option<usize>
    ensures { result ≡ position (λ byte. byte == 0x20) line.now }
{
    line.iter().position(|byte| *byte == b' ')
}
