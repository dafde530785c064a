ghost use Rattle.std.specs.Prelude.{◌≡◌, ◌∷◌, List, [], ℕ, true, not, MatchOption};
ghost use Rattle.std.specs.List.{position};
ghost use Rattle.script.specs.Lines.{words_of, is_blank, is_comment, begins_word};
ghost use Rattle.script.specs.Numbers.{loose};

use crate::numbers::number;
use plain_text::WordSource;
use std::marker::Model;

/// The words of a line that are still to be read. Contracts see them as a list.
#[derive(Drop)]
pub(crate) struct Words<'l> {
    rest: &'l [u8],
}

impl<'l> Model for Words<'l> {
    ghost Value = { List (List ℕ) };

    ghost view = { λ w. words_of w.rest.now };
}

impl<'l> Words<'l> {
    pub(crate) fn new(line: &'l [u8]) -> Words<'l>
        ensures { result ≡ words_of line.now }
    {
        Words { rest: line }
    }

    // The next word. After the last one it stays at the end.
    pub(crate) fn next_word(&mut self) -> Option<&'l [u8]>
        ensures { MatchOption result (self.old ≡ []) (λ word. self.old ≡ word.now ∷ self.new) }
    {
        let from = skip_blanks(self.rest)?;
        let (word, rest) = split_word(from);
        self.rest = rest;
        Some(word)
    }
}

impl<'l> WordSource<'l> for Words<'l> {
    ghost words = { λ w. w };

    ghost spells = { loose };

    fn next(&mut self) -> Option<&'l [u8]> {
        self.next_word()
    }

    fn number(word: &[u8]) -> Option<u32>
        ensures { result ≡ loose word.now }
    {
        number(word).ok()
    }
}

// Whether the first word of a line makes it a comment.
pub(crate) fn begins_comment(word: &[u8]) -> bool
    ensures { result ≡ is_comment word.now }
{
    matches!(word, [b'#', ..])
}

// The bytes from the first word on, where there is one.
#[tactic(auto, using(crate::proofs::Splitting::blanks_skipped, crate::proofs::Splitting::blanks_only))]
fn skip_blanks(bytes: &[u8]) -> Option<&[u8]>
    ensures { MatchOption result (words_of bytes.now ≡ [])
        (λ from. (words_of bytes.now ≡ words_of from.now) × (begins_word from.now ≡ true)) }
{
    let start = word_start(bytes)?;
    let (_, from) = bytes.split_at(start);
    Some(from)
}

// The place of the first byte that is no separator.
fn word_start(bytes: &[u8]) -> Option<usize>
    ensures { result ≡ position (λ b. not (is_blank b)) bytes.now }
{
    bytes.iter().position(|b| !is_separator(*b))
}

// The word with which the bytes begin, and the bytes after it.
#[tactic(auto, using(crate::proofs::Splitting::words_split, crate::proofs::Splitting::words_end))]
fn split_word(bytes: &[u8]) -> (&[u8], &[u8])
    requires { begins_word bytes.now ≡ true }
    ensures { words_of bytes.now ≡ result.0.now ∷ words_of result.1.now }
{
    match word_end(bytes) {
        Some(end) => bytes.split_at(end),
        None => bytes.split_at(bytes.len()),
    }
}

// The place of the first separator.
fn word_end(bytes: &[u8]) -> Option<usize>
    ensures { result ≡ position is_blank bytes.now }
{
    bytes.iter().position(|b| is_separator(*b))
}

fn is_separator(b: u8) -> bool
    ensures { result ≡ is_blank b }
{
    b == b' ' || b == b'\t'
}
