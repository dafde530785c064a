ghost use Rattle.std.specs.Prelude.{◌≡◌, ◌∷◌, ◌^◌, List, [], ℕ, Option, MatchOption};
ghost use Rattle.plain_text.specs.Numbers.{exact};

use crate::cuts::cut;
use crate::exacts::exact_number;
use std::marker::Model;

/// The words of a line, one after another, and how they spell numbers.
pub trait WordSource<'l> {
    /// The words that are still to be read.
    ghost words: { Self → List (List ℕ) };

    /// The number that a word spells.
    ghost spells: { List ℕ → Option ℕ };

    /// The next word. After the last one it stays at the end.
    fn next(&mut self) -> Option<&'l [u8]>
        ensures { MatchOption result
            (words self.old ≡ [])
            (λ word. words self.old ≡ word.now ∷ words self.new) };

    /// The number of a word.
    fn number(word: &[u8]) -> Option<u32>
        ensures { result ≡ spells word.now };
}

/// Words with one space between any two, and numbers without leading zeros. A space too many makes
/// an empty word.
#[derive(Drop)]
pub struct ExactWords<'l> {
    rest: Option<&'l [u8]>,
}

impl<'l> Model for ExactWords<'l> {
    ghost use Rattle.std.specs.Prelude.{List, ℕ};
    ghost use Rattle.plain_text.specs.Parts.{words_behind};

    ghost Value = { List (List ℕ) };

    ghost view = { λ w. words_behind w.rest };
}

impl<'l> ExactWords<'l> {
    ghost use Rattle.plain_text.specs.Parts.{words};

    pub fn new(line: &'l [u8]) -> ExactWords<'l>
        ensures { result ≡ words line.now }
    {
        ExactWords { rest: Some(line) }
    }
}

impl<'l> WordSource<'l> for ExactWords<'l> {
    ghost words = { λ w. w };

    ghost spells = { exact (2 ^ 32) };

    fn next(&mut self) -> Option<&'l [u8]> {
        let line = self.rest?;
        let (word, rest) = cut(line, b' ');
        self.rest = rest;
        Some(word)
    }

    fn number(word: &[u8]) -> Option<u32>
        ensures { result ≡ exact (2 ^ 32) word.now }
    {
        exact_number(word)
    }
}
