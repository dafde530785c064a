ghost use Rattle.std.specs.Prelude.{◌≡◌, ◌↔◌, ◌+◌, ◌*◌, ◌^◌, ◌<◌, ◌≤◌, Option, IsTrue};
ghost use Rattle.node_words.specs.declared.shapes.names.Name.{Name};
ghost use Rattle.core_laws.specs.places.Words.{word_of_child};
ghost use Rattle.core_laws.specs.places.KeyWords.{IsKeyAt, half};
ghost use Rattle.one_store.specs.entries.Coding.{key_of, pair_number};

use core_laws::{child_word, halves, pair_word};
use node_words::{Key, Name};

/// The words of a key: the bits of a leaf, or the children of a node. What a key of the other kind
/// has is 0.
#[derive(Clone, Copy, Debug, PartialEq, Eq)]
pub struct KeyWords {
    pub bits: u64,
    pub pairs: Pairs,
}

/// The children of a node, two in each word.
#[derive(Clone, Copy, Debug, PartialEq, Eq)]
pub struct Pairs {
    pub first: u64,
    pub second: u64,
    pub third: u64,
    pub fourth: u64,
}

pub(crate) const NO_PAIRS: Pairs = Pairs {
    first: 0,
    second: 0,
    third: 0,
    fourth: 0,
};

impl Pairs {
    // The word of this number, from 0 to 3. Where it stands is chosen before it is read, since it
    // is hard to foretell which one is asked for, and a choice between two places takes no jump.
    pub(crate) fn word(&self, number: u8) -> u64
        requires { number < 4 }
        ensures { result ≡ pair_number self.now number }
    {
        let even = number % 2 == 0;
        let low = if even { &self.first } else { &self.second };
        let high = if even { &self.third } else { &self.fourth };
        let word = if number < 2 { low } else { high };
        *word
    }

    // Whether all words are those of the other.
    pub(crate) fn is(&self, other: &Pairs) -> bool
        ensures { IsTrue result ↔ (self.now ≡ other.now) }
    {
        self.first == other.first
            && self.second == other.second
            && self.third == other.third
            && self.fourth == other.fourth
    }
}

/// The words of a key of this level.
#[tactic(auto, using(crate::proofs::OfEntries::WordLaws::leaf_words, crate::proofs::OfEntries::WordLaws::node_words))]
#[inline(always)]
pub fn words_of(level: u8, key: &Key) -> KeyWords
    requires { IsKeyAt level key.now }
    ensures { key_of level result ≡ key.now }
{
    match key {
        Key::Leaf(bits) => KeyWords {
            bits: *bits,
            pairs: NO_PAIRS,
        },
        Key::Node(children) => KeyWords {
            bits: 0,
            pairs: Pairs {
                first: pair(children[0], children[1]),
                second: pair(children[2], children[3]),
                third: pair(children[4], children[5]),
                fourth: pair(children[6], children[7]),
            },
        },
    }
}

// The word of two children, the first in its low half.
fn pair(low: Option<Name>, high: Option<Name>) -> u64
    ensures { result ≡ word_of_child low + 2 ^ 32 * word_of_child high }
{
    let low = child_word(low);
    let high = child_word(high);
    pair_word(low, high)
}

// A half of a word, the low one first.
pub(crate) fn half_of(word: u64, number: u8) -> u32
    requires { number < 2 }
    ensures { result ≡ half number word }
{
    let (low, high) = halves(word);
    if number == 0 { low } else { high }
}
