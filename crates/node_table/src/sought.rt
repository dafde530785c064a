// A key as words, and its tag.
ghost use Rattle.std.specs.Prelude.{◌≡◌, ◌+◌, ◌*◌, ◌<◌, ◌≤◌, ◌^◌, slice_index};
ghost use Rattle.core_laws.specs.places.WordIds.{key_words};
ghost use Rattle.core_laws.specs.places.Words.{word_of_child};
ghost use Rattle.table_rule.specs.Tags.{key_tag};
ghost use Rattle.node_table.specs.Finding.{AreWordsOf, IsSought};

use core_laws::{child_word, pair_word};
use node_words::{Key, Name};
use std::marker::Model;
use std::snapshot::Snapshot;

// By these the words of a key are mixed into one, of which the high bits are the tag.
const FIRST: u64 = 0x9E37_79B9_7F4A_7C15;

const SECOND: u64 = 0xC2B2_AE3D_27D4_EB4F;

const THIRD: u64 = 0x1656_67B1_9E37_79F9;

const FOURTH: u64 = 0xD6E8_FEB8_6659_FD93;

/// A key as the words of its entry, packed once for the search and for the entry that it may add.
/// The key itself is for clauses alone.
#[derive(Drop)]
pub struct PackedKey {
    words: [u64; 4],
    key: Snapshot<Key>,
}

impl Model for PackedKey {
    ghost use Rattle.node_words.specs.declared.keys.Key.{Key};
    ghost use Rattle.node_table.specs.Finding.{AreWordsOf};

    ghost Value = { Key };

    ghost view = { λ p. p.key.value };

    ghost invariant = { λ p. AreWordsOf p.key.value p.words };
}

impl PackedKey {
    /// The words of the key.
    #[inline(always)]
    pub fn of(key: &Key) -> PackedKey
        ensures { result ≡ key.now }
    {
        let words = words_of(key);
        let key = Snapshot::of(key);
        PackedKey { words, key }
    }
}

// The words of a key, and the tag that the book of its entry has.
#[derive(Clone, Copy)]
pub(crate) struct Sought {
    pub(crate) words: [u64; 4],
    pub(crate) tag: u64,
}

// How many words the keys of this level have.
pub(crate) fn words_at(level: u8) -> u8
    ensures words { result ≡ key_words level }
    ensures few { (1 ≤ result) × (result ≤ 4) }
{
    if level == 0 { 1 } else { 4 }
}

// The key's words and tag.
#[inline(always)]
pub(crate) fn sought_of(level: u8, key: &PackedKey) -> Sought
    ensures sought { IsSought level key.now result }
    ensures small { result.tag < 2 ^ 24 }
{
    let words = key.words;
    let tag = tag_of(level, &words);
    Sought { words, tag }
}

#[inline(always)]
fn words_of(key: &Key) -> [u64; 4]
    ensures { AreWordsOf key.now result }
{
    match key {
        Key::Leaf(bits) => [*bits, *bits, *bits, *bits],
        Key::Node(children) => [
            pair_of(children[0], children[1]),
            pair_of(children[2], children[3]),
            pair_of(children[4], children[5]),
            pair_of(children[6], children[7]),
        ],
    }
}

#[inline(always)]
fn pair_of(low: Option<Name>, high: Option<Name>) -> u64
    ensures { result ≡ word_of_child low + 2 ^ 32 * word_of_child high }
{
    pair_word(child_word(low), child_word(high))
}

// The high bits of the words mixed into one.
#[inline(always)]
#[tactic(auto, unfolding(table_rule::specs::Tags::mixed_words))]
fn tag_of(level: u8, words: &[u64; 4]) -> u64
    ensures tag { result ≡ key_tag level (slice_index words.now) }
    ensures small { result < 2 ^ 24 }
{
    let first = words[0].wrapping_mul(FIRST);
    if level == 0 {
        return first >> 40;
    }
    let two = first.wrapping_add(words[1].wrapping_mul(SECOND));
    let three = two.wrapping_add(words[2].wrapping_mul(THIRD));
    three.wrapping_add(words[3].wrapping_mul(FOURTH)) >> 40
}
