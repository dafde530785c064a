ghost use Rattle.std.specs.Prelude.{◌≡◌, ℕ, ◌+◌, ◌-◌, ◌*◌, ◌^◌, ◌<◌, ◌≤◌, slice_index};
ghost use Rattle.node_words.specs.Sums.{sum_below};
ghost use Rattle.core_laws.specs.places.WordIds.{place, width, key_words, head_words, word_place, Sessions, LogTurn, LogLength, Version, Turn, Used, Key, Book, IsWordId};
ghost use Rattle.core_laws.specs.places.WordIds.{bucket_words, first_bucket, whole_lines};

use node_words::Plan;
use std::marker::Model;

/// Where the words of versions begin, eight of each.
const FIRST_VERSION: usize = 3;

/// Where the first bucket begins, behind the words of 65,536 versions and three that stay 0.
const FIRST_BUCKET: usize = 524_294;

/// Where each word of a store and of its log stands in one table, by a plan. What the places of a
/// level start from, and how many words its buckets have, is found once, when it is made. Contracts
/// see the plan.
#[derive(Drop)]
pub struct Places {
    plan: Plan,
    head: usize,
    leaves: usize,
    nodes: usize,
    starts: [usize; 12],
}

impl Model for Places {
    ghost use Rattle.node_words.specs.Plans.{Layout};
    ghost use Rattle.core_laws.specs.places.Firsts.{AreFirsts};

    ghost Value = { Layout };

    ghost view = { λ p. p.plan };

    ghost invariant = { λ p. AreFirsts p.plan p.head p.leaves p.nodes p.starts };
}

impl Places {
    /// The places of this plan's words.
    #[tactic(auto, using(crate::proofs::OfPlaces::Lines::nodes_alike))]
    pub fn new(plan: &Plan) -> Places
        ensures { result ≡ plan.now }
    {
        let of_levels = plan.buckets();
        let cap = plan.cap();
        Places {
            plan: *plan,
            head: whole_lines(usize::from(cap) + 2),
            leaves: words_of(cap, 0),
            nodes: words_of(cap, 1),
            starts: starts_of(&of_levels, cap),
        }
    }

    /// How many words the table has.
    pub fn width(&self) -> usize
        ensures { result ≡ width self.now }
    {
        self.starts[levels_of(&self.plan)]
    }

    /// The place of the word that counts the sessions made.
    pub fn sessions(&self) -> usize
        ensures { result ≡ place self.now Sessions }
    {
        0
    }

    /// The place of the log's turn.
    pub fn log_turn(&self) -> usize
        ensures { result ≡ place self.now LogTurn }
    {
        1
    }

    /// The place of the log's length.
    pub fn log_length(&self) -> usize
        ensures { result ≡ place self.now LogLength }
    {
        2
    }

    /// The place of a version's word; a version has eight.
    pub fn version(&self, version: u32, word: u8) -> usize
        requires { IsWordId self.now (Version version word) }
        ensures { result ≡ place self.now (Version version word) }
    {
        FIRST_VERSION + (version as usize * 8 + usize::from(word))
    }

    /// The place of a bucket's turn.
    #[inline(always)]
    pub fn turn(&self, level: u8, bucket: u16) -> usize
        requires { IsWordId self.now (Turn level bucket) }
        ensures { result ≡ place self.now (Turn level bucket) }
    {
        self.bucket(level, bucket)
    }

    /// The place of the word that says how many slots of a bucket were ever used. It stands behind
    /// the bucket's turn.
    #[inline(always)]
    pub fn used(&self, level: u8, bucket: u16) -> usize
        requires { IsWordId self.now (Used level bucket) }
        ensures { result ≡ place self.now (Used level bucket) }
    {
        self.bucket(level, bucket) + 1
    }

    /// The place of the book in this slot.
    #[inline(always)]
    pub fn book(&self, level: u8, bucket: u16, slot: u8) -> usize
        requires { IsWordId self.now (Book level bucket slot) }
        ensures { result ≡ place self.now (Book level bucket slot) }
    {
        self.bucket(level, bucket) + (2 + usize::from(slot))
    }

    /// The place of a word of the key in this slot; a leaf's key has one, a node's four.
    #[inline(always)]
    pub fn key(&self, level: u8, bucket: u16, slot: u8, word: u8) -> usize
        requires { IsWordId self.now (Key level bucket slot word) }
        ensures { result ≡ place self.now (Key level bucket slot word) }
    {
        let number = usize::from(slot) * key_words(level) + usize::from(word);
        self.bucket(level, bucket) + (self.head + number)
    }

    /// The place of a bucket's first word. A line of memory begins there where the table's block of
    /// memory begins two words behind a line, as a large one of the C library does. A bucket's head
    /// is its turn, how many of its slots were ever used, and the books of all slots; the keys
    /// stand behind the head, the words of each side by side.
    #[inline(always)]
    pub fn bucket(&self, level: u8, bucket: u16) -> usize
        requires { IsWordId self.now (Turn level bucket) }
        ensures value { result ≡ word_place self.now level bucket 0 }
        ensures bound { result < 2 ^ 41 }
    {
        self.starts[usize::from(level)] + usize::from(bucket) * self.bucket_words(level)
    }

    // How many words a bucket of this level has.
    #[inline(always)]
    fn bucket_words(&self, level: u8) -> usize
        ensures value { result ≡ bucket_words self.now level }
        ensures bound { result < 2 ^ 20 }
    {
        if level == 0 { self.leaves } else { self.nodes }
    }

    /// How many words of a bucket stand before its keys.
    #[inline(always)]
    pub fn head(&self) -> usize
        ensures value { result ≡ head_words self.now }
        ensures bound { result < 2 ^ 20 }
    {
        self.head
    }
}

// How many levels the plan's world has.
fn levels_of(plan: &Plan) -> usize
    ensures value { result ≡ plan.now.side - 1 }
    ensures bound { result ≤ 11 }
{
    usize::from(plan.side().root_level()) + 1
}

// How many words a key of this level has.
fn key_words(level: u8) -> usize
    ensures value { result ≡ key_words level }
    ensures bound { result ≤ 4 }
{
    if level == 0 { 1 } else { 4 }
}

// So many words, up to a whole line of memory, which has eight.
#[tactic(auto, unfolding(crate::specs::places::WordIds::whole_lines))]
fn whole_lines(words: usize) -> usize
    requires { words < 2 ^ 19 }
    ensures value { result ≡ whole_lines words }
    ensures bound { result ≤ words + 7 }
{
    (words + 7) / 8 * 8
}

// How many words a bucket of this level has, by the cap.
#[tactic(auto, using(crate::proofs::OfPlaces::Lines::keys_few, crate::proofs::OfPlaces::Lines::bucket_few))]
fn words_of(cap: u16, level: u8) -> usize
    ensures value { result ≡ whole_lines (cap + 2) + whole_lines (key_words level * cap) }
    ensures bound { result < 2 ^ 20 }
{
    whole_lines(usize::from(cap) + 2) + whole_lines(key_words(level) * usize::from(cap))
}

// Where the buckets of the first levels end, for each number of levels.
fn starts_of(buckets: &[u16; 11], cap: u16) -> [usize; 12]
    ensures ends { (levels : ℕ) → levels ≤ 11
        → slice_index result levels ≡ first_bucket + sum_below levels
        (λ level. (whole_lines (cap + 2) + whole_lines (key_words level * cap))
        * slice_index buckets.now level) }
    ensures small { (levels : ℕ) → levels ≤ 11 → slice_index result levels < 2 ^ 40 }
{
    let mut ends = [FIRST_BUCKET; 12];
    for level in 0..11 {
        let words = words_of(cap, level as u8);
        ends[level + 1] = ends[level] + words * usize::from(buckets[level]);
    }
    ends
}
