ghost use Rattle.std.specs.Prelude.{◌≡◌, ◌≢◌, ℕ, ◌+◌, ◌*◌, ◌/◌, ◌%◌, ◌-◌, ◌^◌, ◌<◌, ◌≤◌, ◌==◌, List, false, length, IfOk};
ghost use Rattle.std.specs.Int.{bit_at};
ghost use Rattle.vw_cell.specs.Sums.{sum_below, one_if};
ghost use Rattle.vw_cell.specs.Bits.{is_set, number_set, Keeps, PutsRange, PutsBits};

use std::alloc::{AllocError, Global};
use std::marker::Model;

/// A row of bits of fixed length, 64 to a word. Contracts see the list of the words, and each bit
/// by
/// `is_set`.
#[derive(Drop)]
pub struct BitSet {
    words: Vec<u64>,
}

impl Model for BitSet {
    ghost Value = { List ℕ };

    ghost view = { λ b. b.words.items };
}

impl BitSet {
    /// A row with room for this many bits, all clear. It takes all of its memory here.
    #[tactic(auto, using(crate::proofs::Words::none_set))]
    pub fn new(alloc: Global, bits: usize) -> Result<BitSet, AllocError>
        requires { bits + 63 < 2 ^ 64 }
        ensures length { IfOk result (λ b. length b ≡ (bits + 63) / 64) }
        ensures clear { IfOk result (λ b. (i : ℕ) → is_set b i ≡ false) }
    {
        Ok(BitSet {
            words: vec![in alloc; 0; (bits + 63) / 64]?,
        })
    }

    /// Sets or clears a bit, and says whether it was set before.
    #[tactic(auto, using(crate::proofs::Words::put_here, crate::proofs::Words::put_elsewhere))]
    pub fn put(&mut self, i: usize, value: bool) -> bool
        requires { i < 64 * length self.old }
        ensures was { result ≡ is_set self.old i }
        ensures here { is_set self.new i ≡ value }
        ensures elsewhere { (j : ℕ) → j ≢ i → is_set self.new j ≡ is_set self.old j }
        ensures length { length self.new ≡ length self.old }
    {
        let word = self.words[i / 64];
        self.words[i / 64] = with_bit(word, i % 64, value);
        has_bit(word, i % 64)
    }

    /// Sets or clears the bits from `from` up to `to`, a word at a time.
    #[tactic(auto, using(crate::proofs::Ranges::range_none, crate::proofs::Ranges::range_more))]
    pub fn put_range(&mut self, from: usize, to: usize, value: bool)
        requires ordered { from ≤ to }
        requires inside { to ≤ 64 * length self.old }
        ensures { PutsRange from to value self.old self.new }
    {
        let mut at = from;
        while at < to {
            let piece = piece_at(at, to);
            let word = self.words[at / 64];
            self.words[at / 64] = with_bits(word, at % 64, piece, value);
            at += piece;
        }
    }

    /// How many of the bits from `from` up to `to` are set, a word at a time.
    #[tactic(auto, using(crate::proofs::Ranges::number_none, crate::proofs::Ranges::number_more))]
    pub fn count(&self, from: usize, to: usize) -> usize
        requires ordered { from ≤ to }
        requires inside { to ≤ 64 * length self.now }
        ensures { result ≡ number_set self.now from to }
    {
        let mut set = 0;
        let mut at = from;
        while at < to {
            let piece = piece_at(at, to);
            let word = self.words[at / 64];
            set += count_bits(word, at % 64, piece);
            at += piece;
        }
        set
    }
}

// How many bits from `at` up to `to` stand in the word of bit `at`.
fn piece_at(at: usize, to: usize) -> usize
    requires { at < to }
    ensures some { 1 ≤ result }
    ensures in_word { at % 64 + result ≤ 64 }
    ensures in_range { at + result ≤ to }
{
    (64 - at % 64).min(to - at)
}

// The bits from bit k on, `piece` of them, as a mask.
#[tactic(auto, using(crate::specs::Runs::mask_is))]
fn mask(k: usize, piece: usize) -> u64
    requires some { 1 ≤ piece }
    requires in_word { k + piece ≤ 64 }
    ensures { result ≡ 2 ^ (k + piece) - 2 ^ k }
{
    u64::MAX >> (64 - piece) << k
}

#[tactic(auto, using(crate::proofs::Masks::sets_bits, crate::proofs::Masks::clears_bits))]
fn with_bits(word: u64, k: usize, piece: usize, value: bool) -> u64
    requires some { 1 ≤ piece }
    requires in_word { k + piece ≤ 64 }
    ensures { PutsBits k piece value word result }
{
    if value {
        word | mask(k, piece)
    } else {
        word & !mask(k, piece)
    }
}

#[tactic(auto, using(crate::proofs::Masks::count_is, crate::proofs::Masks::count_small))]
fn count_bits(word: u64, k: usize, piece: usize) -> usize
    requires some { 1 ≤ piece }
    requires in_word { k + piece ≤ 64 }
    ensures value { result ≡ sum_below piece (λ m. one_if (bit_at word (k + m) == 1)) }
    ensures bound { result ≤ piece }
{
    (word >> k & u64::MAX >> (64 - piece)).count_ones() as usize
}

#[tactic(auto, using(std::proofs::lemmas::Nat::Bits::shr_and_one))]
fn has_bit(word: u64, k: usize) -> bool
    requires { k < 64 }
    ensures { result ≡ (bit_at word k == 1) }
{
    word >> k & 1 == 1
}

// The word with one bit set or cleared, and the others as they are.
#[tactic(auto, using(crate::proofs::Words::set_bit, crate::proofs::Words::set_keeps, crate::proofs::Words::clear_bit, crate::proofs::Words::clear_keeps))]
fn with_bit(word: u64, k: usize, value: bool) -> u64
    requires { k < 64 }
    ensures here { (bit_at result k == 1) ≡ value }
    ensures others { Keeps k word result }
{
    if value {
        word | 1 << k
    } else {
        word & !(1 << k)
    }
}
