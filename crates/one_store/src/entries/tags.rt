ghost use Rattle.std.specs.Prelude.{◌≡◌, ◌+◌, ◌≤◌, ◌<◌, ◌^◌, ℕ, None, IfSome, vec_capacity};
ghost use Rattle.one_store.specs.entries.Tags.{LacksByte, IsFirstPlace, PutsTag, mixed_words, tag_of_word, tag_of};

use crate::entries::key_words::KeyWords;
use crate::entries::rows::reach;
use std::simd::prelude::*;

/// How many tags stand in one block, and are looked at in one step.
pub(crate) const BLOCK: usize = 16;

/// A block of slots that are all free.
pub(crate) const NO_TAGS: [u8; 16] = [0; 16];

/// The first place of a byte in a block, from this one on.
#[inline(always)]
pub(crate) fn position(tags: &[u8; 16], from: usize, byte: u8) -> Option<usize>
    requires { from ≤ 16 }
    ensures found { IfSome result (IsFirstPlace tags.now from 16 byte) }
    ensures none { result ≡ None → LacksByte tags.now from 16 byte }
{
    let same = u8x16::from_array(*tags).simd_eq(u8x16::splat(byte));
    let hits = same.to_bitmask() >> from;
    if hits == 0 {
        None
    } else {
        Some(from + hits.trailing_zeros() as usize)
    }
}

/// A tag comes to a place of a block. The row grows up to there by blocks of free slots, within its
/// room.
#[inline(always)]
pub(crate) fn put_tag(row: &mut Vec<[u8; 16]>, block: usize, k: usize, tag: u8)
    requires room { block < vec_capacity row.old }
    requires place { k < 16 }
    ensures puts { PutsTag row.old.items block k tag row.new.items }
    ensures room { vec_capacity row.new ≡ vec_capacity row.old }
{
    reach(row, block, NO_TAGS);
    row[block][k] = tag;
}

/// The tag of a key of this level.
#[tactic(auto, unfolding(crate::specs::entries::Tags::tag_of_word))]
pub(crate) fn tag_of(level: u8, words: &KeyWords) -> u8
    ensures { result ≡ tag_of level words.now }
{
    (mixed(level, words) >> 56) as u8 % 255 + 1
}

#[tactic(auto, unfolding(crate::specs::entries::Tags::mixed_words))]
fn mixed(level: u8, words: &KeyWords) -> u64
    ensures { result ≡ mixed_words level words.now.bits words.now.pairs }
{
    if level == 0 {
        return words.bits.wrapping_mul(0x9E37_79B9_7F4A_7C15);
    }
    let pairs = words.pairs;
    let first = pairs.first.wrapping_mul(0x9E37_79B9_7F4A_7C15);
    let second = pairs.second.wrapping_mul(0xBF58_476D_1CE4_E5B9);
    let third = pairs.third.wrapping_mul(0x94D0_49BB_1331_11EB);
    let fourth = pairs.fourth.wrapping_mul(0xD6E8_FEB8_6659_FD93);
    first
        .wrapping_add(second)
        .wrapping_add(third.wrapping_add(fourth))
}
