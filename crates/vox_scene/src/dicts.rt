ghost use Rattle.std.specs.Prelude.{◌≡◌, ◌≤◌, ◌<◌, ◌+◌, ◌^◌, ℕ, List, length, Option, MatchOption, option_copied, is_some, true};
ghost use Rattle.vox_chunk.specs.Frames.{number_at};
ghost use Rattle.vox_scene.specs.Dicts.{rest_behind, Cut, PairCut, Pairs, text_in, pair_in, dict_pairs, pairs_of, dict_in, value_of};

use byteorder::{ByteOrder, LittleEndian};
use std::marker::Model;

// A text at the front of some bytes, and what stands behind it.
#[derive(Drop)]
pub(crate) struct TextCut<'f> {
    pub(crate) text: &'f [u8],
    pub(crate) rest: &'f [u8],
}

impl<'f> Model for TextCut<'f> {
    ghost use Rattle.vox_scene.specs.Dicts.{Cut};

    ghost Value = { Cut };

    ghost view = { λ c. record { text = c.text.now; rest = c.rest.now } };
}

// A pair at the front of some bytes, and what stands behind it.
#[derive(Drop)]
pub(crate) struct Entry<'f> {
    pub(crate) key: &'f [u8],
    pub(crate) value: &'f [u8],
    pub(crate) rest: &'f [u8],
}

impl<'f> Model for Entry<'f> {
    ghost use Rattle.vox_scene.specs.Dicts.{PairCut};

    ghost Value = { PairCut };

    ghost view = { λ c. record { key = c.key.now; value = c.value.now; rest = c.rest.now } };
}

// A DICT at the front of some bytes, and what stands behind it.
#[derive(Drop)]
pub(crate) struct DictCut<'f> {
    pub(crate) dict: Dict<'f>,
    pub(crate) rest: &'f [u8],
}

impl<'f> Model for DictCut<'f> {
    ghost use Rattle.vox_scene.specs.Dicts.{Pairs};

    ghost Value = { Pairs };

    ghost view = { λ c. record { list = c.dict; rest = c.rest.now } };
}

/// Pairs of texts, as they stand in the file.
#[derive(Drop)]
pub struct Dict<'f> {
    number: u32,
    // the pairs, and what follows them
    bytes: &'f [u8],
}

impl<'f> Model for Dict<'f> {
    ghost use Rattle.std.specs.Prelude.{◌≡◌, List, is_some, true};
    ghost use Rattle.vox_scene.specs.Dicts.{Pair, dict_pairs, pairs_of};

    ghost Value = { List Pair };

    ghost view = { λ d. pairs_of (dict_pairs d.number d.bytes.now) };

    ghost invariant = { λ d. is_some (dict_pairs d.number d.bytes.now) ≡ true };
}

impl<'f> Dict<'f> {
    /// The value of the first pair with this key.
    pub fn get(&self, key: &[u8]) -> Option<&'f [u8]>
        ensures { option_copied result ≡ value_of key.now self.now }
    {
        let mut left = self.number;
        let mut bytes = self.bytes;
        while left > 0 {
            let Some(entry) = cut_pair(bytes) else {
                return None;
            };
            if entry.key == key {
                return Some(entry.value);
            }
            left -= 1;
            bytes = entry.rest;
        }
        None
    }
}

// The text at the front of these bytes.
pub(crate) fn cut_text(bytes: &[u8]) -> Option<TextCut<'_>>
    ensures { result ≡ text_in bytes.now }
{
    if bytes.len() < 4 {
        return None;
    }
    let n = number(bytes) as usize;
    if bytes.len() < 4 + n {
        return None;
    }
    let (_, text) = bytes.split_at(4);
    let (text, _) = text.split_at(n);
    let (_, rest) = bytes.split_at(4 + n);
    Some(TextCut { text, rest })
}

// The pair at the front of these bytes.
pub(crate) fn cut_pair(bytes: &[u8]) -> Option<Entry<'_>>
    ensures { result ≡ pair_in bytes.now }
{
    let Some(key) = cut_text(bytes) else {
        return None;
    };
    let Some(value) = cut_text(key.rest) else {
        return None;
    };
    Some(Entry {
        key: key.text,
        value: value.text,
        rest: value.rest,
    })
}

pub(crate) fn number(bytes: &[u8]) -> u32
    requires { 4 ≤ length bytes.now }
    ensures { result ≡ number_at bytes.now 0 }
{
    LittleEndian::read_u32(bytes)
}

// The DICT at the front of these bytes.
pub(crate) fn cut_dict(bytes: &[u8]) -> Option<DictCut<'_>>
    ensures { result ≡ dict_in bytes.now }
{
    if bytes.len() < 4 {
        return None;
    }
    let number = number(bytes);
    let (_, bytes) = bytes.split_at(4);
    match behind_pairs(number, bytes) {
        Some(rest) => Some(DictCut {
            dict: Dict { number, bytes },
            rest,
        }),
        None => None,
    }
}

// What stands behind so many pairs.
#[tactic(auto, using(crate::proofs::Skipping::pair_skipped, crate::proofs::Skipping::pair_lacks, crate::proofs::Skipping::pairs_skipped))]
fn behind_pairs(number: u32, bytes: &[u8]) -> Option<&[u8]>
    ensures { option_copied result ≡ rest_behind (dict_pairs number bytes.now) }
{
    let mut left = number;
    let mut rest = bytes;
    while left > 0 {
        let Some(entry) = cut_pair(rest) else {
            return None;
        };
        rest = entry.rest;
        left -= 1;
    }
    Some(rest)
}
