ghost use Rattle.std.specs.Prelude.{◌≡◌, ◌+◌, ◌*◌, ◌^◌, ◌<◌, ◌≤◌, ◌/◌, ◌%◌, Option};
ghost use Rattle.node_words.specs.declared.shapes.names.Name.{Name};
ghost use Rattle.core_laws.specs.places.Words.{word_of_child};
ghost use Rattle.core_laws.specs.places.KeyWords.{half, child_of_word};

use node_words::Name;

/// What stands for a child in a node's key.
pub fn child_word(child: Option<Name>) -> u32
    ensures { result ≡ word_of_child child }
{
    match child {
        None => 0,
        Some(n) => 1 + (u32::from(n.bucket) * 256 + u32::from(n.slot)),
    }
}

/// Two children's words as one word of a key, that of the lower octant in the low half.
pub fn pair_word(low: u32, high: u32) -> u64
    ensures { result ≡ low + 2 ^ 32 * high }
{
    u64::from(low) + (1 << 32) * u64::from(high)
}

/// The two children's words in a word of a key, that of the lower octant first.
#[tactic(auto, using(crate::proofs::OfPlaces::KeyLaws::low_half, crate::proofs::OfPlaces::KeyLaws::high_half))]
pub fn halves(word: u64) -> (u32, u32)
    ensures halves { (result.0 ≡ half 0 word) × (result.1 ≡ half 1 word) }
    ensures back { result.0 + 2 ^ 32 * result.1 ≡ word }
{
    ((word % (1 << 32)) as u32, (word >> 32) as u32)
}

/// The child that a word stands for, in a node of the level above `level`.
#[tactic(auto, using(crate::proofs::OfPlaces::KeyLaws::child_read, crate::proofs::OfPlaces::KeyLaws::word_back))]
pub fn child_in(word: u32, level: u8) -> Option<Name>
    requires { word ≤ 2 ^ 24 }
    ensures child { result ≡ child_of_word level word }
    ensures word { word_of_child result ≡ word }
{
    if word == 0 {
        return None;
    }
    let at = word - 1;
    Some(Name {
        level,
        bucket: (at / 256) as u16,
        slot: (at % 256) as u8,
    })
}
