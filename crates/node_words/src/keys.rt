ghost use Rattle.std.specs.Prelude.{◌≡◌, ◌<◌, ◌≤◌, ◌+◌, ◌*◌, ◌^◌, ℕ, Option};
ghost use Rattle.node_words.specs.declared.shapes.names.Name.{Name};
ghost use Rattle.node_words.specs.shapes.Buckets.{mixed, finished, pair_word, hash_start};

use crate::shapes::Name;

/// What tells a bucket's nodes apart: a leaf's bits, or the names of a node's children by octant.
#[derive(Clone, Copy, Debug, PartialEq, Eq)]
pub enum Key {
    Leaf(u64),
    Node([Option<Name>; 8]),
}

const HASH_START: u64 = 0x9E37_79B9_7F4A_7C15;

const MIX: u64 = 0xBF58_476D_1CE4_E5B9;

const FINISH: u64 = 0x94D0_49BB_1331_11EB;

/// The bucket of the key, of so many buckets on its level.
///
/// A node's bucket follows from the buckets of its children, so from what the node contains alone.
#[inline(always)]
pub fn bucket_of(key: &Key, buckets: u16) -> u16
    requires { 1 ≤ buckets }
    ensures bucket { result ≡ bucket_of_key key.now buckets }
    ensures below { result < buckets }
{
    let hash = match key {
        Key::Leaf(bits) => mixed(HASH_START, *bits),
        Key::Node(children) => children_hash(children),
    };
    let bucket = (finished(hash) >> 32) % u64::from(buckets);
    bucket as u16
}

ghost use Rattle.node_words.specs.Keys.{bucket_of_key, child_term, children_hash};

#[inline(always)]
fn children_hash(children: &[Option<Name>; 8]) -> u64
    ensures { result ≡ children_hash children.now }
{
    let a = mixed(HASH_START, pair_word(children[0], children[1]));
    let b = mixed(a, pair_word(children[2], children[3]));
    let c = mixed(b, pair_word(children[4], children[5]));
    mixed(c, pair_word(children[6], children[7]))
}

fn pair_word(low: Option<Name>, high: Option<Name>) -> u64
    ensures { result ≡ pair_word (child_term low) (child_term high) }
{
    let low = child_term(low);
    let high = child_term(high);
    u64::from(low) + (u64::from(high) << 32)
}

// 0 where there is no child, else 1 and the child's bucket.
fn child_term(child: Option<Name>) -> u32
    ensures value { result ≡ child_term child }
    ensures below { result ≤ 65536 }
{
    match child {
        None => 0,
        Some(n) => 1 + u32::from(n.bucket),
    }
}

#[tactic(auto, unfolding(crate::specs::shapes::Buckets::mixed))]
fn mixed(hash: u64, word: u64) -> u64
    ensures { result ≡ mixed hash word }
{
    let hash = (hash ^ word).wrapping_mul(MIX);
    hash ^ (hash >> 29)
}

#[tactic(auto, unfolding(crate::specs::shapes::Buckets::finished))]
fn finished(hash: u64) -> u64
    ensures { result ≡ finished hash }
{
    let hash = (hash ^ (hash >> 32)).wrapping_mul(FINISH);
    hash ^ (hash >> 29)
}
