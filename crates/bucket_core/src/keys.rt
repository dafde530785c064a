ghost use Rattle.std.specs.Prelude.{◌≡◌, ◌↔◌, IsTrue};

use node_words::{Key, Name};

/// A key that can be told from every other: keys that are alike are one value.
pub trait ExactKey: Drop {
    /// Whether both are one value.
    fn is_same(&self, other: &Self) -> bool
        ensures { IsTrue result ↔ (self.now ≡ other.now) };
}

impl ExactKey for u64 {
    fn is_same(&self, other: &u64) -> bool {
        *self == *other
    }
}

impl ExactKey for Key {
    fn is_same(&self, other: &Key) -> bool {
        match (self, other) {
            (Key::Leaf(a), Key::Leaf(b)) => *a == *b,
            (Key::Node(a), Key::Node(b)) => are_same_children(a, b),
            _ => false,
        }
    }
}

#[tactic(auto, using(crate::proofs::KeyTests::same_children))]
fn are_same_children(a: &[Option<Name>; 8], b: &[Option<Name>; 8]) -> bool
    ensures { IsTrue result ↔ (a.now ≡ b.now) }
{
    for k in 0..8usize {
        if !is_same_child(a[k], b[k]) {
            return false;
        }
    }
    true
}

fn is_same_child(a: Option<Name>, b: Option<Name>) -> bool
    ensures { IsTrue result ↔ (a ≡ b) }
{
    match (a, b) {
        (None, None) => true,
        (Some(a), Some(b)) => a.level == b.level && a.bucket == b.bucket && a.slot == b.slot,
        _ => false,
    }
}
