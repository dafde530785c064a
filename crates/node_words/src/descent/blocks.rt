ghost use Rattle.std.specs.Prelude.{◌≡◌, ℕ, ◌-◌, ◌*◌, ◌<◌, ◌≤◌, List, option_copied};
ghost use Rattle.vw_cell.specs.Places.{block_side};
ghost use Rattle.node_words.specs.shapes.Shape.{bits_of, octant_shape};
ghost use Rattle.node_words.specs.shapes.Tree.{Tree, child_of};
ghost use Rattle.node_words.specs.Held.{name_in, bits_of_leaf};
ghost use Rattle.node_words.specs.descent.Roots.{IsBlockOf, IsOctantOf, HasBlock, ForBlock};

use crate::shapes::Name;
use crate::{Blocks, Share};

/// The name of a root, where there is one.
pub fn name_of(root: Option<&Share>) -> Option<Name>
    ensures { result ≡ option_copied root.entry }
{
    match root {
        Some(share) => Some(share.name()),
        None => None,
    }
}

/// The name of what stands in an octant of a block, where anything does.
pub fn octant_name<B: Blocks>(
    store: &mut B,
    level: u8,
    block: Option<Name>,
    octant: u8,
) -> Option<Name>
    requires level { 1 ≤ level }
    requires octant { octant < 8 }
    requires block { HasBlock (B.seen store.old).held level block }
    ensures octant { IsOctantOf (B.seen store.old).held level block octant result }
    ensures seen { B.seen store.new ≡ B.seen store.old }
    ensures rests { B.rests store.old store.new }
{
    match block {
        Some(name) => store.child_at(name, octant),
        None => None,
    }
}

/// The names of what stands in the octants of a block, none where nothing does.
pub fn octant_names<B: Blocks>(store: &mut B, level: u8, block: Option<Name>) -> [Option<Name>; 8]
    requires level { 1 ≤ level }
    requires block { HasBlock (B.seen store.old).held level block }
    ensures octants { (k : ℕ) → k < 8
        → IsOctantOf (B.seen store.old).held level block k (name_in result k) }
    ensures seen { B.seen store.new ≡ B.seen store.old }
    ensures rests { B.rests store.old store.new }
{
    match block {
        Some(name) => store.children_at(name),
        None => [None; 8],
    }
}

/// The bits of the leaves in the octants of a block of level 1, 0 where nothing stands.
pub fn octant_bits<B: Blocks>(store: &mut B, block: Option<Name>) -> [u64; 8]
    requires block { HasBlock (B.seen store.old).held 1 block }
    ensures leaves { ForBlock (B.seen store.old).held 1 block
        (λ s. (k : ℕ) → k < 8 → bits_of_leaf result k ≡ bits_of (octant_shape s k)) }
    ensures seen { B.seen store.new ≡ B.seen store.old }
    ensures rests { B.rests store.old store.new }
{
    match block {
        Some(name) => store.leaves_at(name),
        None => [0; 8],
    }
}

/// The bits of a leaf's block, none where nothing stands in it.
pub fn leaf_bits<B: Blocks>(store: &mut B, block: Option<Name>) -> u64
    requires block { HasBlock (B.seen store.old).held 0 block }
    ensures bits { ForBlock (B.seen store.old).held 0 block (λ s. result ≡ bits_of s) }
    ensures seen { B.seen store.new ≡ B.seen store.old }
    ensures rests { B.rests store.old store.new }
{
    match block {
        Some(name) => store.bits_at(name),
        None => 0,
    }
}

/// Half the side of a block, in cells.
#[tactic(auto, using(vw_cell::proofs::Halves::shift_exact, crate::proofs::OfDescent::LookLaws::half_bounds, crate::proofs::OfDescent::LookLaws::half_twice))]
pub fn half_side(level: u8) -> u16
    requires { (1 ≤ level) × (level ≤ 10) }
    ensures half { result ≡ block_side (level - 1) }
    ensures bounds { (4 ≤ result) × (result ≤ 2048) }
    ensures twice { block_side level ≡ 2 * result }
{
    4 << (level - 1)
}
