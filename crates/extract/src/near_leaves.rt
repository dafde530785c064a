ghost use Rattle.std.specs.Prelude.{◌≡◌, ◌<◌, ℕ, List, Bool, if◌then◌else◌};
ghost use Rattle.vw_cell.specs.declared.cells.Cell.{Cell};
ghost use Rattle.vw_cell.specs.declared.directions.Direction.{Direction};
ghost use Rattle.node_words.specs.shapes.Shape.{Shape, octant_shape};
ghost use Rattle.node_words.specs.shapes.Tree.{Tree};
ghost use Rattle.node_words.specs.Held.{bits_of_leaf};
ghost use Rattle.node_words.specs.descent.Roots.{HasBlock, ForBlock};
ghost use Rattle.measure.specs.Exposed.{across, beside_shape, exposed_of, stays};
ghost use Rattle.measure.specs.Faces.{passes_exposed};
ghost use Rattle.measure.specs.Leaves.{BitsPassTest};
ghost use Rattle.measure.specs.Tallies.{in_octant};
ghost use Rattle.extract.specs.Sides.{AreNearLeaves, HasSides, HaveBits, leaf_towards, sided};
ghost use Rattle.extract.specs.declared.surrounded.Surrounded.{Surrounded};

use crate::bare_layers::BareLeaf;
use crate::surrounded::Surrounded;
use measure::{across, next_bits, stays};
use node_words::{Blocks, Name, octant_bits, same_names};
use vw_cell::Direction;

/// The bits of the eight leaves of a block, and of those of the blocks beside it.
#[derive(Drop)]
pub(crate) struct NearLeaves {
    block: [u64; 8],
    low_x: [u64; 8],
    high_x: [u64; 8],
    low_y: [u64; 8],
    high_y: [u64; 8],
    low_z: [u64; 8],
    high_z: [u64; 8],
}

impl NearLeaves {
    /// Each of the seven is looked at once at most.
    #[inline(always)]
    pub(crate) fn of<B: Blocks>(store: &mut B, subject: &Surrounded) -> NearLeaves
        requires block { HasSides (B.seen store.old).held 1 subject.now }
        ensures near { AreNearLeaves (B.seen store.old).held subject.now result }
        ensures seen { B.seen store.new ≡ B.seen store.old }
        ensures rests { B.rests store.old store.new }
    {
        let block = octant_bits(store, subject.block);
        let low_x = bits_beside(store, subject.block, &block, subject.low_x);
        let high_x = bits_beside(store, subject.block, &block, subject.high_x);
        let low_y = bits_beside(store, subject.block, &block, subject.low_y);
        let high_y = bits_beside(store, subject.block, &block, subject.high_y);
        let low_z = bits_beside(store, subject.block, &block, subject.low_z);
        let high_z = bits_beside(store, subject.block, &block, subject.high_z);
        NearLeaves {
            block,
            low_x,
            high_x,
            low_y,
            high_y,
            low_z,
            high_z,
        }
    }

    /// The cells of a leaf that are bare towards each direction.
    #[inline(always)]
    pub(crate) fn leaf(&self, octant: u8) -> BareLeaf
        requires { octant < 8 }
        ensures { (held : List Tree) (s : Surrounded) → AreNearLeaves held s self.now
            → (d : Direction) (test : Cell → Bool) → passes_exposed held 1 (sided s d) test
            → BitsPassTest (leaf_towards result d) (in_octant 1 octant test) }
    {
        let block = &self.block;
        let low_x = bare_bits(block, &self.low_x, Direction::LowX, octant);
        let high_x = bare_bits(block, &self.high_x, Direction::HighX, octant);
        let low_y = bare_bits(block, &self.low_y, Direction::LowY, octant);
        let high_y = bare_bits(block, &self.high_y, Direction::HighY, octant);
        let low_z = bare_bits(block, &self.low_z, Direction::LowZ, octant);
        let high_z = bare_bits(block, &self.high_z, Direction::HighZ, octant);
        BareLeaf {
            low_x,
            high_x,
            low_y,
            high_y,
            low_z,
            high_z,
        }
    }
}

// The bits of a block beside, which are the block's own where the same stands in both.
#[inline(always)]
fn bits_beside<B: Blocks>(
    store: &mut B,
    block: Option<Name>,
    bits: &[u64; 8],
    beside: Option<Name>,
) -> [u64; 8]
    requires bits { ForBlock (B.seen store.old).held 1 block (HaveBits bits.now) }
    requires beside { HasBlock (B.seen store.old).held 1 beside }
    ensures bits { ForBlock (B.seen store.old).held 1 beside (HaveBits result) }
    ensures seen { B.seen store.new ≡ B.seen store.old }
    ensures rests { B.rests store.old store.new }
{
    if same_names(block, beside) {
        return *bits;
    }
    octant_bits(store, beside)
}

// The same towards one direction.
#[inline(always)]
fn bare_bits(block: &[u64; 8], beside: &[u64; 8], direction: Direction, octant: u8) -> u64
    requires { octant < 8 }
    ensures { (s u : Shape) → HaveBits block.now s → HaveBits beside.now u
        → BitsPassTest result (exposed_of direction 0 (octant_shape s octant)
        (beside_shape direction s u octant)) }
{
    let bits = block[usize::from(octant)];
    let next = bits_across(block, beside, direction, octant);
    bits & !next_bits(direction, bits, next)
}

// The bits of the leaf next to one, of its block or of the one beside that.
#[inline(always)]
fn bits_across(block: &[u64; 8], beside: &[u64; 8], direction: Direction, octant: u8) -> u64
    requires { octant < 8 }
    ensures { result
        ≡ bits_of_leaf (if stays direction octant then block.now else beside.now)
        (across direction octant) }
{
    let i = usize::from(across(direction, octant));
    if stays(direction, octant) {
        block[i]
    } else {
        beside[i]
    }
}
