ghost use Rattle.std.specs.Prelude.{◌≡◌, ◌<◌, ℕ, Bool, slice_index};
ghost use Rattle.vw_cell.specs.declared.cells.Cell.{Cell};
ghost use Rattle.vw_cell.specs.Places.{block_side, is_in_box};
ghost use Rattle.node_words.specs.kernels.Leaves.{LeafShows};
ghost use Rattle.node_words.specs.descent.Parts.{EndsBy};
ghost use Rattle.measure.specs.Leaves.{octant_leaf};
ghost use Rattle.measure.specs.Tallies.{IsTally, IsOctantTally};

use crate::tallies::{Part, Subject};
use node_words::{Blocks, box_bits};
use vw_cell::{Block, Boxed, Cell};

/// How many cells of a part of a block of eight leaves count. Where none of the part lies in a
/// leaf, the leaf isn't read.
pub(crate) fn tally_leaf_parts<S: Subject, B: Blocks>(store: &mut B, of: &Part<S>) -> u64
    requires level { of.now.level ≡ 1 }
    requires block { (test : Cell → Bool)
        × S.counts (B.seen store.old).held of.now.level of.now.subject test }
    requires part { EndsBy (block_side of.now.level) of.now.part }
    ensures number { IsTally S.counts (B.seen store.old).held of.now result }
    ensures seen { B.seen store.new ≡ B.seen store.old }
    ensures rests { B.rests store.old store.new }
{
    let within = bits_by_leaf(of.part);
    let mut number = 0;
    for octant in 0..8u8 {
        number += count_within(store, of, octant, within[usize::from(octant)]);
    }
    number
}

// The same, of the leaf in an octant, whose bits in the part these are.
#[inline(always)]
fn count_within<S: Subject, B: Blocks>(store: &mut B, of: &Part<S>, octant: u8, within: u64) -> u64
    requires level { of.now.level ≡ 1 }
    requires octant { octant < 8 }
    requires block { (test : Cell → Bool)
        × S.counts (B.seen store.old).held of.now.level of.now.subject test }
    requires part { EndsBy (block_side of.now.level) of.now.part }
    requires within { LeafShows within (octant_leaf octant) (is_in_box of.now.part) }
    ensures number { IsOctantTally S.counts (B.seen store.old).held of.now octant result }
    ensures seen { B.seen store.new ≡ B.seen store.old }
    ensures rests { B.rests store.old store.new }
{
    if within == 0 {
        return 0;
    }
    let subject = of.subject.octant(store, 1, octant);
    let bits = subject.leaf(store);
    u64::from((bits & within).count_ones())
}

// Which cells of each of the eight leaves of a block are in the box.
fn bits_by_leaf(b: Boxed) -> [u64; 8]
    ensures { (k : ℕ) → k < 8 → LeafShows (slice_index result k) (octant_leaf k) (is_in_box b) }
{
    [
        box_bits(b, octant_leaf(0)),
        box_bits(b, octant_leaf(1)),
        box_bits(b, octant_leaf(2)),
        box_bits(b, octant_leaf(3)),
        box_bits(b, octant_leaf(4)),
        box_bits(b, octant_leaf(5)),
        box_bits(b, octant_leaf(6)),
        box_bits(b, octant_leaf(7)),
    ]
}

// The leaf in an octant.
fn octant_leaf(octant: u8) -> Block
    requires { octant < 8 }
    ensures { result ≡ octant_leaf octant }
{
    let at = Cell {
        x: u16::from(octant % 2) * 4,
        y: u16::from(octant / 2 % 2) * 4,
        z: u16::from(octant / 4 % 2) * 4,
    };
    Block { level: 0, at }
}
