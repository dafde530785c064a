ghost use Rattle.std.specs.Prelude.{◌≡◌, ℕ, ◌<◌, ◌≤◌, if◌then◌else◌};
ghost use Rattle.vw_cell.specs.declared.directions.Direction.{Direction};
ghost use Rattle.node_words.specs.Held.{name_in};
ghost use Rattle.node_words.specs.descent.Roots.{HasBlock, IsOctantOf};
ghost use Rattle.measure.specs.Exposed.{across, stays};
ghost use Rattle.extract.specs.Sides.{AreNear, HasSides, beside_of, names_towards};

use crate::surrounded::Surrounded;
use measure::{across, stays};
use node_words::{Blocks, Name, octant_names, same_names};
use vw_cell::Direction;

/// What stands in the octants of a block, and in those of the blocks beside it.
#[derive(Drop)]
pub(crate) struct Nearby {
    block: [Option<Name>; 8],
    low_x: [Option<Name>; 8],
    high_x: [Option<Name>; 8],
    low_y: [Option<Name>; 8],
    high_y: [Option<Name>; 8],
    low_z: [Option<Name>; 8],
    high_z: [Option<Name>; 8],
}

impl Nearby {
    /// Each of the seven is looked at once at most.
    #[inline(always)]
    pub(crate) fn of<B: Blocks>(store: &mut B, level: u8, subject: &Surrounded) -> Nearby
        requires level { 1 ≤ level }
        requires block { HasSides (B.seen store.old).held level subject.now }
        ensures near { AreNear (B.seen store.old).held level subject.now result }
        ensures seen { B.seen store.new ≡ B.seen store.old }
        ensures rests { B.rests store.old store.new }
    {
        let block = octant_names(store, level, subject.block);
        let low_x = names_beside(store, level, subject.block, &block, subject.low_x);
        let high_x = names_beside(store, level, subject.block, &block, subject.high_x);
        let low_y = names_beside(store, level, subject.block, &block, subject.low_y);
        let high_y = names_beside(store, level, subject.block, &block, subject.high_y);
        let low_z = names_beside(store, level, subject.block, &block, subject.low_z);
        let high_z = names_beside(store, level, subject.block, &block, subject.high_z);
        Nearby {
            block,
            low_x,
            high_x,
            low_y,
            high_y,
            low_z,
            high_z,
        }
    }

    /// What stands in an octant, and beside it.
    #[inline(always)]
    pub(crate) fn octant(&self, octant: u8) -> Surrounded
        requires { octant < 8 }
        ensures block { result.block ≡ name_in self.now.block octant }
        ensures beside { (d : Direction) → beside_of result d
            ≡ name_in (if stays d octant then self.now.block else names_towards self.now d)
            (across d octant) }
    {
        let block = &self.block;
        Surrounded {
            block: block[usize::from(octant)],
            low_x: name_across(block, &self.low_x, Direction::LowX, octant),
            high_x: name_across(block, &self.high_x, Direction::HighX, octant),
            low_y: name_across(block, &self.low_y, Direction::LowY, octant),
            high_y: name_across(block, &self.high_y, Direction::HighY, octant),
            low_z: name_across(block, &self.low_z, Direction::LowZ, octant),
            high_z: name_across(block, &self.high_z, Direction::HighZ, octant),
        }
    }
}

// What stands in the octants of a block beside, as in the block's own where both are the same.
#[inline(always)]
fn names_beside<B: Blocks>(
    store: &mut B,
    level: u8,
    block: Option<Name>,
    names: &[Option<Name>; 8],
    beside: Option<Name>,
) -> [Option<Name>; 8]
    requires level { 1 ≤ level }
    requires names { (k : ℕ) → k < 8
        → IsOctantOf (B.seen store.old).held level block k (name_in names.now k) }
    requires beside { HasBlock (B.seen store.old).held level beside }
    ensures octants { (k : ℕ) → k < 8
        → IsOctantOf (B.seen store.old).held level beside k (name_in result k) }
    ensures seen { B.seen store.new ≡ B.seen store.old }
    ensures rests { B.rests store.old store.new }
{
    if same_names(block, beside) {
        return *names;
    }
    octant_names(store, level, beside)
}

// What stands beside an octant in one direction, in its block or in the one beside that.
#[inline(always)]
fn name_across(
    block: &[Option<Name>; 8],
    beside: &[Option<Name>; 8],
    direction: Direction,
    octant: u8,
) -> Option<Name>
    requires { octant < 8 }
    ensures { result
        ≡ name_in (if stays direction octant then block.now else beside.now)
        (across direction octant) }
{
    let i = usize::from(across(direction, octant));
    if stays(direction, octant) {
        block[i]
    } else {
        beside[i]
    }
}
