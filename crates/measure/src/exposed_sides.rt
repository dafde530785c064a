ghost use Rattle.std.specs.Prelude.{◌≡◌, ◌^◌, ◌<◌, ◌≤◌, ℕ, IsTrue, Bool, List, option_copied, if◌then◌else◌};
ghost use Rattle.vw_cell.specs.declared.cells.Cell.{Cell};
ghost use Rattle.vw_cell.specs.Places.{FitsAt, block_side};
ghost use Rattle.vw_cell.specs.Counts.{number_in};
ghost use Rattle.node_words.specs.shapes.Shape.{Shape, bits_of};
ghost use Rattle.node_words.specs.shapes.Tree.{Tree};
ghost use Rattle.vw_cell.specs.Faces.{faces_in, is_exposed};
ghost use Rattle.node_words.specs.descent.Roots.{HasBlock, HoldsRoot, ForBlock, ForWorld, cells_of};
ghost use Rattle.node_words.specs.descent.Parts.{EndsBy};
ghost use Rattle.node_words.specs.descent.Answers.{AreRight};
ghost use Rattle.measure.specs.Leaves.{BitsPassTest};
ghost use Rattle.measure.specs.Tallies.{IsTally, IsWholeTally};
ghost use Rattle.measure.specs.Exposed.{PassesExposed, across, stays, is_next_set, exposed_of};

use crate::counts::name_mark;
use crate::tallies::{Part, Subject, tally};
use crate::wholes::WholeBlock;
use node_words::{
    Answers, Blocks, Name, Share, leaf_bits, name_of, octant_name, same_names, window_bits,
};
use vw_cell::{Boxed, Direction, Side};

/// The number of pairs of a set cell of a box of the root's world and one of its six sides, at
/// which the place next to it is unset or outside of the world. A side that two set cells share
/// counts for neither.
pub fn faces<B: Blocks>(store: &mut B, root: Option<&Share>, side: Side, b: Boxed) -> u64
    requires root { HoldsRoot (B.seen store.old).held side (option_copied root) }
    requires inside { FitsAt b.at b.size (2 ^ side) }
    ensures number { ForWorld (B.seen store.old).held side (option_copied root.entry)
        (λ cells. result ≡ faces_in (2 ^ side) cells b) }
    ensures seen { B.seen store.new ≡ B.seen store.old }
    ensures rests { B.rests store.old store.new }
{
    faces_in_block(store, side.root_level(), name_of(root), b)
}

// Numbers of exposed cells that were found earlier, of parts of blocks and of whole ones.
#[derive(Drop)]
struct ExposedCounts {
    parts: Answers<Part<ExposedSides>>,
    wholes: Answers<WholeBlock<ExposedSides>>,
}

// The same, of the block of a world.
fn faces_in_block<B: Blocks>(store: &mut B, level: u8, block: Option<Name>, b: Boxed) -> u64
    requires level { level ≤ 10 }
    requires block { HasBlock (B.seen store.old).held level block }
    requires part { EndsBy (block_side level) b }
    ensures number { ForBlock (B.seen store.old).held level block
        (λ s. result ≡ faces_in (block_side level) (cells_of level s) b) }
    ensures seen { B.seen store.new ≡ B.seen store.old }
    ensures rests { B.rests store.old store.new }
{
    let mut known = ExposedCounts {
        parts: Answers::new(),
        wholes: Answers::new(),
    };
    let low_x = exposed_towards(store, &mut known, Direction::LowX, level, block, b);
    let high_x = exposed_towards(store, &mut known, Direction::HighX, level, block, b);
    let low_y = exposed_towards(store, &mut known, Direction::LowY, level, block, b);
    let high_y = exposed_towards(store, &mut known, Direction::HighY, level, block, b);
    let low_z = exposed_towards(store, &mut known, Direction::LowZ, level, block, b);
    let high_z = exposed_towards(store, &mut known, Direction::HighZ, level, block, b);
    low_x + high_x + low_y + high_y + low_z + high_z
}

// The number of cells of a part of a world's block that are exposed towards one direction.
fn exposed_towards<B: Blocks>(
    store: &mut B,
    known: &mut ExposedCounts,
    direction: Direction,
    level: u8,
    block: Option<Name>,
    part: Boxed,
) -> u64
    requires level { level ≤ 10 }
    requires block { HasBlock (B.seen store.old).held level block }
    requires part { EndsBy (block_side level) part }
    requires parts { AreRight (IsTally passes_exposed)
        (B.seen store.old).held known.old.parts.places }
    requires wholes { AreRight
        (IsWholeTally passes_exposed) (B.seen store.old).held known.old.wholes.places }
    ensures number { ForBlock (B.seen store.old).held level block
        (λ s. result
        ≡ number_in part (is_exposed direction (block_side level) (cells_of level s))) }
    ensures bound { result ≤ 2 ^ 36 }
    ensures block { HasBlock (B.seen store.new).held level block }
    ensures parts { AreRight (IsTally passes_exposed)
        (B.seen store.old).held known.new.parts.places }
    ensures wholes { AreRight
        (IsWholeTally passes_exposed) (B.seen store.old).held known.new.wholes.places }
    ensures seen { B.seen store.new ≡ B.seen store.old }
    ensures rests { B.rests store.old store.new }
{
    let subject = ExposedSides {
        direction,
        block,
        beside: None,
    };
    let of = Part {
        subject,
        level,
        part,
    };
    tally(store, &mut known.parts, &mut known.wholes, &of)
}

ghost use Rattle.measure.specs.Faces.{passes_exposed};

/// The cells of a block that are exposed towards one direction, by what stands in the block and in
/// the one beside it.
#[derive(Clone, Copy)]
pub struct ExposedSides {
    pub direction: Direction,
    pub block: Option<Name>,
    pub beside: Option<Name>,
}

impl Subject for ExposedSides {
    ghost counts = { passes_exposed };

    fn is_nothing(&self) -> bool {
        self.block.is_none()
    }

    #[inline(always)]
    fn leaf<B: Blocks>(&self, store: &mut B) -> u64 {
        let bits = leaf_bits(store, self.block);
        let beside = leaf_bits(store, self.beside);
        bits & !next_bits(self.direction, bits, beside)
    }

    fn octant<B: Blocks>(&self, store: &mut B, level: u8, octant: u8) -> ExposedSides {
        let direction = self.direction;
        let block = octant_name(store, level, self.block, octant);
        let from = either(stays(direction, octant), self.block, self.beside);
        let beside = octant_name(store, level, from, across(direction, octant));
        ExposedSides {
            direction,
            block,
            beside,
        }
    }

    fn is_same(&self, other: &ExposedSides) -> bool {
        same_directions(self.direction, other.direction)
            && same_names(self.block, other.block)
            && same_names(self.beside, other.beside)
    }

    fn mark(&self) -> usize {
        name_mark(self.block) + 3 * name_mark(self.beside) + direction_mark(self.direction)
    }

    fn is_even(&self) -> bool {
        same_names(self.block, self.beside)
    }

    fn is_memo_worthy(&self) -> bool {
        true
    }
}

fn same_directions(a: Direction, b: Direction) -> bool
    ensures { IsTrue result → a ≡ b }
{
    match (a, b) {
        (Direction::LowX, Direction::LowX) => true,
        (Direction::HighX, Direction::HighX) => true,
        (Direction::LowY, Direction::LowY) => true,
        (Direction::HighY, Direction::HighY) => true,
        (Direction::LowZ, Direction::LowZ) => true,
        (Direction::HighZ, Direction::HighZ) => true,
        _ => false,
    }
}

fn direction_mark(direction: Direction) -> usize
    ensures { result < 256 }
{
    match direction {
        Direction::LowX => 0,
        Direction::HighX => 41,
        Direction::LowY => 83,
        Direction::HighY => 127,
        Direction::LowZ => 168,
        Direction::HighZ => 211,
    }
}

fn either(first: bool, a: Option<Name>, b: Option<Name>) -> Option<Name>
    ensures { result ≡ (if first then a else b) }
{
    if first { a } else { b }
}

/// The octant that has the places next to an octant's further side, in its block or in the one
/// beside.
#[inline(always)]
pub fn across(direction: Direction, octant: u8) -> u8
    requires { octant < 8 }
    ensures octant { result ≡ across direction octant }
    ensures below { result < 8 }
{
    match direction {
        Direction::LowX | Direction::HighX => other_half(octant % 2, 1, octant),
        Direction::LowY | Direction::HighY => other_half(octant / 2 % 2, 2, octant),
        Direction::LowZ | Direction::HighZ => other_half(octant / 4 % 2, 4, octant),
    }
}

/// Whether that octant is one of the same block.
#[inline(always)]
pub fn stays(direction: Direction, octant: u8) -> bool
    ensures { result ≡ stays direction octant }
{
    match direction {
        Direction::LowX => octant % 2 != 0,
        Direction::HighX => octant % 2 == 0,
        Direction::LowY => octant / 2 % 2 != 0,
        Direction::HighY => octant / 2 % 2 == 0,
        Direction::LowZ => octant / 4 % 2 != 0,
        Direction::HighZ => octant / 4 % 2 == 0,
    }
}

/// Which cells of a leaf have a set cell next to them in this direction.
#[inline(always)]
pub fn next_bits(direction: Direction, bits: u64, beside: u64) -> u64
    ensures next { (s u : Shape) → bits ≡ bits_of s → beside ≡ bits_of u
        → BitsPassTest result (is_next_set direction 0 s u) }
    ensures bound { result < 2 ^ 64 }
{
    match direction {
        Direction::LowX => window_bits(&[beside, bits, 0, 0, 0, 0, 0, 0], 3, 0, 0),
        Direction::HighX => window_bits(&[bits, beside, 0, 0, 0, 0, 0, 0], 1, 0, 0),
        Direction::LowY => window_bits(&[beside, 0, bits, 0, 0, 0, 0, 0], 0, 3, 0),
        Direction::HighY => window_bits(&[bits, 0, beside, 0, 0, 0, 0, 0], 0, 1, 0),
        Direction::LowZ => window_bits(&[beside, 0, 0, 0, bits, 0, 0, 0], 0, 0, 3),
        Direction::HighZ => window_bits(&[bits, 0, 0, 0, beside, 0, 0, 0], 0, 0, 1),
    }
}

// The octant in the other half, for an octant of this half, where the halves' octants are `step`
// apart.
#[inline(always)]
fn other_half(half: u8, step: u8, octant: u8) -> u8
    requires half { half < 2 }
    requires step { step ≤ 4 }
    requires octant { octant < 8 }
    requires within { half ≡ 1 → step ≤ octant }
    ensures { result ≡ other_half half step octant }
{
    if half == 0 {
        octant + step
    } else {
        octant - step
    }
}

ghost use Rattle.measure.specs.Exposed.{other_half};
