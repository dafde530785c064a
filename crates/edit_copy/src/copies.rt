ghost use Rattle.std.specs.Prelude.{◌≡◌, ◌+◌, ◌-◌, ◌*◌, ◌^◌, ◌<◌, ◌≤◌, ℕ, IsTrue, bit_and, bit_or};
ghost use Rattle.std.specs.Int.{bit_not, w64};

use crate::sources::{Step, are_none, leaves_in, same_sources, sources_in, step_to};
use edit_walk::{Repeats, Task, Whole, old_whole};
use node_words::{
    Blocks, Name, box_bits, half_side, leaf_bits, part_of, same_boxes, same_cells, same_names,
    window_bits,
};
use vw_cell::{Block, Boxed, Cell};

/// Copies into one block. The cells of a box, told by their places in the block, are taken from a
/// cube of eight blocks of the block's size, from an offset on.
#[derive(Clone, Copy, Debug)]
pub struct CopyTask {
    pub(crate) old: Option<Name>,
    pub(crate) sources: [Option<Name>; 8],
    pub(crate) offset: Cell,
    pub(crate) part: Boxed,
}

pub(crate) const ORIGIN: Cell = Cell { x: 0, y: 0, z: 0 };

impl Task for CopyTask {
    ghost use Rattle.std.specs.Prelude.{◌-◌};
    ghost use Rattle.edit_walk.specs.cells.Tasks.{blocks_in};
    ghost use Rattle.edit_copy.specs.Copies.{MakesCopy, copy_lasts};

    ghost makes = { MakesCopy };

    ghost lasts = { copy_lasts };

    ghost mixed = { λ level t. blocks_in level };

    ghost mixed_in = { λ level t k. blocks_in (level - 1) };

    ghost was = { λ t. t.old };

    fn old(&self) -> Option<Name> {
        self.old
    }

    #[inline(always)]
    fn octant<B: Blocks>(
        &self,
        store: &mut B,
        level: u8,
        octant: u8,
        old: Option<Name>,
    ) -> CopyTask {
        let half = half_side(level);
        let part = part_of(half, self.part, octant);
        let old = kept_old(level - 1, old, part);
        let step = step_to(self.offset, level - 1, octant);
        let sources = taken_in(store, level, &self.sources, step, part);
        CopyTask {
            old,
            sources,
            offset: step.rest,
            part,
        }
    }

    fn whole(&self, level: u8) -> Whole {
        let block = Block { level, at: ORIGIN };
        if is_empty(self.part) {
            return old_whole(self.old);
        }
        if self.part.holds_block(block) {
            if same_cells(self.offset, ORIGIN) {
                return old_whole(self.sources[0]);
            }
            if are_none(&self.sources) {
                return Whole::Nothing;
            }
        }
        Whole::Mixed
    }

    fn bits<B: Blocks>(&self, store: &mut B) -> u64 {
        let old = leaf_bits(store, self.old);
        let leaves = leaves_in(store, &self.sources);
        let moved = window_bits(
            &leaves,
            self.offset.x as u8,
            self.offset.y as u8,
            self.offset.z as u8,
        );
        let inside = box_bits(
            self.part,
            Block {
                level: 0,
                at: ORIGIN,
            },
        );
        mix(old, moved, inside)
    }
}

// Copied blocks are often alike, also in small boxes: the cells of a ball's inside are.
impl Repeats for CopyTask {
    fn is_same(&self, other: &CopyTask) -> bool {
        if !same_names(self.old, other.old) {
            return false;
        }
        if !same_cells(self.offset, other.offset) {
            return false;
        }
        if !same_boxes(self.part, other.part) {
            return false;
        }
        same_sources(&self.sources, &other.sources)
    }

    fn place(&self, level: u8) -> usize {
        place_of(level, self)
    }
}

// What stands in an octant of this level now, where the copy leaves cells of it: none where the box
// holds the whole octant.
fn kept_old(level: u8, below: Option<Name>, part: Boxed) -> Option<Name>
    requires { level ≤ 10 }
    ensures { IsKeptOld level below part result }
{
    let block = Block { level, at: ORIGIN };
    if part.holds_block(block) {
        return None;
    }
    below
}

ghost use Rattle.edit_copy.specs.Copies.{IsKeptOld};

// Whether no cell is in the box.
#[inline(always)]
fn is_empty(part: Boxed) -> bool
    ensures { IsTrue result → IsEmpty part }
{
    part.size.x == 0 || part.size.y == 0 || part.size.z == 0
}

// The sources of an octant, of which this part is taken: none are read where it has no cell, which
// is so in most octants of a small box.
#[inline(always)]
fn taken_in<B: Blocks>(
    store: &mut B,
    level: u8,
    sources: &[Option<Name>; 8],
    step: Step,
    part: Boxed,
) -> [Option<Name>; 8]
    requires level { 1 ≤ level }
    requires at { IsBegin step.at }
    requires sources { HoldsBlocks (B.seen store.old).held level sources.now }
    ensures sources { ForBlocks (B.seen store.old).held level sources.now
        (λ row. AreTaken (B.seen store.old).held (level - 1) row step.at step.rest part result) }
    ensures seen { B.seen store.new ≡ B.seen store.old }
    ensures rests { B.rests store.old store.new }
{
    if is_empty(part) {
        return [None; 8];
    }
    sources_in(store, level, sources, step.at, step.rest)
}

ghost use Rattle.edit_copy.specs.Copies.{AreTaken, ForBlocks, HoldsBlocks, IsBegin, IsEmpty};

// The bits that moved where those inside are set, and the old ones elsewhere.
fn mix(old: u64, moved: u64, inside: u64) -> u64
    ensures { result ≡ bit_or (bit_and old (bit_not w64 inside)) (bit_and moved inside) }
{
    old & !inside | moved & inside
}

// Nearly all tasks of one walk differ in these numbers.
fn place_of(level: u8, task: &CopyTask) -> usize
    ensures { result < 2048 }
{
    let part = word_of(task.part.at)
        .wrapping_mul(0x9E37_79B9_7F4A_7C15)
        .wrapping_add(word_of(task.part.size).wrapping_mul(0xBF58_476D_1CE4_E5B9));
    let offset = word_of(task.offset) + u64::from(level);
    let blocks = number_of(task.old) + mark_of(&task.sources);
    let mixed = part
        .wrapping_add(offset.wrapping_mul(0x94D0_49BB_1331_11EB))
        .wrapping_add(blocks.wrapping_mul(0xD6E8_FEB8_6659_FD93));
    (mixed >> 53) as usize % 2048
}

fn mark_of(sources: &[Option<Name>; 8]) -> u64
    ensures { result < 2 ^ 34 }
{
    let near = 3 * number_of(sources[0])
        + 5 * number_of(sources[1])
        + 7 * number_of(sources[2])
        + 11 * number_of(sources[3]);
    let far = 13 * number_of(sources[4])
        + 17 * number_of(sources[5])
        + 19 * number_of(sources[6])
        + 23 * number_of(sources[7]);
    near + far
}

fn number_of(block: Option<Name>) -> u64
    ensures { result < 2 ^ 25 }
{
    match block {
        Some(name) => number_in(name),
        None => 0,
    }
}

fn number_in(name: Name) -> u64
    ensures { result < 2 ^ 25 }
{
    1 + u64::from(name.bucket) * 256 + u64::from(name.slot)
}

fn word_of(c: Cell) -> u64
    ensures { result < 2 ^ 48 }
{
    u64::from(c.x) + 0x1_0000 * u64::from(c.y) + 0x1_0000_0000 * u64::from(c.z)
}
