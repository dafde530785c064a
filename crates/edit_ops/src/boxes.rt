ghost use Rattle.std.specs.Prelude.{◌≡◌, ◌+◌, ◌-◌, ◌*◌, ◌^◌, ◌<◌, ◌≤◌, ℕ, IsTrue};

use edit_walk::{Repeats, Task, Whole, clears_nothing, filled, old_whole, paint};
use node_words::{Blocks, Name, box_bits, half_side, leaf_bits, part_of, same_boxes, same_names};
use vw_cell::{Block, Boxed, Cell};

/// Sets or clears the cells of a box in one block. The box is told by its places in the block.
#[derive(Clone, Copy, Debug, PartialEq, Eq)]
pub struct BoxTask {
    pub old: Option<Name>,
    pub part: Boxed,
    pub set: bool,
}

const ORIGIN: Cell = Cell { x: 0, y: 0, z: 0 };

impl Task for BoxTask {
    ghost use Rattle.std.specs.Prelude.{◌-◌};
    ghost use Rattle.vw_cell.specs.Places.{block_side};
    ghost use Rattle.node_words.specs.descent.Parts.{part_in};
    ghost use Rattle.edit_ops.specs.Boxes.{MakesBox, box_lasts, parts_met};

    ghost makes = { MakesBox };

    ghost lasts = { box_lasts };

    ghost mixed = { λ level t. parts_met level t.part };

    ghost mixed_in = { λ level t k. parts_met (level - 1)
        (part_in (block_side (level - 1)) t.part k) };

    ghost was = { λ t. t.old };

    fn old(&self) -> Option<Name> {
        self.old
    }

    #[inline(always)]
    fn octant<B: Blocks>(
        &self,
        _store: &mut B,
        level: u8,
        octant: u8,
        old: Option<Name>,
    ) -> BoxTask {
        let half = half_side(level);
        let part = part_of(half, self.part, octant);
        BoxTask {
            old,
            part,
            set: self.set,
        }
    }

    fn whole(&self, level: u8) -> Whole {
        let block = Block { level, at: ORIGIN };
        if !self.part.meets(block) {
            return old_whole(self.old);
        }
        if self.part.holds_block(block) {
            return filled(self.set);
        }
        if clears_nothing(self.set, self.old) {
            return Whole::Nothing;
        }
        Whole::Mixed
    }

    fn bits<B: Blocks>(&self, store: &mut B) -> u64 {
        let old = leaf_bits(store, self.old);
        let inside = box_bits(
            self.part,
            Block {
                level: 0,
                at: ORIGIN,
            },
        );
        paint(self.set, old, inside)
    }
}

impl Repeats for BoxTask {
    fn is_same(&self, other: &BoxTask) -> bool {
        same_tasks(self, other)
    }

    fn place(&self, level: u8) -> usize {
        place_of(level, self)
    }
}

fn same_tasks(a: &BoxTask, b: &BoxTask) -> bool
    ensures { IsTrue result
        → (a.now.old ≡ b.now.old) × (a.now.part ≡ b.now.part) × (a.now.set ≡ b.now.set) }
{
    if !same_names(a.old, b.old) {
        return false;
    }
    if !same_boxes(a.part, b.part) {
        return false;
    }
    a.set == b.set
}

// Nearly all tasks of one walk differ in these numbers.
fn place_of(level: u8, task: &BoxTask) -> usize
    ensures { result < 2048 }
{
    let old = match task.old {
        Some(name) => number_of(name),
        None => 0,
    };
    let at = word_of(task.part.at) + u64::from(level);
    let size = word_of(task.part.size);
    let mixed = old
        .wrapping_mul(0x9E37_79B9_7F4A_7C15)
        .wrapping_add(at.wrapping_mul(0xBF58_476D_1CE4_E5B9))
        .wrapping_add(size.wrapping_mul(0x94D0_49BB_1331_11EB));
    (mixed >> 53) as usize % 2048
}

fn number_of(name: Name) -> u64 {
    1 + u64::from(name.bucket) * 256 + u64::from(name.slot)
}

pub(crate) fn word_of(c: Cell) -> u64
    ensures { result < 2 ^ 48 }
{
    u64::from(c.x) + 0x1_0000 * u64::from(c.y) + 0x1_0000_0000 * u64::from(c.z)
}
