ghost use Rattle.std.specs.Prelude.{◌≡◌, ◌^◌, ◌≤◌, ℕ, option_copied};
ghost use Rattle.vw_cell.specs.Places.{FitsAt, IsInWorld, block_side};
ghost use Rattle.vw_cell.specs.Counts.{number_in};
ghost use Rattle.node_words.specs.descent.Roots.{HasBlock, ForBlock, HoldsRoot, ForWorld, cells_of};
ghost use Rattle.measure.specs.Subjects.{PassesSet};

use crate::tallies::{Part, Subject, tally};
use node_words::{
    Answers, Blocks, Name, Share, descend, leaf_bits, leaf_has, name_of, octant_bits, octant_name,
    same_names,
};
use vw_cell::{Boxed, Cell, Side};

/// Whether the cell of the root's world is set.
pub fn get<B: Blocks>(store: &mut B, root: Option<&Share>, side: Side, c: Cell) -> bool
    requires root { HoldsRoot (B.seen store.old).held side (option_copied root) }
    requires cell { IsInWorld (2 ^ side) c }
    ensures value { ForWorld (B.seen store.old).held side (option_copied root.entry)
        (λ cells. result ≡ cells c) }
    ensures seen { B.seen store.new ≡ B.seen store.old }
    ensures rests { B.rests store.old store.new }
{
    is_set_in(store, side.root_level(), name_of(root), c)
}

// Whether the cell of the block is set.
fn is_set_in<B: Blocks>(store: &mut B, level: u8, block: Option<Name>, c: Cell) -> bool
    requires level { level ≤ 10 }
    requires block { HasBlock (B.seen store.old).held level block }
    requires cell { IsInWorld (block_side level) c }
    ensures value { ForBlock (B.seen store.old).held level block
        (λ s. result ≡ cells_of level s c) }
    ensures seen { B.seen store.new ≡ B.seen store.old }
    ensures rests { B.rests store.old store.new }
{
    let at = descend(store, level, block, c);
    if at.block.is_none() {
        return false;
    }
    let bits = leaf_bits(store, at.block);
    leaf_has(bits, at.inner)
}

/// The number of set cells of a box of the root's world.
pub fn count<B: Blocks>(store: &mut B, root: Option<&Share>, side: Side, b: Boxed) -> u64
    requires root { HoldsRoot (B.seen store.old).held side (option_copied root) }
    requires inside { FitsAt b.at b.size (2 ^ side) }
    ensures number { ForWorld (B.seen store.old).held side (option_copied root.entry)
        (λ cells. result ≡ number_in b cells) }
    ensures seen { B.seen store.new ≡ B.seen store.old }
    ensures rests { B.rests store.old store.new }
{
    let mut answers = Answers::new();
    let mut wholes = Answers::new();
    let subject = SetCells {
        block: name_of(root),
    };
    let level = side.root_level();
    let of = Part {
        subject,
        level,
        part: b,
    };
    tally(store, &mut answers, &mut wholes, &of)
}

/// The set cells of what stands in a block.
#[derive(Clone, Copy)]
pub struct SetCells {
    pub block: Option<Name>,
}

impl Subject for SetCells {
    ghost counts = { λ held level s test. PassesSet held level s.block test };

    fn is_nothing(&self) -> bool {
        self.block.is_none()
    }

    fn leaf<B: Blocks>(&self, store: &mut B) -> u64 {
        leaf_bits(store, self.block)
    }

    fn leaves<B: Blocks>(&self, store: &mut B) -> [u64; 8] {
        octant_bits(store, self.block)
    }

    fn octant<B: Blocks>(&self, store: &mut B, level: u8, octant: u8) -> SetCells {
        SetCells {
            block: octant_name(store, level, self.block, octant),
        }
    }

    fn is_same(&self, other: &SetCells) -> bool {
        same_names(self.block, other.block)
    }

    fn mark(&self) -> usize {
        name_mark(self.block)
    }

    fn is_even(&self) -> bool {
        false
    }

    fn is_memo_worthy(&self) -> bool {
        false
    }
}

/// A number that differs where names do, more often than not.
pub(crate) fn name_mark(block: Option<Name>) -> usize
    ensures { result < 2 ^ 24 }
{
    match block {
        Some(n) => { usize::from(n.bucket) + 61 * usize::from(n.slot) + 17 * usize::from(n.level) }
        None => 0,
    }
}

ghost use Rattle.std.specs.Prelude.{◌<◌};
