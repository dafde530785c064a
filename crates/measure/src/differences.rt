ghost use Rattle.std.specs.Prelude.{◌≡◌, ◌^◌, ◌≤◌, ℕ, IsTrue, option_copied, List, Bool};
ghost use Rattle.vw_cell.specs.declared.cells.Cell.{Cell};
ghost use Rattle.vw_cell.specs.Places.{block_side};
ghost use Rattle.vw_cell.specs.Extents.{IsExtent};
ghost use Rattle.node_words.specs.shapes.Tree.{Tree};
ghost use Rattle.node_words.specs.descent.Roots.{HasBlock, HoldsRoot, ForBlock, ForWorld, cells_of};
ghost use Rattle.measure.specs.Changes.{differs, AreNamed, passes_changed};

use crate::counts::name_mark;
use crate::extents::{bounds_in, widen};
use crate::tallies::Subject;
use node_words::{Answers, Blocks, Name, Share, leaf_bits, name_of, octant_name, same_names};
use vw_cell::{Block, Boxed, Cell, Side};

/// The least box of all cells that differ between the worlds of two roots. `None` exactly where no
/// cell differs.
pub fn changes<B: Blocks>(
    store: &mut B,
    before: Option<&Share>,
    after: Option<&Share>,
    side: Side,
) -> Option<Boxed>
    requires before { HoldsRoot (B.seen store.old).held side (option_copied before) }
    requires after { HoldsRoot (B.seen store.old).held side (option_copied after) }
    ensures extent { ForWorld (B.seen store.old).held side (option_copied before.entry)
        (λ old. ForWorld (B.seen store.old).held side (option_copied after.entry)
        (λ new. IsExtent (2 ^ side) (differs old new) result)) }
    ensures seen { B.seen store.new ≡ B.seen store.old }
    ensures rests { B.rests store.old store.new }
{
    changes_in(store, side.root_level(), name_of(before), name_of(after))
}

/// The least box of all cells that differ between what stands in a block before and after, told
/// from the block's corner. `None` exactly where no cell differs.
pub fn changes_in<B: Blocks>(
    store: &mut B,
    level: u8,
    before: Option<Name>,
    after: Option<Name>,
) -> Option<Boxed>
    requires level { level ≤ 10 }
    requires before { HasBlock (B.seen store.old).held level before }
    requires after { HasBlock (B.seen store.old).held level after }
    ensures extent { ForBlock (B.seen store.old).held level before
        (λ s. ForBlock (B.seen store.old).held level after
        (λ u. IsExtent (block_side level) (differs (cells_of level s) (cells_of level u)) result)) }
    ensures seen { B.seen store.new ≡ B.seen store.old }
    ensures rests { B.rests store.old store.new }
{
    if !is_there(store, level, before) {
        return bounds_in(store, level, after);
    }
    let mut answers = Answers::new();
    let at = Cell { x: 0, y: 0, z: 0 };
    let place = Block { level, at };
    let subject = Changed { before, after };
    let mut found = None;
    widen(store, &mut answers, subject, place, 0, &mut found);
    found
}

// Whether something stands in the block. Where it does, a node is read, by which it is known that
// each name has one tree.
fn is_there<B: Blocks>(store: &mut B, level: u8, block: Option<Name>) -> bool
    requires block { HasBlock (B.seen store.old).held level block }
    ensures none { IsFalse result → block ≡ None }
    ensures named { IsTrue result → AreNamed (B.seen store.old).held }
    ensures seen { B.seen store.new ≡ B.seen store.old }
    ensures rests { B.rests store.old store.new }
{
    match block {
        Some(name) => {
            if level == 0 {
                let _bits = store.bits_at(name);
                return true;
            }
            let _child = store.child_at(name, 0);
            true
        }
        None => false,
    }
}

ghost use Rattle.std.specs.Prelude.{IsFalse, None};

/// What stands in a block before and after. The cells that differ count.
#[derive(Clone, Copy)]
pub(crate) struct Changed {
    before: Option<Name>,
    after: Option<Name>,
}

impl Subject for Changed {
    ghost counts = { passes_changed };

    fn is_nothing(&self) -> bool {
        same_names(self.before, self.after)
    }

    fn leaf<B: Blocks>(&self, store: &mut B) -> u64 {
        let old = leaf_bits(store, self.before);
        let new = leaf_bits(store, self.after);
        old ^ new
    }

    fn octant<B: Blocks>(&self, store: &mut B, level: u8, octant: u8) -> Changed {
        let before = octant_name(store, level, self.before, octant);
        let after = octant_name(store, level, self.after, octant);
        Changed { before, after }
    }

    fn is_same(&self, other: &Changed) -> bool {
        same_names(self.before, other.before) && same_names(self.after, other.after)
    }

    fn mark(&self) -> usize {
        name_mark(self.before) + 3 * name_mark(self.after)
    }

    fn is_even(&self) -> bool {
        false
    }

    fn is_memo_worthy(&self) -> bool {
        true
    }
}
