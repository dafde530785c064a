ghost use Rattle.std.specs.Prelude.{◌≡◌, ◌+◌, ◌-◌, ◌*◌, ◌^◌, ◌<◌, ◌≤◌, ◌==◌, ℕ, List, IsTrue, option_copied, if◌then◌else◌};
ghost use Rattle.std.specs.Int.{bit_at};
ghost use Rattle.vw_cell.specs.Places.{FitsAt, HoldsBlock};
ghost use Rattle.node_words.specs.shapes.Tree.{Tree};
ghost use Rattle.node_words.specs.shapes.Weights.{number_of_trees};
ghost use Rattle.node_words.specs.descent.Roots.{HoldsRoot};
ghost use Rattle.node_words.specs.contents.CellShapes.{Cells, SameIn, no_cells, all_cells};
ghost use Rattle.edit_walk.specs.cells.Tasks.{IsWhole};
ghost use Rattle.edit_stamp.specs.declared.stencils.StencilCover.{StencilCover};
ghost use Rattle.history_model.specs.Worlds.{box_at};
ghost use Rattle.edit_walk.specs.Edits.{MayEdit, Edits};
ghost use Rattle.colour.specs.Inks.{ink_at};
ghost use Rattle.colour.specs.Stamps.{ink_cells, makes_ink};
ghost use Rattle.colour.specs.Walks.{all_planes, ink_edit};

use crate::memos::Recent;
use crate::planes::quarter;
use crate::stencils::TintStencil;
use crate::walks::{Planes, rebuild_planes};
use edit_stamp::StencilCover;
use edit_walk::{Latest, Repeats, Task, Whole, old_whole};
use node_words::{Blocks, Full, Name, NodeStore, Share, Steps, leaf_bits, same_cells, same_names};
use std::sync::ledger::Ledger;
use vw_cell::{Block, Boxed, Cell, Side};

/// Puts the tints of a model, whose least corner is at `place`, into the block at `at` of a plane.
/// A cell that has ink shows what its tint tells there, set or not, and each other one stays.
#[derive(Clone, Copy)]
pub(crate) struct InkTask<'s> {
    old: Option<Name>,
    stencil: &'s TintStencil,
    place: &'s Cell,
    at: Cell,
    plane: u8,
    level: u8,
}

impl<'s> Task for InkTask<'s> {
    ghost use Rattle.std.specs.Prelude.{◌-◌};
    ghost use Rattle.edit_walk.specs.cells.Tasks.{blocks_in};
    ghost use Rattle.colour.specs.Stamps.{makes_ink, ink_lasts};

    ghost makes = { makes_ink };

    ghost lasts = { ink_lasts };

    ghost mixed = { λ level t. blocks_in level };

    ghost mixed_in = { λ level t k. blocks_in (level - 1) };

    ghost was = { λ t. t.old };

    fn old(&self) -> Option<Name> {
        self.old
    }

    #[inline(always)]
    fn octant<B: Blocks>(
        &self,
        _store: &mut B,
        level: u8,
        octant: u8,
        old: Option<Name>,
    ) -> InkTask<'s> {
        let block = Block { level, at: self.at };
        let part = block.child(octant);
        InkTask {
            old,
            stencil: self.stencil,
            place: self.place,
            at: part.at,
            plane: self.plane,
            level: level - 1,
        }
    }

    fn whole(&self, level: u8) -> Whole {
        if self.is_missed(level) {
            return old_whole(self.old);
        }
        match self.told(level, self.plane) {
            StencilCover::Unset => self.cleared(level),
            StencilCover::Set => Whole::All,
            StencilCover::Either => Whole::Mixed,
        }
    }

    fn bits<B: Blocks>(&self, store: &mut B) -> u64 {
        let old = leaf_bits(store, self.old);
        let block = Block {
            level: 0,
            at: self.at,
        };
        let drawn = self.stencil.plane(self.plane);
        let told = drawn.leaf_bits(*self.place, block);
        if old == 0 {
            return told;
        }
        let cells = self.stencil.plane(0);
        let ink = cells.leaf_bits(*self.place, block);
        inked_bits(old, ink, told)
    }
}

impl<'s> InkTask<'s> {
    // Whether the model has no place in the block.
    #[inline(always)]
    fn is_missed(&self, level: u8) -> bool
        requires { level ≤ 10 }
        ensures { IsTrue result → SameIn level
            (ink_cells self.now.stencil.now self.now.place.now 0 self.now.at) no_cells }
    {
        let place = Boxed {
            at: *self.place,
            size: self.stencil.size(),
        };
        let block = Block { level, at: self.at };
        !place.meets(block)
    }

    // What ink tells in a plane of the block.
    #[inline(always)]
    fn told(&self, level: u8, plane: u8) -> StencilCover
        requires level { level ≤ 10 }
        requires plane { plane < 9 }
        ensures unset { result ≡ StencilCover.Unset → SameIn level
            (ink_cells self.now.stencil.now self.now.place.now plane self.now.at) no_cells }
        ensures set { result ≡ StencilCover.Set → SameIn level
            (ink_cells self.now.stencil.now self.now.place.now plane self.now.at) all_cells }
    {
        let drawn = self.stencil.plane(plane);
        match drawn.coverage(*self.place, self.at, level) {
            StencilCover::Unset => StencilCover::Unset,
            StencilCover::Set if self.holds(level) => StencilCover::Set,
            _ => StencilCover::Either,
        }
    }

    // Whether the model has a place in each cell of the block.
    fn holds(&self, level: u8) -> bool
        requires level { level ≤ 10 }
        ensures { IsTrue result → HoldsBlock (box_at self.now.place.now self.now.stencil.now.size)
            (record { level = level; at = self.now.at }) }
    {
        let place = Boxed {
            at: *self.place,
            size: self.stencil.size(),
        };
        place.holds_block(Block { level, at: self.at })
    }

    // What is known of the block where no ink tells in the plane.
    fn cleared(&self, level: u8) -> Whole
        requires level { level ≤ 10 }
        requires unset { SameIn level
            (ink_cells self.now.stencil.now self.now.place.now self.now.plane self.now.at)
            no_cells }
        ensures { (base : List Tree) (cells : Cells) → makes_ink self.now base level cells
            → IsWhole base level cells result }
    {
        if self.old.is_none() {
            return Whole::Nothing;
        }
        match self.told(level, 0) {
            StencilCover::Unset => old_whole(self.old),
            StencilCover::Set => Whole::Nothing,
            StencilCover::Either => Whole::Mixed,
        }
    }
}

// The bits that ink tells where there is ink, and the old ones elsewhere.
#[tactic(auto, using(crate::proofs::StampBlocks::pick_bits))]
fn inked_bits(old: u64, ink: u64, told: u64) -> u64
    ensures { (b : ℕ) → b < 64 → (bit_at result b == 1)
        ≡ (if bit_at ink b == 1 then bit_at told b == 1 else bit_at old b == 1) }
{
    told & ink | old & !ink
}

impl<'s> Repeats for InkTask<'s> {
    fn is_same(&self, other: &InkTask<'s>) -> bool {
        if !same_blocks(self, other) {
            return false;
        }
        if !same_coverage(self, other) {
            return false;
        }
        // Where nothing was, what the ink tells is all that is set.
        if self.old.is_none() {
            return true;
        }
        same_ink(self, other)
    }

    fn place(&self, level: u8) -> usize {
        place_of(level, self.at)
    }
}

// Whether both are of one old block at one place.
fn same_blocks<'s>(a: &InkTask<'s>, b: &InkTask<'s>) -> bool
    ensures { IsTrue result
        → (a.now.level ≡ b.now.level) × (a.now.old ≡ b.now.old) × (a.now.at ≡ b.now.at)
        × (a.now.place.now ≡ b.now.place.now) }
{
    if a.level != b.level {
        return false;
    }
    if !same_names(a.old, b.old) {
        return false;
    }
    if !same_cells(a.at, b.at) {
        return false;
    }
    same_cells(*a.place, *b.place)
}

// Whether the ink of both tells the same in the block. It may miss that.
fn same_coverage<'s>(a: &InkTask<'s>, b: &InkTask<'s>) -> bool
    ensures { IsTrue result → SameIn a.now.level
        (ink_cells a.now.stencil.now a.now.place.now a.now.plane a.now.at)
        (ink_cells b.now.stencil.now a.now.place.now b.now.plane a.now.at) }
{
    if a.level > 10 {
        return false;
    }
    if a.plane > 8 {
        return false;
    }
    if b.plane > 8 {
        return false;
    }
    cover_alike(a, a.plane, b, b.plane)
}

// Whether both have ink in the same cells of the block. It may miss that.
fn same_ink<'s>(a: &InkTask<'s>, b: &InkTask<'s>) -> bool
    ensures { IsTrue result → SameIn a.now.level
        (ink_cells a.now.stencil.now a.now.place.now 0 a.now.at)
        (ink_cells b.now.stencil.now a.now.place.now 0 a.now.at) }
{
    if a.level > 10 {
        return false;
    }
    cover_alike(a, 0, b, 0)
}

// Whether the ink of both tells the same in these planes, in the first one's block.
fn cover_alike<'s>(a: &InkTask<'s>, plane: u8, b: &InkTask<'s>, other: u8) -> bool
    requires level { a.now.level ≤ 10 }
    requires planes { (plane < 9) × (other < 9) }
    ensures { IsTrue result → SameIn a.now.level
        (ink_cells a.now.stencil.now a.now.place.now plane a.now.at)
        (ink_cells b.now.stencil.now a.now.place.now other a.now.at) }
{
    let mine = a.stencil.plane(plane);
    let theirs = b.stencil.plane(other);
    mine.agrees(theirs, *a.place, a.at, a.level)
}

// Blocks side by side have places of their own.
fn place_of(level: u8, at: Cell) -> usize
    ensures { result < 2048 }
{
    if level > 10 {
        return 0;
    }
    let up = level + 2;
    let x = u32::from(at.x >> up);
    let y = u32::from(at.y >> up);
    let z = u32::from(at.z >> up);
    ((x + 8 * y + 64 * z + 1000 * u32::from(level)) % 2048) as usize
}

/// A model's tints in each plane, and the level of a plane's block.
#[derive(Clone, Copy)]
pub(crate) struct InkPlanes<'s> {
    stencil: &'s TintStencil,
    place: &'s Cell,
    level: u8,
}

impl<'s> Planes<InkTask<'s>> for InkPlanes<'s> {
    ghost use Rattle.colour.specs.Stamps.{ink_task};

    ghost task_of = { ink_task };

    fn task(&self, plane: u8, old: Option<Name>) -> InkTask<'s> {
        InkTask {
            old,
            stencil: self.stencil,
            place: self.place,
            at: Cell { x: 0, y: 0, z: 0 },
            plane,
            level: self.level,
        }
    }
}

/// A share of the root of the store's world with a model's tints, where its least corner is at this
/// place.
pub(crate) fn rebuild_ink_stamp<N: NodeStore, L: Ledger>(
    store: &mut N,
    old: Option<&Share>,
    side: Side,
    stencil: &TintStencil,
    at: Cell,
    steps: &mut Steps<L>,
) -> Result<Option<Share>, Full>
    requires may { MayEdit 3910 (N.seen store.old) side (option_copied old) }
    requires large { 4 ≤ side }
    requires inside { FitsAt at stencil.now.size (2 ^ (side - 2)) }
    ensures made { Edits (N.seen store.old) side (option_copied old.entry)
        (all_planes side (ink_edit (ink_at stencil.now at))) result (N.seen store.new) }
    ensures rests { N.rests store.old store.new }
{
    let root = side.root_level();
    let planes = InkPlanes {
        stencil,
        place: &at,
        level: root - 2,
    };
    let _n = quarter(side);
    if is_small(stencil.size()) {
        let mut memo = Recent::new();
        return rebuild_planes(store, old, side, planes, &mut memo, steps);
    }
    let mut memo = Latest::new();
    rebuild_planes(store, old, side, planes, &mut memo, steps)
}

// Whether the model has so few blocks above the leaves that 256 places are enough for most.
fn is_small(size: Cell) -> bool {
    size.x.max(size.y).max(size.z) <= 32
}
