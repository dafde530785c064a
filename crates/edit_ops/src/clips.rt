ghost use Rattle.std.specs.Prelude.{◌≡◌, ◌<◌, ◌^◌, bit_and};
ghost use Rattle.node_words.specs.kernels.Leaves.{LeafShows};
ghost use Rattle.edit_ops.specs.Clips.{is_in_clip};

use crate::balls::{is_inside, is_outside};
use edit_walk::{Task, Whole, clears_nothing, filled, old_whole, paint, side_of};
use node_words::{Blocks, Name, ball_bits, box_bits, leaf_bits};
use vw_cell::{Ball, Block, Boxed, Cell};

/// Sets or clears the cells of a ball that lie in a box, in the block at a place of the world. What
/// all blocks have in common is borrowed.
#[derive(Clone, Copy)]
pub struct ClipTask<'b> {
    pub(crate) old: Option<Name>,
    pub(crate) ball: &'b Ball,
    pub(crate) within: &'b Boxed,
    pub(crate) at: Cell,
    pub(crate) set: bool,
}

impl<'b> Task for ClipTask<'b> {
    ghost use Rattle.std.specs.Prelude.{◌-◌};
    ghost use Rattle.edit_walk.specs.cells.Tasks.{blocks_in};
    ghost use Rattle.edit_ops.specs.Clips.{MakesClip, clip_lasts};

    ghost makes = { λ t. MakesClip t.old t.ball.now t.within.now t.at t.set };

    ghost lasts = { λ t. clip_lasts t.old t.ball.now t.within.now t.at t.set };

    ghost mixed = { λ level t. blocks_in level };

    ghost mixed_in = { λ level t k. blocks_in (level - 1) };

    ghost was = { λ t. t.old };

    fn old(&self) -> Option<Name> {
        self.old
    }

    fn octant<B: Blocks>(
        &self,
        _store: &mut B,
        level: u8,
        octant: u8,
        old: Option<Name>,
    ) -> ClipTask<'b> {
        let block = Block { level, at: self.at };
        let part = block.child(octant);
        ClipTask {
            old,
            ball: self.ball,
            within: self.within,
            at: part.at,
            set: self.set,
        }
    }

    fn whole(&self, level: u8) -> Whole {
        let side = side_of(level);
        let block = Block { level, at: self.at };
        if !self.within.meets(block) {
            return old_whole(self.old);
        }
        if is_outside(*self.ball, self.at, side) {
            return old_whole(self.old);
        }
        if clears_nothing(self.set, self.old) {
            return Whole::Nothing;
        }
        if !self.within.holds_block(block) {
            return Whole::Mixed;
        }
        if is_inside(*self.ball, self.at, side) {
            return filled(self.set);
        }
        Whole::Mixed
    }

    fn bits<B: Blocks>(&self, store: &mut B) -> u64 {
        let old = leaf_bits(store, self.old);
        let block = Block {
            level: 0,
            at: self.at,
        };
        let inside = clip_bits(*self.ball, *self.within, block);
        paint(self.set, old, inside)
    }
}

// The bits of a leaf's cells that lie in the ball and in the box.
#[tactic(auto, using(crate::proofs::ClipLaws::both_show))]
fn clip_bits(ball: Ball, within: Boxed, block: Block) -> u64
    requires level { block.level ≡ 0 }
    ensures bits { LeafShows result block (is_in_clip ball within) }
    ensures bound { result < 2 ^ 64 }
{
    box_bits(within, block) & ball_bits(ball, block)
}
