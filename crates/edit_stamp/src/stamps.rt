ghost use Rattle.std.specs.Prelude.{◌≡◌, ◌+◌, ◌-◌, ◌*◌, ◌^◌, ◌<◌, ◌≤◌, ℕ, IsTrue};

use crate::stencils::Stencil;
use edit_walk::{Task, Whole, clears_nothing, filled, leaf_bits, old_whole, paint};
use node_words::{Blocks, Name};
use vw_cell::{Block, Boxed, Cell};

/// Sets or clears the cells of a model, whose least corner is at `place`, in the block at `at`.
/// What all blocks have in common is borrowed, and stands between what differs: side by side,
/// places would be written in other widths than they are read in, and the processor would wait.
#[derive(Clone, Copy)]
pub struct StampTask<'s> {
    pub(crate) old: Option<Name>,
    pub(crate) stencil: &'s Stencil,
    pub(crate) place: &'s Cell,
    pub(crate) at: Cell,
    pub(crate) set: bool,
}

impl<'s> Task for StampTask<'s> {
    ghost use Rattle.std.specs.Prelude.{◌-◌};
    ghost use Rattle.edit_walk.specs.cells.Tasks.{blocks_in};
    ghost use Rattle.edit_stamp.specs.Stamps.{MakesStamp, stamp_lasts};

    ghost makes = { λ t. MakesStamp t.old t.stencil.now t.place.now t.at t.set };

    ghost lasts = { λ t. stamp_lasts t.old t.stencil.now t.place.now t.at t.set };

    ghost mixed = { λ level t. blocks_in level };

    ghost mixed_in = { λ level t k. blocks_in (level - 1) };

    ghost was = { λ t. t.old };

    fn old(&self) -> Option<Name> {
        self.old
    }

    fn octant<B: Blocks>(
        &self,
        _store: &mut B,
        level: u8,
        octant: u8,
        old: Option<Name>,
    ) -> StampTask<'s> {
        let block = Block { level, at: self.at };
        let part = block.child(octant);
        StampTask {
            old,
            stencil: self.stencil,
            place: self.place,
            at: part.at,
            set: self.set,
        }
    }

    fn whole(&self, level: u8) -> Whole {
        let place = Boxed {
            at: *self.place,
            size: self.stencil.size(),
        };
        let block = Block { level, at: self.at };
        if !place.meets(block) {
            return old_whole(self.old);
        }
        if self.stencil.is_all(*self.place, self.at, level, false) {
            return old_whole(self.old);
        }
        if clears_nothing(self.set, self.old) {
            return Whole::Nothing;
        }
        if !place.holds_block(block) {
            return Whole::Mixed;
        }
        if self.stencil.is_all(*self.place, self.at, level, true) {
            return filled(self.set);
        }
        Whole::Mixed
    }

    fn bits<B: Blocks>(&self, store: &mut B) -> u64 {
        let old = leaf_bits(store, self.old);
        let block = Block {
            level: 0,
            at: self.at,
        };
        let inside = self.stencil.leaf_bits(*self.place, block);
        paint(self.set, old, inside)
    }
}
