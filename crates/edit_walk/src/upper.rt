ghost use Rattle.std.specs.Prelude.{◌≡◌, ◌<◌, ◌⊎◌, ℕ};
ghost use Rattle.edit_walk.specs.declared.memos.MemoEntry.{MemoEntry};
ghost use Rattle.edit_walk.specs.Memos.{IsInMemo};

use crate::memos::{Memo, MemoEntry, Repeats};

// The least level of the blocks that are remembered: a block has 32 cells on each axis.
const LEAST: u8 = 3;

/// Remembers large blocks, one at each of 512 places, and of two blocks of one place the larger. So
/// a walk pays nothing for its many small blocks, and finds the largest of those that stayed the
/// same. It takes no memory but the stack's.
#[derive(Drop)]
pub struct Upper<T> {
    places: [Option<MemoEntry<T>>; 512],
}

impl<T: Repeats> Upper<T> {
    /// Nothing yet.
    pub fn new() -> Upper<T>
        ensures { (level : ℕ) (e : MemoEntry T) → ¬ IsInMemo result.places level e }
    {
        Upper {
            places: [None; 512],
        }
    }

    // Whether one of this level is smaller than the block that stands at this place.
    fn is_smaller(&self, place: usize, level: u8) -> bool
        requires { place < 512 }
    {
        match self.places[place] {
            Some(kept) => level < kept.level,
            None => false,
        }
    }
}

impl<T: Repeats> Memo<T> for Upper<T> {
    ghost use Rattle.edit_walk.specs.Memos.{IsInMemo};

    ghost has = { λ m. IsInMemo m.places };

    fn find(&self, level: u8, task: &T) -> Option<MemoEntry<T>> {
        if level < LEAST {
            return None;
        }
        let kept = self.places[place_of(level, task)]?;
        if kept.level == level && task.is_same(&kept.task) {
            Some(kept)
        } else {
            None
        }
    }

    fn keep(&mut self, kept: MemoEntry<T>)
        ensures { (level : ℕ) (e : MemoEntry T) → IsInMemo self.new.places level e
            → ((level ≡ kept.level) × (e ≡ kept)) ⊎ IsInMemo self.old.places level e }
    {
        if kept.level < LEAST {
            return;
        }
        let place = place_of(kept.level, &kept.task);
        if self.is_smaller(place, kept.level) {
            return;
        }
        self.places[place] = Some(kept);
    }
}

fn place_of<T: Repeats>(level: u8, task: &T) -> usize
    ensures { result < 512 }
{
    task.place(level) % 512
}
