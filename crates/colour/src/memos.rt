ghost use Rattle.std.specs.Prelude.{◌≡◌, ◌<◌, ◌⊎◌, ℕ};
ghost use Rattle.edit_walk.specs.declared.memos.MemoEntry.{MemoEntry};
ghost use Rattle.edit_walk.specs.Memos.{IsInMemo};

use edit_walk::{Memo, MemoEntry, Repeats};

/// Remembers blocks above the leaves, one at each of 256 places; a new one takes the place of an
/// old. It is laid out in less time than a small model takes, and a leaf is made in about the time
/// in which it would be found. It takes no memory but the stack's.
#[derive(Drop)]
pub(crate) struct Recent<T> {
    places: [Option<MemoEntry<T>>; 256],
}

impl<T: Repeats> Recent<T> {
    /// Nothing yet.
    pub(crate) fn new() -> Recent<T>
        ensures { (level : ℕ) (e : MemoEntry T) → ¬ IsInMemo result.places level e }
    {
        Recent {
            places: [None; 256],
        }
    }
}

impl<T: Repeats> Memo<T> for Recent<T> {
    ghost use Rattle.edit_walk.specs.Memos.{IsInMemo};

    ghost has = { λ m. IsInMemo m.places };

    fn find(&self, level: u8, task: &T) -> Option<MemoEntry<T>> {
        if level == 0 {
            return None;
        }
        let kept = self.places[place_of(level, task)]?;
        if kept.level == level && task.is_same(&kept.task) {
            Some(kept)
        } else {
            None
        }
    }

    fn keep(&mut self, kept: MemoEntry<T>)
        ensures { (level : ℕ) (e : MemoEntry T) → IsInMemo self.new.places level e
            → ((level ≡ kept.level) × (e ≡ kept)) ⊎ IsInMemo self.old.places level e }
    {
        if kept.level == 0 {
            return;
        }
        self.places[place_of(kept.level, &kept.task)] = Some(kept);
    }
}

fn place_of<T: Repeats>(level: u8, task: &T) -> usize
    ensures { result < 256 }
{
    task.place(level) % 256
}
