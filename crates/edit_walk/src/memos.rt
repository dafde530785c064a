ghost use Rattle.std.specs.Prelude.{◌≡◌, ◌<◌, ◌⊎◌, ℕ, Option, Some, None, IfSome, IsTrue};
ghost use Rattle.edit_walk.specs.cells.Tasks.{MakeAlike};
ghost use Rattle.edit_walk.specs.declared.memos.MemoEntry.{MemoEntry};
ghost use Rattle.edit_walk.specs.Memos.{IsInMemo, IsLike};

use crate::cells::Task;
use node_words::Name;

/// A block of some level that a task made: its name, or none where nothing is set.
#[derive(Clone, Copy)]
pub struct MemoEntry<T> {
    pub level: u8,
    pub task: T,
    pub name: Option<Name>,
}

/// What a walk remembers of the blocks that it made, for blocks further on that have the same
/// cells.
pub trait Memo<T: Task> {
    /// A block of this level is remembered.
    ghost has: { Self → ℕ → MemoEntry T → Type 0 };

    /// A block of this level that a task of the same cells made. It may miss one.
    fn find(&self, level: u8, task: &T) -> Option<MemoEntry<T>>
        ensures kept { IfSome result (λ e. has self.now level e) }
        ensures same { IfSome result (λ e. IsLike T.makes task.now e) };

    /// One more block is remembered, and others may be forgotten.
    fn keep(&mut self, kept: MemoEntry<T>)
        ensures { (level : ℕ) (e : MemoEntry T) → has self.new level e
            → ((level ≡ kept.level) × (e ≡ kept)) ⊎ has self.old level e };
}

/// Remembers nothing, for edits whose blocks are seldom alike.
#[derive(Drop)]
pub struct NoMemo;

impl<T: Task> Memo<T> for NoMemo {
    ghost has = { λ m level e. ⊥ };

    fn find(&self, _level: u8, _task: &T) -> Option<MemoEntry<T>> {
        None
    }

    fn keep(&mut self, _kept: MemoEntry<T>)
        ensures { (level : ℕ) (e : MemoEntry T) → ⊥
            → ((level ≡ _kept.level) × (e ≡ _kept)) ⊎ ⊥ }
    {}
}

/// A task whose blocks are often alike.
pub trait Repeats: Task {
    /// Whether both make the same cells of a block. It reads no node, and may miss some that do.
    fn is_same(&self, other: &Self) -> bool
        ensures { IsTrue result → MakeAlike (Self.makes self.now) (Self.makes other.now) };

    /// The place of the block of this level among 2,048. The more evenly it spreads, the more
    /// blocks are found again.
    fn place(&self, level: u8) -> usize
        ensures { result < 2048 };
}

/// Remembers a block at each of 2,048 places; a new one takes the place of an old. It takes no
/// memory but the stack's.
#[derive(Drop)]
pub struct Latest<T> {
    places: [Option<MemoEntry<T>>; 2048],
}

impl<T: Repeats> Latest<T> {
    /// Nothing yet.
    pub fn new() -> Latest<T>
        ensures { (level : ℕ) (e : MemoEntry T) → ¬ IsInMemo result.places level e }
    {
        Latest {
            places: [None; 2048],
        }
    }
}

impl<T: Repeats> Memo<T> for Latest<T> {
    ghost use Rattle.edit_walk.specs.Memos.{IsInMemo};

    ghost has = { λ m. IsInMemo m.places };

    fn find(&self, level: u8, task: &T) -> Option<MemoEntry<T>> {
        let kept = self.places[task.place(level)]?;
        if kept.level == level && task.is_same(&kept.task) {
            Some(kept)
        } else {
            None
        }
    }

    fn keep(&mut self, kept: MemoEntry<T>)
        ensures { (level : ℕ) (e : MemoEntry T) → IsInMemo self.new.places level e
            → ((level ≡ kept.level) × (e ≡ kept)) ⊎ IsInMemo self.old.places level e }
    {
        self.places[kept.task.place(kept.level)] = Some(kept);
    }
}
